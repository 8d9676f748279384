//! What stands at the front of a spec file.

ghost use Rattle.std.specs.Prelude.{◌≡◌, ◌<◌, true, false, [], ◌∷◌, length};
ghost use Rattle.std.specs.Option.{option_map_or};
ghost use Rattle.iso_lexer.specs.Bytes.{is_blank, is_name_start};
ghost use Rattle.iso_lexer.specs.Inner.Runs.{spelled};
ghost use Rattle.iso_lexer.specs.Names.{quoted};
ghost use Rattle.iso_lexer.specs.SpecTokens.{name, sign};
ghost use Rattle.iso_lexer.specs.Lexing.{token, fault};
ghost use Rattle.iso_lexer.specs.Inner.Quotes.{quoted_from, quoted_front};
ghost use Rattle.iso_lexer.specs.declared.fault.FaultKind.TheVariants.{UnterminatedName, UnexpectedByte};
ghost use Rattle.iso_lexer.specs.SpecText.{spec_keywords, spec_signs, spec_front};
ghost use Rattle.iso_lexer.specs.Inner.SpecFronts.{block_front, word_front, ascii_front};
ghost use Rattle.iso_lexer.specs.Fronts.{front_view};

use crate::fault::FaultKind;
use crate::name::Name;
use crate::piece::Piece;
use crate::quoted::quoted_front;
use crate::runs::{Run, is_blank, is_name_start, split_run, trimmed};
use crate::spec_token::{Keyword, Sign, SpecTok};
use memchr::memchr;

fn keyword_of(word: &str) -> Option<Keyword>
    ensures { result ≡ spelled spec_keywords word.now }
{
    match word {
        "permutation" => Some(Keyword::Permutation),
        "session" => Some(Keyword::Session),
        "setup" => Some(Keyword::Setup),
        "step" => Some(Keyword::Step),
        "teardown" => Some(Keyword::Teardown),
        "notices" => Some(Keyword::Notices),
        _ => None,
    }
}

fn sign_of(b: u8) -> Option<Sign>
    ensures { result ≡ spelled spec_signs (b ∷ []) }
{
    match b {
        b'(' => Some(Sign::Open),
        b')' => Some(Sign::Close),
        b',' => Some(Sign::Comma),
        b'*' => Some(Sign::Star),
        _ => None,
    }
}

/// A quoted name, by the text behind its opening quote.
fn name_front(text: &str) -> Piece<'_, SpecTok<'_>>
    ensures { front_view result ≡ quoted_front (λ s. name (quoted s)) UnterminatedName (quoted_from 34 true false text.now) text.now }
{
    match quoted_front(b'"', true, FaultKind::UnterminatedName, text) {
        Piece::Gap(rest) => Piece::Gap(rest),
        Piece::Token(name, rest) => Piece::Token(SpecTok::Name(Name::Quoted(name)), rest),
        Piece::Fault(kind, n) => Piece::Fault(kind, n),
    }
}

/// A block, by the text behind its opening brace.
fn block_front(text: &str) -> Piece<'_, SpecTok<'_>>
    ensures { front_view result ≡ block_front text.now }
{
    match memchr(b'}', text.as_bytes()) {
        None => Piece::Fault(FaultKind::UnterminatedBlock, 0),
        Some(len) => {
            let (block, _) = text.split_at(len);
            let (_, rest) = text.split_at(len + 1);
            let (blanks, _) = split_run(Run::Blanks, block);
            let token = SpecTok::Block {
                blanks: blanks.len(),
                sql: trimmed(block),
            };
            Piece::Token(token, rest)
        }
    }
}

/// A keyword or a plain name.
fn word_front(text: &str) -> Piece<'_, SpecTok<'_>>
    ensures { front_view result ≡ word_front text.now }
{
    let (word, rest) = split_run(Run::Word, text);
    match keyword_of(word) {
        Some(keyword) => Piece::Token(SpecTok::Keyword(keyword), rest),
        None => Piece::Token(SpecTok::Name(Name::Plain(word)), rest),
    }
}

fn sign_front(b: u8, rest: &str) -> Piece<'_, SpecTok<'_>>
    ensures { front_view result ≡ option_map_or (λ s. token (sign s) rest.now) (spelled spec_signs (b ∷ [])) (fault UnexpectedByte 0) }
{
    match sign_of(b) {
        Some(sign) => Piece::Token(SpecTok::Sign(sign), rest),
        None => Piece::Fault(FaultKind::UnexpectedByte, 0),
    }
}

/// What begins with an ASCII byte that begins no word; `rest` is what follows that byte.
fn ascii_front<'a>(first: u8, text: &'a str, rest: &'a str) -> Piece<'a, SpecTok<'a>>
    ensures { front_view result ≡ ascii_front first text.now rest.now }
{
    if is_blank(first) || first == b'\n' {
        Piece::Gap(rest)
    } else if first == b'#' {
        Piece::Gap(split_run(Run::Comment, text).1)
    } else if first.is_ascii_digit() {
        let (digits, rest) = split_run(Run::Digits, text);
        Piece::Token(SpecTok::Digits(digits), rest)
    } else if first == b'"' {
        name_front(rest)
    } else if first == b'{' {
        block_front(rest)
    } else {
        sign_front(first, rest)
    }
}

pub fn front(text: &str) -> Piece<'_, SpecTok<'_>>
    requires { 0 < length text.now }
    ensures { front_view result ≡ spec_front text.now }
{
    let first = text.as_bytes()[0];
    if is_name_start(first) {
        return word_front(text);
    }
    let (_, rest) = text.split_at(1);
    ascii_front(first, text, rest)
}
