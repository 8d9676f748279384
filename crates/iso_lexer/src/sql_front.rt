//! What stands at the front of SQL text.

ghost use Rattle.std.specs.Prelude.{◌≡◌, ◌<◌, ◌≤◌, true, false, [], ◌∷◌, length, slice_index, MatchOption};
ghost use Rattle.std.specs.Option.{option_map_or};
ghost use Rattle.std.specs.Char.{is_ascii_digit};
ghost use Rattle.std.specs.Str.Parse.{IsNumeral, digits_value};
ghost use Rattle.iso_lexer.specs.Inner.Runs.{run_of, after_run, spelled};
ghost use Rattle.iso_lexer.specs.Comments.{after_comment};
ghost use Rattle.iso_lexer.specs.SqlTokens.{word, quoted, string};
ghost use Rattle.iso_lexer.specs.Lexing.{gap, token, fault};
ghost use Rattle.iso_lexer.specs.Inner.Quotes.{quoted_from, quoted_front};
ghost use Rattle.iso_lexer.specs.declared.runs.Run.TheVariants.{Word};
ghost use Rattle.iso_lexer.specs.declared.fault.FaultKind.TheVariants.{UnterminatedName, UnterminatedString, UnterminatedComment};
ghost use Rattle.iso_lexer.specs.SqlText.{sql_signs, sql_front};
ghost use Rattle.iso_lexer.specs.Inner.SqlFronts.{number_front, sign_front, pair_front, ascii_front};
ghost use Rattle.iso_lexer.specs.Fronts.{sql_front_view};

use crate::comment::{comment_end, opens_here};
use crate::fault::FaultKind;
use crate::piece::Piece;
use crate::quoted::quoted_front;
use crate::runs::{Run, is_blank, is_name_byte, is_name_start, split_run};
use crate::sql_token::{SqlSign, SqlTok};

const LARGEST_NUMBER: u64 = 9_223_372_036_854_775_807;

/// The sign of two bytes.
fn sign_of_two(first: u8, second: u8) -> Option<SqlSign>
    ensures { result ≡ spelled sql_signs (first ∷ second ∷ []) }
{
    match (first, second) {
        (b'<', b'>') => Some(SqlSign::NotEqual),
        (b'!', b'=') => Some(SqlSign::NotEqual),
        (b'<', b'=') => Some(SqlSign::AtMost),
        (b'>', b'=') => Some(SqlSign::AtLeast),
        (b'|', b'|') => Some(SqlSign::Concat),
        (b':', b':') => Some(SqlSign::Cast),
        _ => None,
    }
}

/// The sign of one byte.
fn sign_of_one(first: u8) -> Option<SqlSign>
    ensures { result ≡ spelled sql_signs (first ∷ []) }
{
    match first {
        b'(' => Some(SqlSign::Open),
        b')' => Some(SqlSign::Close),
        b',' => Some(SqlSign::Comma),
        b';' => Some(SqlSign::Semicolon),
        b'+' => Some(SqlSign::Plus),
        b'-' => Some(SqlSign::Minus),
        b'*' => Some(SqlSign::Star),
        b'/' => Some(SqlSign::Slash),
        b'%' => Some(SqlSign::Percent),
        b'=' => Some(SqlSign::Equal),
        b'<' => Some(SqlSign::Less),
        b'>' => Some(SqlSign::Greater),
        b'.' => Some(SqlSign::Dot),
        _ => None,
    }
}

fn word_front(text: &str) -> Piece<'_, SqlTok<'_>>
    ensures { sql_front_view result ≡ token (word tt (run_of Word text.now)) (after_run Word text.now) }
{
    let (word, rest) = split_run(Run::Word, text);
    Piece::Token(SqlTok::Word(word), rest)
}

/// The number that the digits write, unless it is too large.
fn number_of(digits: &str) -> Option<u64>
    requires { IsNumeral 10 digits.now }
    ensures { MatchOption result (9_223_372_036_854_775_807 < digits_value 10 digits.now) (λ n. (n ≡ digits_value 10 digits.now) × (n ≤ 9_223_372_036_854_775_807)) }
{
    match digits.parse::<u64>() {
        Ok(number) if number <= LARGEST_NUMBER => Some(number),
        _ => None,
    }
}

/// The first byte, and 0 of nothing.
fn first_byte(text: &str) -> u8
    ensures { result ≡ slice_index text.now 0 }
{
    match text.as_bytes() {
        [] => 0,
        [first, ..] => *first,
    }
}

/// A number, and nothing of a name directly behind its digits.
fn number_front(text: &str) -> Piece<'_, SqlTok<'_>>
    requires { is_ascii_digit (slice_index text.now 0) ≡ true }
    ensures { sql_front_view result ≡ number_front text.now }
{
    let (digits, rest) = split_run(Run::Digits, text);
    match number_of(digits) {
        None => Piece::Fault(FaultKind::NumberTooLarge, 0),
        Some(number) => {
            if is_name_byte(first_byte(rest)) {
                Piece::Fault(FaultKind::UnexpectedByte, digits.len())
            } else {
                Piece::Token(SqlTok::Number(number), rest)
            }
        }
    }
}

/// A quoted name, by the text behind its opening quote.
fn name_front(text: &str) -> Piece<'_, SqlTok<'_>>
    ensures { sql_front_view result ≡ quoted_front quoted UnterminatedName (quoted_from 34 false false text.now) text.now }
{
    match quoted_front(b'"', false, FaultKind::UnterminatedName, text) {
        Piece::Gap(rest) => Piece::Gap(rest),
        Piece::Token(name, rest) => Piece::Token(SqlTok::Quoted(name), rest),
        Piece::Fault(kind, n) => Piece::Fault(kind, n),
    }
}

/// A string, by the text behind its opening quote.
fn string_front(text: &str) -> Piece<'_, SqlTok<'_>>
    ensures { sql_front_view result ≡ quoted_front string UnterminatedString (quoted_from 39 false false text.now) text.now }
{
    match quoted_front(b'\'', false, FaultKind::UnterminatedString, text) {
        Piece::Gap(rest) => Piece::Gap(rest),
        Piece::Token(string, rest) => Piece::Token(SqlTok::Text(string), rest),
        Piece::Fault(kind, n) => Piece::Fault(kind, n),
    }
}

/// A comment that nests, by the text behind its opening.
fn comment_front(text: &str) -> Piece<'_, SqlTok<'_>>
    ensures { sql_front_view result ≡ option_map_or gap (after_comment 0 text.now) (fault UnterminatedComment 0) }
{
    match comment_end(text.as_bytes()) {
        None => Piece::Fault(FaultKind::UnterminatedComment, 0),
        Some(len) => Piece::Gap(text.split_at(len).1),
    }
}

/// A sign; `rest` is what follows its first byte.
fn sign_front(first: u8, second: u8, rest: &str) -> Piece<'_, SqlTok<'_>>
    requires { second ≡ slice_index rest.now 0 }
    ensures { sql_front_view result ≡ sign_front first second rest.now }
{
    if let Some(sign) = sign_of_two(first, second) {
        return Piece::Token(SqlTok::Sign(sign), rest.split_at(1).1);
    }
    match sign_of_one(first) {
        Some(sign) => Piece::Token(SqlTok::Sign(sign), rest),
        None => Piece::Fault(FaultKind::UnexpectedByte, 0),
    }
}

/// A comment or a sign, by its first two bytes.
fn pair_front<'a>(first: u8, text: &'a str, rest: &'a str) -> Piece<'a, SqlTok<'a>>
    ensures { sql_front_view result ≡ pair_front first (slice_index rest.now 0) text.now rest.now }
{
    let second = first_byte(rest);
    if first == b'-' && second == b'-' {
        Piece::Gap(split_run(Run::Comment, text).1)
    } else if opens_here(first, second) {
        comment_front(rest.split_at(1).1)
    } else {
        sign_front(first, second, rest)
    }
}

/// What begins with an ASCII byte that begins no word; `rest` is what follows that byte.
fn ascii_front<'a>(first: u8, text: &'a str, rest: &'a str) -> Piece<'a, SqlTok<'a>>
    requires { first ≡ slice_index text.now 0 }
    ensures { sql_front_view result ≡ ascii_front first text.now rest.now }
{
    if is_blank(first) || first == b'\n' {
        Piece::Gap(rest)
    } else if first.is_ascii_digit() {
        number_front(text)
    } else if first == b'"' {
        name_front(rest)
    } else if first == b'\'' {
        string_front(rest)
    } else {
        pair_front(first, text, rest)
    }
}

pub fn sql_front(text: &str) -> Piece<'_, SqlTok<'_>>
    requires { 0 < length text.now }
    ensures { sql_front_view result ≡ sql_front text.now }
{
    let first = text.as_bytes()[0];
    if is_name_start(first) {
        return word_front(text);
    }
    let (_, rest) = text.split_at(1);
    ascii_front(first, text, rest)
}
