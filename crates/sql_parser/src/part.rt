//! Parts that several kinds of statement have.

ghost use Rattle.std.specs.Prelude.{◌≡◌, ◌<◌, ◌≤◌, IfOk, IfSome, length, map, option_map};
ghost use Rattle.iso_lexer.specs.declared.sql_token.SqlSign.TheVariants as signs;
ghost use Rattle.sql_trees.specs.Tokens.{tok_view, tok_views};
ghost use Rattle.sql_trees.specs.Trees.{tree_of};
ghost use Rattle.sql_trees.specs.Statements.{name_of};
ghost use Rattle.sql_expressions.specs.Results.{Gives};
ghost use Rattle.sql_expressions.specs.Readers.{expect, is_sign, after, is_word, keyword, name_at};
ghost use Rattle.sql_parser.specs.Tables.{has_name};
ghost use Rattle.sql_parser.specs.Inner.Parts.{misplaced_word};
ghost use Rattle.sql_parser.specs.Readers.{tree_at};

use iso_lexer::{At, Name, SqlSign, same_name};
use sql_expressions::{Parsed, Parser, Tokens, parse_expr};
use sql_trees::{Expr, SqlFault, Tok, Word};

/// Whether the token is that keyword.
pub fn is_word(tok: Tok, word: Word) -> bool
    ensures { result ≡ is_word word (tok_view tok.entry) }
{
    match tok {
        Tok::Word(found, _) => found.is(word),
        _ => false,
    }
}

/// The tokens behind a keyword, if it stands next.
pub fn after_word<'t, 'a>(word: Word, tokens: Tokens<'t, 'a>) -> Option<Tokens<'t, 'a>>
    ensures exact { option_map (λ rest. tok_views rest.now) result ≡ after (is_word word) (tok_views tokens.now) }
    ensures shorter { IfSome result (λ rest. length rest.now < length tokens.now) }
{
    match tokens {
        [token, rest @ ..] if is_word(token.tok, word) => Some(rest),
        _ => None,
    }
}

/// The tokens behind a keyword, which has to stand next.
pub fn keyword<'t, 'a>(
    parser: Parser,
    word: Word,
    tokens: Tokens<'t, 'a>,
) -> Result<Tokens<'t, 'a>, SqlFault>
    ensures exact { Gives (λ rest. tok_views rest.now) result (keyword parser.text_len word (tok_views tokens.now)) }
    ensures shorter { IfOk result (λ rest. length rest.now < length tokens.now) }
{
    match tokens {
        [token, rest @ ..] if is_word(token.tok, word) => Ok(rest),
        _ => Err(parser.misplaced(tokens)),
    }
}

/// The fault at the first token, where each unquoted word is left out.
pub fn misplaced_word(parser: Parser, tokens: &[At<Tok>]) -> SqlFault
    ensures { result ≡ misplaced_word parser.text_len (tok_views tokens.now) }
{
    let [token, ..] = tokens else {
        return parser.misplaced(tokens);
    };
    match token.tok {
        Tok::Word(..) => SqlFault::LeftOut(token.span.start),
        _ => parser.misplaced(tokens),
    }
}

/// A name.
pub fn name<'t, 'a>(
    parser: Parser,
    tokens: Tokens<'t, 'a>,
) -> Result<(Name<'a>, Tokens<'t, 'a>), SqlFault>
    ensures exact { Gives (λ x. (name_of x.0, tok_views x.1.now)) result (name_at parser.text_len (tok_views tokens.now)) }
    ensures shorter { IfOk result (λ x. length x.1.now < length tokens.now) }
{
    let [token, rest @ ..] = tokens else {
        return Err(parser.misplaced(tokens));
    };
    match token.tok.name() {
        Some(name) => Ok((name, rest)),
        None => Err(parser.misplaced(tokens)),
    }
}

/// An expression.
pub fn expr<'t, 'a>(
    parser: Parser,
    tokens: Tokens<'t, 'a>,
) -> Result<(Box<Expr<'a>>, Tokens<'t, 'a>), SqlFault>
    ensures exact { Gives (λ x. (tree_of x.0.value, tok_views x.1.now)) result (tree_at parser.text_len (tok_views tokens.now)) }
    ensures shorter { IfOk result (λ x. length x.1.now ≤ length tokens.now) }
{
    let (Parsed { expr, .. }, rest) = parse_expr(parser.alloc, parser.text_len, tokens)?;
    Ok((expr, rest))
}

/// Whether one of the names is this one.
pub fn is_among(name: &Name, mut names: &[Name]) -> bool
    ensures { result ≡ has_name (name_of name.now) (map name_of names.entry.now) }
{
    while let [other, rest @ ..] = names {
        if same_name(other, name) {
            return true;
        }
        names = rest;
    }
    false
}

/// The tokens behind a `(`, if it stands next.
pub fn after_open<'t, 'a>(tokens: Tokens<'t, 'a>) -> Option<Tokens<'t, 'a>>
    ensures exact { option_map (λ rest. tok_views rest.now) result ≡ after (is_sign signs.Open) (tok_views tokens.now) }
    ensures shorter { IfSome result (λ rest. length rest.now < length tokens.now) }
{
    match tokens {
        [
            At {
                tok: Tok::Sign(SqlSign::Open),
                ..
            },
            rest @ ..,
        ] => Some(rest),
        _ => None,
    }
}

/// The tokens behind a `(`, which has to stand next.
pub fn open<'t, 'a>(parser: Parser, tokens: Tokens<'t, 'a>) -> Result<Tokens<'t, 'a>, SqlFault>
    ensures exact { Gives (λ rest. tok_views rest.now) result (expect parser.text_len (is_sign signs.Open) (tok_views tokens.now)) }
    ensures shorter { IfOk result (λ rest. length rest.now < length tokens.now) }
{
    match tokens {
        [
            At {
                tok: Tok::Sign(SqlSign::Open),
                ..
            },
            rest @ ..,
        ] => Ok(rest),
        _ => Err(parser.misplaced(tokens)),
    }
}

/// The tokens behind a `)`, which has to stand next.
pub fn close<'t, 'a>(parser: Parser, tokens: Tokens<'t, 'a>) -> Result<Tokens<'t, 'a>, SqlFault>
    ensures exact { Gives (λ rest. tok_views rest.now) result (expect parser.text_len (is_sign signs.Close) (tok_views tokens.now)) }
    ensures shorter { IfOk result (λ rest. length rest.now < length tokens.now) }
{
    match tokens {
        [
            At {
                tok: Tok::Sign(SqlSign::Close),
                ..
            },
            rest @ ..,
        ] => Ok(rest),
        _ => Err(parser.misplaced(tokens)),
    }
}
