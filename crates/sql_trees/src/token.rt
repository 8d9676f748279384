//! Tokens of SQL text, each word with its keyword.

ghost use Rattle.std.specs.Prelude.{◌≡◌, IfOk, map, option_map};
ghost use Rattle.iso_lexer.specs.SqlTokens.{sql_view, sql_at_views};
ghost use Rattle.sql_trees.specs.Statements.{name_of};
ghost use Rattle.sql_trees.specs.Tokens.{classify, classify_at, named, tok_view, tok_views};

use crate::word::{Word, word_of};
use iso_lexer::{At, Name, SqlSign, SqlTok};
use std::alloc::{AllocError, Global};

/// A token of SQL text, over slices of the text.
#[derive(Clone, Copy)]
pub enum Tok<'a> {
    /// An unquoted word as it is spelled, and the keyword that it is.
    Word(Word, &'a str),
    /// What stands between the quotes of a quoted name; a doubled quote stands for one.
    Quoted(&'a str),
    /// What stands between the quotes of a string; a doubled quote stands for one.
    Text(&'a str),
    /// A whole number.
    Number(u64),
    Sign(SqlSign),
}

fn classify(tok: SqlTok<'_>) -> Tok<'_>
    ensures { tok_view result ≡ classify (sql_view tok.entry) }
{
    match tok {
        SqlTok::Word(text) => Tok::Word(word_of(text), text),
        SqlTok::Quoted(text) => Tok::Quoted(text),
        SqlTok::Text(text) => Tok::Text(text),
        SqlTok::Number(n) => Tok::Number(n),
        SqlTok::Sign(sign) => Tok::Sign(sign),
    }
}

/// The tokens, each word with its keyword.
pub fn classified<'a>(
    alloc: Global,
    tokens: &[At<SqlTok<'a>>],
) -> Result<Vec<At<Tok<'a>>>, AllocError>
    ensures { IfOk result (λ v. tok_views v.items ≡ map classify_at (sql_at_views tokens.now)) }
{
    let mut all = Vec::new(alloc);
    for token in tokens {
        all.push(At {
            tok: classify(token.tok),
            span: token.span,
        })?;
    }
    Ok(all)
}

impl<'a> Tok<'a> {
    /// The name that the token is: a word that is not reserved, or what stands in quotes and isn't empty.
    pub fn name(self) -> Option<Name<'a>>
        ensures { option_map name_of result ≡ named (tok_view self.entry) }
    {
        match self {
            Tok::Word(word, text) if !word.is_reserved() => Some(Name::Folded(text)),
            Tok::Quoted(text) if !text.is_empty() => Some(Name::Quoted(text)),
            _ => None,
        }
    }
}
