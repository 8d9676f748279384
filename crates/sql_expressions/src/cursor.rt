//! Where reading stands in the tokens.

ghost use Rattle.std.specs.Prelude.{◌≡◌, option_map};
ghost use Rattle.iso_lexer.specs.declared.sql_token.SqlSign.TheVariants as signs;
ghost use Rattle.sql_trees.specs.Tokens.{tok_views};
ghost use Rattle.sql_expressions.specs.Results.{Gives};
ghost use Rattle.sql_expressions.specs.Readers.{after, is_sign, expect, misplaced, place_of};

use crate::operator::is_left_out;
use iso_lexer::{At, SqlSign};
use sql_trees::{SqlFault, Tok};
use std::alloc::Global;

pub type Tokens<'t, 'a> = &'t [At<Tok<'a>>];

/// What reading needs to know besides the tokens.
#[derive(Clone, Copy)]
pub struct Parser {
    pub alloc: Global,
    /// The text's length in bytes, where its end stands.
    pub text_len: usize,
}

/// The tokens after a comma, if one stands next.
pub fn after_comma<'t, 'a>(tokens: Tokens<'t, 'a>) -> Option<Tokens<'t, 'a>>
    ensures { option_map (λ rest. tok_views rest.now) result ≡ after (is_sign signs.Comma) (tok_views tokens.now) }
{
    match tokens {
        [
            At {
                tok: Tok::Sign(SqlSign::Comma),
                ..
            },
            rest @ ..,
        ] => Some(rest),
        _ => None,
    }
}

impl Parser {
    /// The fault at the first token, which no rule allows.
    pub fn misplaced(self, tokens: &[At<Tok>]) -> SqlFault
        ensures { result ≡ misplaced self.text_len (tok_views tokens.now) }
    {
        match tokens {
            [] => SqlFault::Syntax(self.text_len),
            [token, ..] if is_left_out(token.tok) => SqlFault::LeftOut(token.span.start),
            [token, ..] => SqlFault::Syntax(token.span.start),
        }
    }

    /// Where the first token stands.
    pub fn place_of(self, tokens: &[At<Tok>]) -> usize
        ensures { result ≡ place_of self.text_len (tok_views tokens.now) }
    {
        match tokens {
            [] => self.text_len,
            [token, ..] => token.span.start,
        }
    }

    /// The tokens behind a `(`, which has to stand next.
    pub fn open<'t, 'a>(self, tokens: Tokens<'t, 'a>) -> Result<Tokens<'t, 'a>, SqlFault>
        ensures { Gives (λ rest. tok_views rest.now) result (expect self.text_len (is_sign signs.Open) (tok_views tokens.now)) }
    {
        match tokens {
            [
                At {
                    tok: Tok::Sign(SqlSign::Open),
                    ..
                },
                rest @ ..,
            ] => Ok(rest),
            _ => Err(self.misplaced(tokens)),
        }
    }

    /// The tokens behind a `)`, which has to stand next.
    pub fn close<'t, 'a>(self, tokens: Tokens<'t, 'a>) -> Result<Tokens<'t, 'a>, SqlFault>
        ensures { Gives (λ rest. tok_views rest.now) result (expect self.text_len (is_sign signs.Close) (tok_views tokens.now)) }
    {
        match tokens {
            [
                At {
                    tok: Tok::Sign(SqlSign::Close),
                    ..
                },
                rest @ ..,
            ] => Ok(rest),
            _ => Err(self.misplaced(tokens)),
        }
    }
}
