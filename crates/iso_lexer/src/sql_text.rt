//! SQL text as tokens.

ghost use Rattle.std.specs.Prelude.{◌≡◌, List, ℕ, Result, Ok};
ghost use Rattle.std.specs.List.{AllByRecursion};
ghost use Rattle.iso_lexer.specs.SqlSpelling.{SqlLiesAt};
ghost use Rattle.iso_lexer.specs.SqlTokens.{SqlToken};
ghost use Rattle.iso_lexer.specs.SqlText.{SqlAnswers, SqlLexes};
ghost use Rattle.iso_lexer.specs.declared.fault.Fault.{Fault};
ghost use Rattle.iso_lexer.specs.declared.token.At.{At};

use crate::fault::LexFault;
use crate::piece::Piece;
use crate::sql_front::sql_front;
use crate::sql_token::SqlTok;
use crate::token::At;
use crate::tokens::{Token, tokens};
use std::alloc::Global;

impl<'a> Token<'a> for SqlTok<'a> {
    ghost use Rattle.iso_lexer.specs.SqlTokens.{SqlToken, sql_view};
    ghost use Rattle.iso_lexer.specs.SqlText.{sql_front as rules_of_sql};

    ghost Plain = { SqlToken };

    ghost plain = { sql_view };

    ghost rules = { rules_of_sql };

    fn front(text: &'a str) -> Piece<'a, SqlTok<'a>> {
        sql_front(text)
    }
}

/// The tokens of SQL text, or its first fault.
pub fn sql_tokens<'a>(alloc: Global, text: &'a str) -> Result<Vec<At<SqlTok<'a>>>, LexFault>
    ensures { SqlAnswers text.now result }
{
    tokens(alloc, text)
}

/// SQL text has one list of tokens, or one first fault.
pub fn one_sql_reading()
    ensures { (text : List ℕ) (x y : Result (List (At SqlToken)) Fault) → SqlLexes text x → SqlLexes text y → x ≡ y }
{}

/// Each token of SQL text is the slice of the text at its span.
pub fn sql_tokens_are_slices()
    ensures { (text : List ℕ) (ts : List (At SqlToken)) → SqlLexes text (Ok ts) → AllByRecursion (SqlLiesAt text) ts }
{}
