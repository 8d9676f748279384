//! The tokens that an expression goes on with.

ghost use Rattle.std.specs.Prelude.{◌≡◌, option_map};
ghost use Rattle.sql_trees.specs.Tokens.{tok_view, tok_views};
ghost use Rattle.sql_expressions.specs.Readers.{left_out};
ghost use Rattle.sql_expressions.specs.Reading.{is_call, truth_of, operators, comparison_op};
ghost use Rattle.sql_expressions.specs.Inner.Pieces.{is_not, prefix_at, prefix_of};

use crate::cursor::Tokens;
use crate::level::{Chain, Prefix};
use iso_lexer::SqlSign;
use sql_trees::{Operator, Tok, Truth, Word};

/// Whether the token stands for a part of SQL that is left out.
pub fn is_left_out(tok: Tok) -> bool
    ensures { result ≡ left_out (tok_view tok.entry) }
{
    match tok {
        Tok::Word(word, _) => word.is_left_out(),
        Tok::Sign(SqlSign::Dot) | Tok::Sign(SqlSign::Cast) => true,
        _ => false,
    }
}

/// Whether the token is the name of an aggregate.
pub fn is_call(tok: Tok) -> bool
    ensures { result ≡ is_call (tok_view tok.entry) }
{
    match tok {
        Tok::Word(word, _) => word.is_aggregate(),
        _ => false,
    }
}

/// Whether the token is the word `NOT`.
pub fn is_not(tok: Tok) -> bool
    ensures { result ≡ is_not (tok_view tok.entry) }
{
    matches!(tok, Tok::Word(Word::Not, _))
}

/// What an `IS` before the token asks for.
pub fn truth_of(tok: Tok) -> Option<Truth>
    ensures { result ≡ truth_of (tok_view tok.entry) }
{
    match tok {
        Tok::Word(Word::Null, _) => Some(Truth::Null),
        Tok::Word(Word::True, _) => Some(Truth::True),
        Tok::Word(Word::False, _) => Some(Truth::False),
        Tok::Word(Word::Unknown, _) => Some(Truth::Unknown),
        _ => None,
    }
}

/// The comparison that the token is.
pub fn comparison(tok: Tok) -> Option<Operator>
    ensures { result ≡ comparison_op (tok_view tok.entry) }
{
    match tok {
        Tok::Sign(SqlSign::Equal) => Some(Operator::Equal),
        Tok::Sign(SqlSign::NotEqual) => Some(Operator::NotEqual),
        Tok::Sign(SqlSign::Less) => Some(Operator::Less),
        Tok::Sign(SqlSign::AtMost) => Some(Operator::AtMost),
        Tok::Sign(SqlSign::Greater) => Some(Operator::Greater),
        Tok::Sign(SqlSign::AtLeast) => Some(Operator::AtLeast),
        _ => None,
    }
}

fn prefix_of(tok: Tok) -> Option<Prefix>
    ensures { result ≡ prefix_of (tok_view tok.entry) }
{
    match tok {
        Tok::Sign(SqlSign::Open) => Some(Prefix::Paren),
        Tok::Sign(SqlSign::Minus) => Some(Prefix::Minus),
        Tok::Sign(SqlSign::Plus) => Some(Prefix::Plus),
        _ => None,
    }
}

/// The parenthesis or sign that stands next, its place, and the tokens after it.
pub fn prefix<'t, 'a>(tokens: Tokens<'t, 'a>) -> Option<(Prefix, usize, Tokens<'t, 'a>)>
    ensures { option_map (λ x. (x.0, x.1, tok_views x.2.now)) result ≡ prefix_at (tok_views tokens.now) }
{
    let [token, rest @ ..] = tokens else {
        return None
    };
    let prefix = prefix_of(token.tok)?;
    Some((prefix, token.span.start, rest))
}

impl Chain {
    /// The operator of this level that the token is.
    pub fn operator(self, tok: Tok) -> Option<Operator>
        ensures { result ≡ operators self (tok_view tok.entry) }
    {
        match (self, tok) {
            (Chain::Or, Tok::Word(Word::Or, _)) => Some(Operator::Or),
            (Chain::And, Tok::Word(Word::And, _)) => Some(Operator::And),
            (Chain::Concat, Tok::Sign(SqlSign::Concat)) => Some(Operator::Concat),
            (Chain::Sum, Tok::Sign(SqlSign::Plus)) => Some(Operator::Add),
            (Chain::Sum, Tok::Sign(SqlSign::Minus)) => Some(Operator::Subtract),
            (Chain::Product, Tok::Sign(SqlSign::Star)) => Some(Operator::Multiply),
            (Chain::Product, Tok::Sign(SqlSign::Slash)) => Some(Operator::Divide),
            (Chain::Product, Tok::Sign(SqlSign::Percent)) => Some(Operator::Remainder),
            _ => None,
        }
    }
}
