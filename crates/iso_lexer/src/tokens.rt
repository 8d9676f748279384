//! A text as tokens, of either language.

ghost use Rattle.std.specs.Prelude.{◌≡◌, ◌<◌, ◌≤◌, List, ℕ, length};
ghost use Rattle.iso_lexer.specs.Fronts.{piece_view};
ghost use Rattle.iso_lexer.specs.Inner.Rules.{Rules, between};
ghost use Rattle.iso_lexer.specs.Lexing.{Front, ReadsBy};

use crate::fault::{Fault, LexFault};
use crate::piece::Piece;
use crate::token::{At, Span};
use std::alloc::Global;

/// A token of one of the languages, over slices of a text.
pub(crate) trait Token<'a>: Copy {
    /// What it is, without where it lies in memory.
    ghost Plain: { Type 0 };

    ghost plain: { Self → Plain };

    /// The rules of its language: what stands at the front of a text.
    ghost rules: { List ℕ → Front Plain };

    fn front(text: &'a str) -> Piece<'a, Self>
        requires { 0 < length text.now }
        ensures { piece_view plain result ≡ rules text.now };
}

/// The token that stands in the text between two of its rests.
fn placed<T>(text: &str, rest: &str, after: &str, tok: T) -> At<T>
    requires begins { length rest.now ≤ length text.now }
    requires ends { length after.now ≤ length text.now }
    ensures { result ≡ between (length text.now) rest.now tok after.now }
{
    At {
        tok,
        span: Span {
            start: text.len() - rest.len(),
            end: text.len() - after.len(),
        },
    }
}

/// The tokens of a text, or its first fault.
pub(crate) fn tokens<'a, T: Token<'a>>(alloc: Global, text: &'a str) -> Result<Vec<At<T>>, LexFault>
    requires { Rules T.rules }
    ensures { ReadsBy T.plain T.rules text.now result }
{
    let mut tokens = Vec::new(alloc);
    let mut rest = text;
    while !rest.is_empty() {
        match T::front(rest) {
            Piece::Gap(after) => rest = after,
            Piece::Token(tok, after) => {
                tokens.push(placed(text, rest, after, tok))?;
                rest = after;
            }
            Piece::Fault(kind, n) => {
                let at = text.len() - rest.len() + n;
                return Err(LexFault::Fault(Fault { kind, at }));
            }
        }
    }
    Ok(tokens)
}
