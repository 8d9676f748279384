//! Spec files as tokens.

ghost use Rattle.std.specs.Prelude.{◌≡◌, ◌≤◌, List, ℕ, Result, Ok, length};
ghost use Rattle.std.specs.List.{AllByRecursion};
ghost use Rattle.iso_lexer.specs.SpecSpelling.{LiesAt};
ghost use Rattle.iso_lexer.specs.SpecTokens.{SpecToken};
ghost use Rattle.iso_lexer.specs.SpecText.{LexAnswers, Lexes};
ghost use Rattle.iso_lexer.specs.declared.limits.TheConstants.{LONGEST_FILE};
ghost use Rattle.iso_lexer.specs.declared.fault.Fault.{Fault};
ghost use Rattle.iso_lexer.specs.declared.token.At.{At};

use crate::fault::{Fault, FaultKind, LexFault};
use crate::front::front;
use crate::limits::LONGEST_FILE;
use crate::piece::Piece;
use crate::spec_token::SpecTok;
use crate::token::At;
use crate::tokens::{Token, tokens};
use std::alloc::Global;

impl<'a> Token<'a> for SpecTok<'a> {
    ghost use Rattle.iso_lexer.specs.SpecTokens.{SpecToken as PlainToken, token_view};
    ghost use Rattle.iso_lexer.specs.SpecText.{spec_front as rules_of_files};

    ghost Plain = { PlainToken };

    ghost plain = { token_view };

    ghost rules = { rules_of_files };

    fn front(text: &'a str) -> Piece<'a, SpecTok<'a>> {
        front(text)
    }
}

/// The tokens of a spec file, or its first fault.
pub fn spec_tokens<'a>(alloc: Global, text: &'a str) -> Result<Vec<At<SpecTok<'a>>>, LexFault>
    ensures { LexAnswers text.now result }
{
    if text.len() > LONGEST_FILE {
        return Err(LexFault::Fault(Fault {
            kind: FaultKind::FileTooLong,
            at: LONGEST_FILE,
        }));
    }
    tokens(alloc, text)
}

/// A file has one list of tokens, or one first fault.
pub fn one_reading()
    ensures { (text : List ℕ) (x y : Result (List (At SpecToken)) Fault) → Lexes text x → Lexes text y → x ≡ y }
{}

/// Each token is the slice of the text at its span.
pub fn tokens_are_slices()
    ensures { (text : List ℕ) (ts : List (At SpecToken)) → Lexes text (Ok ts) → AllByRecursion (LiesAt text) ts }
{}

/// A file that has tokens is no longer than the longest, and has no more tokens than bytes.
pub fn tokens_are_few()
    ensures { (text : List ℕ) (ts : List (At SpecToken)) → Lexes text (Ok ts) → (length text ≤ LONGEST_FILE) × (length ts ≤ length text) }
{}
