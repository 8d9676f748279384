//! Why a text has no tokens.

ghost use Rattle.std.specs.Prelude.{◌≡◌, ℕ, List, Option, Some, codes};
ghost use Rattle.iso_lexer.specs.declared.fault.LexFault.TheVariants.{Memory, Fault as OfText};
ghost use Rattle.iso_lexer.specs.FaultText.{kind_text, fault_text};

use std::alloc::{AllocError, AllocFailed};
use std::error::Error;
use std::fmt;

/// What is wrong with a text.
#[derive(Clone, Copy, Debug, PartialEq, Eq)]
pub enum FaultKind {
    /// A block without its closing brace, at the opening one.
    UnterminatedBlock,
    /// A quoted name without its closing quote, at the opening one.
    UnterminatedName,
    /// A newline in a quoted name of a spec file, at that newline.
    NewlineInName,
    /// A byte that begins no token there.
    UnexpectedByte,
    /// A spec file of more than 1,048,576 bytes, at the first byte too many.
    FileTooLong,
    /// A string without its closing quote, at the opening one.
    UnterminatedString,
    /// A comment without its end, at its outermost opening.
    UnterminatedComment,
    /// A number over 9223372036854775807, at its first digit.
    NumberTooLarge,
}

/// The first fault of a text, and the byte at which it stands.
#[derive(Clone, Copy, Debug)]
pub struct Fault {
    pub kind: FaultKind,
    pub at: usize,
}

/// Prints the number and the name.
impl fmt::Display for FaultKind {
    ghost output = { λ kind. Some (kind_text kind) };

    fn fmt<W: fmt::Write>(&self, f: &mut fmt::Formatter<W>) -> fmt::Result {
        f.write_str(match self {
            FaultKind::UnterminatedBlock => "L1 UnterminatedBlock",
            FaultKind::UnterminatedName => "L2 UnterminatedName",
            FaultKind::NewlineInName => "L3 NewlineInName",
            FaultKind::UnexpectedByte => "L4 UnexpectedByte",
            FaultKind::FileTooLong => "L5 FileTooLong",
            FaultKind::UnterminatedString => "L6 UnterminatedString",
            FaultKind::UnterminatedComment => "L7 UnterminatedComment",
            FaultKind::NumberTooLarge => "L8 NumberTooLarge",
        })
    }
}

impl Error for FaultKind {}

impl fmt::Display for Fault {
    ghost output = { λ fault. Some (fault_text fault) };

    fn fmt<W: fmt::Write>(&self, f: &mut fmt::Formatter<W>) -> fmt::Result {
        write!(f, "{} at byte {}", self.kind, self.at)
    }
}

impl Error for Fault {}

/// Why a text was not read into tokens.
#[derive(Debug, Drop)]
pub enum LexFault {
    Memory,
    Fault(Fault),
}

impl fmt::Display for LexFault {
    ghost output = { λ why. elim why as (λ _. Option (List ℕ)) [ Memory ↦ Some (codes "Memory") | OfText fault ↦ Some (fault_text fault) ] };

    fn fmt<W: fmt::Write>(&self, f: &mut fmt::Formatter<W>) -> fmt::Result {
        match self {
            LexFault::Memory => f.write_str("Memory"),
            LexFault::Fault(fault) => fault.fmt(f),
        }
    }
}

impl Error for LexFault {}

impl From<AllocError> for LexFault {
    ghost from_gives = { λ _ e. e ≡ Memory };

    fn from(_e: AllocError) -> LexFault {
        LexFault::Memory
    }
}

impl<T: Drop> From<AllocFailed<T>> for LexFault {
    ghost from_gives = { λ _ e. e ≡ Memory };

    fn from(_e: AllocFailed<T>) -> LexFault {
        LexFault::Memory
    }
}
