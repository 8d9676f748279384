//! Why a file is no spec.

ghost use Rattle.std.specs.Prelude.{◌≡◌, Some};
ghost use Rattle.spec_parser.specs.Faults.{lexer_fault, halted};
ghost use Rattle.spec_parser.specs.FaultText.{what_text, spec_fault_text};
ghost use Rattle.spec_parser.specs.declared.fault.Halt.TheVariants.{Memory};
ghost use Rattle.spec_parser.specs.declared.fault.SpecFault.TheVariants.{Memory as NoMemory};

use iso_lexer::{Fault, LexFault};
use std::alloc::{AllocError, AllocFailed};
use std::error::Error;
use std::fmt;

/// What would have gone on with the file.
#[derive(Clone, Copy, Debug, PartialEq, Eq)]
pub enum What {
    Session,
    Step,
    Name,
    Block,
    Marker,
    CommaOrClose,
    Item,
}

/// Why a file is no spec; `at` is a byte of the file.
#[derive(Debug, Drop)]
pub enum SpecFault {
    Memory,
    Lex(Fault),
    Expected { what: What, at: usize },
    DuplicateStep { at: usize },
    UndefinedStep { at: usize },
    UndefinedMarker { at: usize },
    NoticesLeftOut { at: usize },
    Limit { at: usize },
}

impl fmt::Display for What {
    ghost output = { λ what. Some (what_text what) };

    fn fmt<W: fmt::Write>(&self, f: &mut fmt::Formatter<W>) -> fmt::Result {
        f.write_str(match self {
            What::Session => "Session",
            What::Step => "Step",
            What::Name => "Name",
            What::Block => "Block",
            What::Marker => "Marker",
            What::CommaOrClose => "CommaOrClose",
            What::Item => "Item",
        })
    }
}

/// Prints the number, the name and the byte.
impl fmt::Display for SpecFault {
    ghost output = { λ fault. Some (spec_fault_text fault) };

    fn fmt<W: fmt::Write>(&self, f: &mut fmt::Formatter<W>) -> fmt::Result {
        let (name, at) = match self {
            SpecFault::Memory => return f.write_str("Memory"),
            SpecFault::Lex(fault) => return fault.fmt(f),
            SpecFault::Expected { what, at } => {
                return write!(f, "S1 Expected {what} at byte {at}");
            }
            SpecFault::DuplicateStep { at } => ("S2 DuplicateStep", at),
            SpecFault::UndefinedStep { at } => ("S3 UndefinedStep", at),
            SpecFault::UndefinedMarker { at } => ("S4 UndefinedMarker", at),
            SpecFault::NoticesLeftOut { at } => ("S5 NoticesLeftOut", at),
            SpecFault::Limit { at } => ("S6 Limit", at),
        };
        write!(f, "{name} at byte {at}")
    }
}

impl Error for SpecFault {}

/// Why reading stops before a token.
#[derive(Clone, Copy)]
pub enum Stop {
    Expected(What),
    NoticesLeftOut,
    OverLimit,
}

/// Why reading the tokens ended early: want of memory, or a stop at a byte of the file.
#[derive(Drop)]
pub enum Halt {
    Memory,
    At(Stop, usize),
}

impl From<AllocError> for Halt {
    ghost from_gives = { λ _ e. e ≡ Memory };

    fn from(_e: AllocError) -> Halt {
        Halt::Memory
    }
}

impl<T: Drop> From<AllocFailed<T>> for Halt {
    ghost from_gives = { λ _ e. e ≡ Memory };

    fn from(_e: AllocFailed<T>) -> Halt {
        Halt::Memory
    }
}

impl From<LexFault> for SpecFault {
    ghost from_gives = { λ f e. e ≡ lexer_fault f };

    fn from(e: LexFault) -> SpecFault {
        match e {
            LexFault::Memory => SpecFault::Memory,
            LexFault::Fault(fault) => SpecFault::Lex(fault),
        }
    }
}

impl From<Halt> for SpecFault {
    ghost from_gives = { λ h e. e ≡ halted h };

    fn from(e: Halt) -> SpecFault {
        match e {
            Halt::Memory => SpecFault::Memory,
            Halt::At(Stop::Expected(what), at) => SpecFault::Expected { what, at },
            Halt::At(Stop::NoticesLeftOut, at) => SpecFault::NoticesLeftOut { at },
            Halt::At(Stop::OverLimit, at) => SpecFault::Limit { at },
        }
    }
}

impl From<AllocError> for SpecFault {
    ghost from_gives = { λ _ e. e ≡ NoMemory };

    fn from(_e: AllocError) -> SpecFault {
        SpecFault::Memory
    }
}

impl<T: Drop> From<AllocFailed<T>> for SpecFault {
    ghost from_gives = { λ _ e. e ≡ NoMemory };

    fn from(_e: AllocFailed<T>) -> SpecFault {
        SpecFault::Memory
    }
}
