//! Why an expression has no value.

ghost use Rattle.std.specs.Prelude.{◌≡◌, Some};
ghost use Rattle.sql_values.specs.declared.fault.ValueFault.TheVariants.{Memory};
ghost use Rattle.sql_values.specs.FaultText.{value_fault_text};

use iso_lexer::Ident;
use std::alloc::{AllocError, AllocFailed};
use std::error::Error;
use std::fmt;

/// Why an expression has no value. The names V1 to V5 are those of the faults that the program reports.
#[derive(Drop)]
pub enum ValueFault<'a> {
    /// V1
    DivisionByZero,
    /// V2: outside of 32 bits
    IntegerRange,
    /// V3: outside of 64 bits
    BigintRange,
    /// V4
    TypeMismatch,
    /// V5
    NoColumn(Ident<'a>),
    Memory,
}

/// Prints the number and the name, and no column.
impl fmt::Display for ValueFault<'_> {
    ghost output = { λ fault. Some (value_fault_text fault) };

    fn fmt<W: fmt::Write>(&self, f: &mut fmt::Formatter<W>) -> fmt::Result {
        f.write_str(match self {
            ValueFault::DivisionByZero => "V1 DivisionByZero",
            ValueFault::IntegerRange => "V2 IntegerRange",
            ValueFault::BigintRange => "V3 BigintRange",
            ValueFault::TypeMismatch => "V4 TypeMismatch",
            ValueFault::NoColumn(_) => "V5 NoColumn",
            ValueFault::Memory => "Memory",
        })
    }
}

/// As `Display`.
impl fmt::Debug for ValueFault<'_> {
    fn fmt<W: fmt::Write>(&self, f: &mut fmt::Formatter<W>) -> fmt::Result {
        fmt::Display::fmt(self, f)
    }
}

impl Error for ValueFault<'_> {}

impl From<AllocError> for ValueFault<'_> {
    ghost from_gives = { λ _ e. e ≡ Memory };

    fn from(_e: AllocError) -> Self {
        ValueFault::Memory
    }
}

impl<T: Drop> From<AllocFailed<T>> for ValueFault<'_> {
    ghost from_gives = { λ _ e. e ≡ Memory };

    fn from(_e: AllocFailed<T>) -> Self {
        ValueFault::Memory
    }
}
