//! Why a table was not written.

ghost use Rattle.std.specs.Prelude.{◌≡◌, Some};
ghost use Rattle.result_tables.specs.declared.fault.TableFault.TheVariants.{Memory, Write};
ghost use Rattle.result_tables.specs.Faults.{table_fault_text};

use iso_lexer::DeviceFault;
use std::alloc::{AllocError, AllocFailed};
use std::error::Error;
use std::fmt;

/// Why a table was not written.

#[derive(Debug, Drop)]
pub enum TableFault {
    Memory,
    /// P1: the sink failed.
    Write,
}

/// Prints the name, behind its number where it has one.
impl fmt::Display for TableFault {
    ghost output = { λ fault. Some (table_fault_text fault) };

    fn fmt<W: fmt::Write>(&self, f: &mut fmt::Formatter<W>) -> fmt::Result {
        match self {
            TableFault::Memory => write!(f, "Memory"),
            TableFault::Write => write!(f, "P1 Write"),
        }
    }
}

impl Error for TableFault {}

impl From<AllocError> for TableFault {
    ghost from_gives = { λ _ e. e ≡ Memory };

    fn from(_e: AllocError) -> TableFault {
        TableFault::Memory
    }
}

impl<T: Drop> From<AllocFailed<T>> for TableFault {
    ghost from_gives = { λ _ e. e ≡ Memory };

    fn from(_e: AllocFailed<T>) -> TableFault {
        TableFault::Memory
    }
}

impl From<DeviceFault> for TableFault {
    ghost from_gives = { λ _ e. e ≡ Write };

    fn from(_e: DeviceFault) -> TableFault {
        TableFault::Write
    }
}
