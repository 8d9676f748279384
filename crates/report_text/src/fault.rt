//! How the report of a permutation ends.

ghost use Rattle.std.specs.Prelude.{◌≡◌, Some};
ghost use Rattle.report_text.specs.declared.fault.ReportFault.TheVariants.{Memory, Write};
ghost use Rattle.report_text.specs.Answers.{answer_of, report_fault_text};

use iso_lexer::DeviceFault;
use std::alloc::AllocError;
use std::error::Error;
use std::fmt;

/// How a permutation ended.
#[derive(Clone, Copy, PartialEq, Eq)]
pub enum Ended {
    /// All that its history has is reported.
    Whole,
    /// A step could not be launched, or was never reported.
    Invalid,
}

/// Why a permutation was not reported to its end.
#[derive(Debug, Drop)]
pub enum ReportFault {
    /// One of the two sinks failed.
    Write,
    Memory,
    /// A setup failed, with this text.
    SetupFailed { text: String },
    SetupWaits,
}

/// Prints the name, behind its number where it has one, as the program does.
impl fmt::Display for ReportFault {
    ghost output = { λ fault. Some (report_fault_text fault) };

    fn fmt<W: fmt::Write>(&self, f: &mut fmt::Formatter<W>) -> fmt::Result {
        match self {
            ReportFault::Write => write!(f, "R2 Write"),
            ReportFault::Memory => write!(f, "Memory"),
            ReportFault::SetupFailed { text } => write!(f, "R6 SetupFailed: {text}"),
            ReportFault::SetupWaits => write!(f, "R7 SetupWaits"),
        }
    }
}

impl Error for ReportFault {}

impl From<AllocError> for ReportFault {
    ghost from_gives = { λ _ e. e ≡ Memory };

    fn from(_e: AllocError) -> ReportFault {
        ReportFault::Memory
    }
}

impl From<DeviceFault> for ReportFault {
    ghost from_gives = { λ _ e. e ≡ Write };

    fn from(_e: DeviceFault) -> ReportFault {
        ReportFault::Write
    }
}

/// How a report ends, sinks and memory apart.
#[derive(Drop)]
pub enum Ending {
    Whole,
    Invalid,
    /// A setup failed, with this text.
    SetupFailed(String),
    SetupWaits,
}

/// What is answered of an ending.
pub fn answer_of(ending: Ending) -> Result<Ended, ReportFault>
    ensures { result ≡ answer_of ending }
{
    match ending {
        Ending::Whole => Ok(Ended::Whole),
        Ending::Invalid => Ok(Ended::Invalid),
        Ending::SetupFailed(text) => Err(ReportFault::SetupFailed { text }),
        Ending::SetupWaits => Err(ReportFault::SetupWaits),
    }
}
