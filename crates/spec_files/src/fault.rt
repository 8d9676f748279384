//! Why a file was not run to its end.

ghost use Rattle.std.specs.Prelude.{◌≡◌, ◌+◌, ◌<◌, ◌^◌, Some};
ghost use Rattle.sql_trees.specs.Faults.{fault_place};
ghost use Rattle.spec_files.specs.declared.fault.RunFault.TheVariants.{Write, Memory};
ghost use Rattle.spec_files.specs.Faults.{read_fault, spec_fault, report_fault, thread_fault};
ghost use Rattle.spec_files.specs.FaultText.{shift_of, block_fault_text, fault_text};
ghost use Rattle.spec_files.specs.Runs.{status_of};

use iso_lexer::{DeviceFault, Fault, ReadFault};
use report_text::ReportFault;
use session_machine::EngineFault;
use session_seats::ThreadFault;
use spec_parser::SpecFault;
use sql_trees::SqlFault;
use std::alloc::{AllocError, AllocFailed};
use std::error::Error;
use std::fmt;

/// The fault of a block, with its byte in the block, and the byte of the file at which the block begins.
#[derive(Clone, Copy, Debug)]
pub struct BlockFault {
    pub block: usize,
    pub fault: SqlFault,
}

fn place_of(fault: SqlFault) -> usize
    ensures { result ≡ fault_place fault }
{
    match fault {
        SqlFault::Memory => 0,
        SqlFault::Lex(fault) => fault.at,
        SqlFault::Syntax(at)
        | SqlFault::LeftOut(at)
        | SqlFault::TooDeep(at)
        | SqlFault::TooMany(at)
        | SqlFault::DdlInSession(at)
        | SqlFault::BadColumns(at) => at,
    }
}

/// How far a fault is moved that is told with its byte in the file.
fn shift_of(told: &BlockFault) -> usize
    ensures shift { result ≡ shift_of told.now }
    ensures fits { fault_place told.now.fault + result < 2 ^ 64 }
{
    let at = place_of(told.fault);
    if at <= usize::MAX - told.block {
        told.block
    } else {
        0
    }
}

impl BlockFault {
    /// The byte of the file at which the fault stands; that of the block where the file's has no number.
    pub fn place(&self) -> usize
        ensures { result ≡ shift_of self.now + fault_place self.now.fault }
    {
        shift_of(self) + place_of(self.fault)
    }
}

/// Prints the place in the file.
impl fmt::Display for BlockFault {
    ghost output = { λ told. Some (block_fault_text told) };

    fn fmt<W: fmt::Write>(&self, f: &mut fmt::Formatter<W>) -> fmt::Result {
        let fault = self.fault;
        let moved = fault.moved(shift_of(self));
        write!(f, "{moved}")
    }
}

impl Error for BlockFault {}

/// Why a file was not run to its end.
#[derive(Debug, Drop)]
pub enum RunFault {
    /// The input failed.
    Read,
    /// The output failed.
    Write,
    /// The file has no tokens.
    Lex(Fault),
    /// The file is no spec.
    Spec(SpecFault),
    /// A block is no SQL of the subset.
    Sql(BlockFault),
    /// A setup failed, with this text.
    SetupFailed { text: String },
    /// A setup waits.
    SetupWaits,
    /// A run's launches are not those of its permutation.
    ScheduleBroken,
    /// As many permutations as may run have run, and there is one more.
    TooManyPermutations,
    /// The threads of a run came to no end.
    Threads(ThreadFault),
    /// The file is no UTF-8 from this byte on.
    NotUtf8 { at: usize },
    /// Memory was refused.
    Memory,
}

/// Prints the number and the name, and the byte of the file where it has one.
impl fmt::Display for RunFault {
    ghost output = { λ fault. Some (fault_text fault) };

    fn fmt<W: fmt::Write>(&self, f: &mut fmt::Formatter<W>) -> fmt::Result {
        match self {
            RunFault::Read => write!(f, "R1 Read"),
            RunFault::Write => write!(f, "R2 Write"),
            RunFault::Lex(fault) => write!(f, "{fault}"),
            RunFault::Spec(fault) => write!(f, "{fault}"),
            RunFault::Sql(fault) => write!(f, "{fault}"),
            RunFault::SetupFailed { text } => write!(f, "R6 SetupFailed: {text}"),
            RunFault::SetupWaits => write!(f, "R7 SetupWaits"),
            RunFault::ScheduleBroken => write!(f, "R8 ScheduleBroken"),
            RunFault::TooManyPermutations => write!(f, "R9 TooManyPermutations"),
            RunFault::Threads(_) => write!(f, "R10 Threads"),
            RunFault::NotUtf8 { at } => write!(f, "R11 NotUtf8 at byte {at}"),
            RunFault::Memory => write!(f, "Memory"),
        }
    }
}

impl Error for RunFault {}

impl From<AllocError> for RunFault {
    ghost from_gives = { λ _ e. e ≡ Memory };

    fn from(_e: AllocError) -> RunFault {
        RunFault::Memory
    }
}

impl<T: Drop> From<AllocFailed<T>> for RunFault {
    ghost from_gives = { λ _ e. e ≡ Memory };

    fn from(_e: AllocFailed<T>) -> RunFault {
        RunFault::Memory
    }
}

impl From<ThreadFault> for RunFault {
    ghost from_gives = { λ f e. e ≡ thread_fault f };

    fn from(e: ThreadFault) -> RunFault {
        match e {
            ThreadFault::Memory | ThreadFault::Engine(EngineFault::Memory) => RunFault::Memory,
            other => RunFault::Threads(other),
        }
    }
}

impl From<ReadFault> for RunFault {
    ghost from_gives = { λ f e. e ≡ read_fault f };

    fn from(e: ReadFault) -> RunFault {
        match e {
            ReadFault::Memory => RunFault::Memory,
            ReadFault::Device => RunFault::Read,
        }
    }
}

impl From<DeviceFault> for RunFault {
    ghost from_gives = { λ _ e. e ≡ Write };

    fn from(_e: DeviceFault) -> RunFault {
        RunFault::Write
    }
}

impl From<SpecFault> for RunFault {
    ghost from_gives = { λ f e. e ≡ spec_fault f };

    fn from(e: SpecFault) -> RunFault {
        match e {
            SpecFault::Memory => RunFault::Memory,
            SpecFault::Lex(fault) => RunFault::Lex(fault),
            other => RunFault::Spec(other),
        }
    }
}

impl From<ReportFault> for RunFault {
    ghost from_gives = { λ f e. e ≡ report_fault f };

    fn from(e: ReportFault) -> RunFault {
        match e {
            ReportFault::Write => RunFault::Write,
            ReportFault::Memory => RunFault::Memory,
            ReportFault::SetupFailed { text } => RunFault::SetupFailed { text },
            ReportFault::SetupWaits => RunFault::SetupWaits,
        }
    }
}

impl RunFault {
    /// The exit status of a program that meets the fault: 1 where the file is refused or its run ends early, 3 where a
    /// device, memory, a thread or a schedule fails.
    pub fn status(&self) -> u8
        ensures { result ≡ status_of self.now }
    {
        match self {
            RunFault::Read
            | RunFault::Write
            | RunFault::ScheduleBroken
            | RunFault::Threads(_)
            | RunFault::Memory => 3,
            RunFault::Lex(_)
            | RunFault::Spec(_)
            | RunFault::Sql(_)
            | RunFault::SetupFailed { .. }
            | RunFault::SetupWaits
            | RunFault::TooManyPermutations
            | RunFault::NotUtf8 { .. } => 1,
        }
    }
}
