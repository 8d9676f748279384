//! What ends a run with threads before its end.
ghost use Rattle.std.specs.Prelude.{◌≡◌, Some};
ghost use Rattle.session_seats.specs.FaultText.{engine_fault_text, thread_fault_text};

use session_machine::EngineFault;
use std::error::Error;
use std::fmt;

/// Why a run with threads came to no end.
#[derive(Clone, Copy, Debug, PartialEq, Eq)]
pub enum ThreadFault {
    /// No thread could be started for a session.
    ThreadRefused,
    /// The seats of this session, and of none below it, are not what the history says.
    SeatMismatch { session: u32 },
    /// The gate did not admit an event, as often as it was asked.
    Gate,
    /// The engine refused an event, or a run ended before its end had come.
    Engine(EngineFault),
    /// The engine is another than was handed in.
    OtherRun,
    /// Memory was refused.
    Memory,
}

fn engine_fault_name(fault: EngineFault) -> &'static str
    ensures { result.now ≡ engine_fault_text fault }
{
    match fault {
        EngineFault::Busy => "Busy",
        EngineFault::NotYourTurn => "NotYourTurn",
        EngineFault::StillBlocked => "StillBlocked",
        EngineFault::Idle => "Idle",
        EngineFault::Spent => "Spent",
        EngineFault::Memory => "Memory",
        EngineFault::NoSession => "NoSession",
        EngineFault::BlockNotAllowed => "BlockNotAllowed",
    }
}

impl fmt::Display for ThreadFault {
    ghost output = { λ fault. Some (thread_fault_text fault) };

    fn fmt<W: fmt::Write>(&self, f: &mut fmt::Formatter<W>) -> fmt::Result {
        let name = match self {
            ThreadFault::ThreadRefused => "ThreadRefused",
            ThreadFault::SeatMismatch { session } => {
                return write!(f, "SeatMismatch of session {session}");
            }
            ThreadFault::Gate => "Gate",
            ThreadFault::Engine(fault) => {
                return write!(f, "Engine: {}", engine_fault_name(*fault));
            }
            ThreadFault::OtherRun => "OtherRun",
            ThreadFault::Memory => "Memory",
        };
        f.write_str(name)
    }
}

impl Error for ThreadFault {}
