//! The files that are run, and how.

use iso_lexer::{Sink, Source};
use permutations::{RunFault, run_spec};
use session_machine::EngineFault;
use session_threads::{OpenGate, ThreadFault};
use std::alloc::Global;
use std::sync::Wait;
use std::thread::Threads;

/// A DELETE that waits for the rows which an UPDATE changed, and looks for no other row when it goes on.
pub const DELETE_WAITS: &str =
    "setup { CREATE TABLE website (hits int); INSERT INTO website VALUES (9), (10); }
teardown { DROP TABLE website; }
session s1
setup { BEGIN; }
step u { UPDATE website SET hits = hits + 1; }
step c { COMMIT; }
session s2
step d { DELETE FROM website WHERE hits = 10; }
step r { SELECT hits FROM website ORDER BY hits; }
permutation u d c r
";

/// No file has more permutations.
pub const MOST: u64 = 5_001;

/// Runs a file in given orders.
pub fn run<S: Source, W: Sink, N: Sink, R: Threads + Wait + Sync>(
    rt: &R,
    alloc: Global,
    input: &mut S,
    out: &mut W,
    notes: &mut N,
) -> Result<(), RunFault> {
    run_spec(rt, alloc, input, out, notes, MOST, &OpenGate)
}

fn wants_of_threads(fault: ThreadFault) -> bool {
    matches!(
        fault,
        ThreadFault::ThreadRefused
            | ThreadFault::Memory
            | ThreadFault::Engine(EngineFault::Memory | EngineFault::Spent)
    )
}

/// Whether memory was wanted, or a thread.
pub fn is_want(fault: &RunFault) -> bool {
    match fault {
        RunFault::Memory => true,
        RunFault::Threads(fault) => wants_of_threads(*fault),
        _ => false,
    }
}

/// Whether the run ended in such a want, which stands in its way once.
pub fn ends_in_want(answer: &Result<(), RunFault>) -> bool {
    match answer {
        Ok(()) => false,
        Err(fault) => is_want(fault),
    }
}
