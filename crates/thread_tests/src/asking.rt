//! What the tests ask.

use permutations::RunFault;
use session_machine::EngineFault;
use session_threads::ThreadFault;
use std::process::Abort;

/// Fails the test where the claim is false; `of` says which case it is.
pub fn holds(rt: &impl Abort, claim: bool, of: &str) {
    assert!(rt; claim, "{of}");
}

/// More bytes than any run prints: a sink that has room for them wants no more memory.
pub const ROOM: usize = 100_000;

fn is_want(fault: ThreadFault) -> bool {
    matches!(
        fault,
        ThreadFault::ThreadRefused | ThreadFault::Memory | ThreadFault::Engine(EngineFault::Memory)
    )
}

/// The fault of a run, if it has one. With a want of memory or of a thread the test ends.
pub fn but_wants(fault: Option<ThreadFault>) -> Result<Option<ThreadFault>, ThreadFault> {
    match fault {
        Some(fault) if is_want(fault) => Err(fault),
        other => Ok(other),
    }
}

/// What a run of a file answers. With a want of memory or of a thread the test ends.
pub fn answer_but_wants(answer: Result<(), RunFault>) -> Result<Result<(), RunFault>, RunFault> {
    match answer {
        Err(RunFault::Memory) => Err(RunFault::Memory),
        Err(RunFault::Threads(ThreadFault::ThreadRefused)) => {
            Err(RunFault::Threads(ThreadFault::ThreadRefused))
        }
        other => Ok(other),
    }
}
