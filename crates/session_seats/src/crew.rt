//! The threads of a run, each of which is joined.
ghost use Rattle.std.specs.Prelude.{◌≡◌, ◌⊎◌, ◌+◌, length, IfErr, IfOk};

use crate::fault::ThreadFault;
use core::thread::{Anything, Stack};
use std::alloc::Global;
use std::thread::{JoinHandle, Scope};

/// The stack of a session's thread, in bytes. The deepest expression takes a third of it; with the eight megabytes that a
/// thread has by default few stacks stay with the process, and most starts of a thread would map one anew.
pub const THREAD_STACK: usize = 1 << 20;

/// About as much memory as a run takes, in bytes.
const RUN_ROOM: usize = 32 << 10;

/// Asks for the memory of so many runs and lets it go, untouched, for a thread that begins. The part of the heap that a thread has
/// to itself then grows once; else the C library has it grow page by page, each time by a call of the kernel for which the threads of
/// a process wait for each other. Where memory is refused nothing changes.
pub fn make_room(alloc: Global, runs: usize) {
    let _ = Vec::<u8>::with_capacity(alloc, runs.saturating_mul(RUN_ROOM));
}

/// A thread that could not be started: why, and what it was to do.
#[derive(Drop)]
pub struct NotStarted<F> {
    pub fault: ThreadFault,
    pub work: F,
}

/// Starts a thread of the crew. Its place in the crew is made first, so that each that was started is joined.
pub fn start_thread<'s, 'e: 's, F: FnOnce() -> () + Send + Drop + 's>(
    scope: &Scope<'s, &'e ()>,
    crew: &mut Vec<JoinHandle<()>>,
    work: F,
) -> Result<(), NotStarted<F>>
    requires { F.pre work }
    ensures started { IfOk result (λ _. length crew.new.items ≡ length crew.old.items + 1) }
    ensures not_started { IfErr result (λ _. length crew.new.items ≡ length crew.old.items) }
    ensures fault { IfErr result (λ refused. (refused.fault ≡ ThreadFault.Memory) ⊎ (refused.fault ≡ ThreadFault.ThreadRefused)) }
    ensures work { IfErr result (λ refused. refused.work ≡ work) }
{
    if crew.try_reserve(1).is_err() {
        let fault = ThreadFault::Memory;
        return Err(NotStarted { fault, work });
    }
    let stack = Stack::new().stack_size(THREAD_STACK);
    match stack.spawn_scoped_with(scope, Anything, work) {
        Ok(thread) => {
            crew.push(thread.forget_promise()).unwrap();
            Ok(())
        }
        Err(refused) => {
            let fault = ThreadFault::ThreadRefused;
            Err(NotStarted {
                fault,
                work: refused.value,
            })
        }
    }
}
