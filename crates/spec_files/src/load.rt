//! Whether other programs use all processors.

use session_seats::start_thread;
use std::alloc::Global;
use std::hint::spin_loop;
use std::sync::Wait;
use std::sync::atomic::{AtomicBool, Ordering};
use std::thread;
use std::thread::Threads;

/// How often the calling thread looks whether another has begun, which takes some 150 to 1,000 microseconds. A thread begins within 20
/// to 110 where a processor is free, and after milliseconds where other programs use them all.
const LOOKS: usize = 20_000;

/// Whether a thread that was just started, and that sets the flag when it begins, hasn't begun after a while.
fn begins_late(begun: &AtomicBool) -> bool {
    for _ in 0..LOOKS {
        if begun.load(Ordering::SeqCst) {
            return false;
        }
        spin_loop();
    }
    true
}

/// Whether a thread that is started waits for a processor, as where other programs use them all; false where none can be started.
/// No clause says when: nothing that is printed depends on it.
pub fn is_busy<R: Threads + Wait>(rt: &R, alloc: Global) -> bool {
    let begun = AtomicBool::new(false);
    let begun = &begun;
    thread::scope(thread::scope_env(), rt, move |scope| -> bool {
        let mut started = Vec::new(alloc);
        let work = move || begun.store(true, Ordering::SeqCst);
        match start_thread(scope, &mut started, work) {
            Ok(()) => begins_late(begun),
            Err(_) => false,
        }
    })
}
