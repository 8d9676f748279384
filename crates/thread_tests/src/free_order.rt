//! That a free run's text is that of the run which the gate saw, and of no other.

use crate::asking::{ROOM, holds};
use crate::gates::looks;
use iso_lexer::FromStd;
use permutations::free_spec;
use session_machine::{Event, Reply};
use session_threads::Gate;
use std::alloc::Global;
use std::sync::Wait;
use std::sync::atomic::{AtomicU64, Ordering};
use std::test::Fail;
use std::thread::{Threads, yield_now};

/// Lets so many sessions launch from the last to the first, and then step in that order too: each event behind the one before.
#[derive(Drop)]
struct Backwards {
    looks: u64,
    sessions: u64,
    launched: AtomicU64,
    stepped: AtomicU64,
}

impl Backwards {
    fn of(sessions: u64, looks: u64) -> Backwards {
        Backwards {
            looks,
            sessions,
            launched: AtomicU64::new(0),
            stepped: AtomicU64::new(0),
        }
    }

    /// How many sessions come before this one.
    fn before(&self, session: u32) -> u64 {
        self.sessions.saturating_sub(session as u64)
    }
}

impl Gate for Backwards {
    ghost lets = { λ gate event. Unit {0} };

    ghost refuses = { λ gate event. Unit {0} };

    ghost knows = { λ gate item. Unit {0} };

    fn tries(&self) -> u64 {
        self.looks
    }

    fn admits(&self, event: Event) -> bool {
        yield_now();
        let launched = self.launched.load(Ordering::SeqCst);
        match event {
            Event::Launch { session, .. } => launched == self.before(session),
            Event::Step { session } => {
                launched == self.sessions
                    && self.stepped.load(Ordering::SeqCst) == self.before(session)
            }
            Event::Leave { .. } => true,
        }
    }

    fn answered(&self, event: Event, _reply: &Reply<'_>) {
        match event {
            Event::Launch { .. } => self.launched.fetch_add(1, Ordering::SeqCst),
            Event::Step { .. } => self.stepped.fetch_add(1, Ordering::SeqCst),
            Event::Leave { .. } => 0,
        };
    }
}

const THREE: &str = "session s1 step a { SELECT 1; } session s2 step b { SELECT 2; }
session s3 step c { SELECT 3; }";

const THREE_BACKWARDS: &str = "Parsed test spec with 3 sessions

starting free run
step c: SELECT 3;
step b: SELECT 2;
step a: SELECT 1;
step c: statement 1
?column?
--------
       3
(1 row)

step b: statement 1
?column?
--------
       2
(1 row)

step a: statement 1
?column?
--------
       1
(1 row)

";

/// What a run of a spec prints under this gate.
fn told<R: Threads + Wait + Sync>(
    rt: &R,
    alloc: Global,
    spec: &str,
    gate: &Backwards,
) -> Result<Vec<u8>, Fail> {
    let mut text = Vec::with_capacity(alloc, ROOM)?;
    let mut notes = Vec::with_capacity(alloc, ROOM)?;
    let mut input = FromStd::new(spec.as_bytes());
    let mut out = FromStd::new(&mut text);
    let mut noted = FromStd::new(&mut notes);
    free_spec(rt, alloc, &mut input, &mut out, &mut noted, gate)?;
    Ok(text)
}

#[test]
fn a_free_run_is_told_as_it_came(rt: HostRuntime) -> Result<(), Fail> {
    let gate = Backwards::of(3, looks(&rt));
    let text = told(&rt, rt.alloc(), THREE, &gate)?;
    holds(
        &rt,
        text.as_slice() == THREE_BACKWARDS.as_bytes(),
        "its text",
    );
    Ok(())
}
