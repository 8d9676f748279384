//! How many permutations of a file run, and how many at a time, by what a gate sees.

use crate::asking::{ROOM, answer_but_wants, holds};
use crate::gates::{comes, looks};
use crate::run_faults::run;
use iso_lexer::FromStd;
use permutations::run_spec;
use session_machine::{Event, Reply};
use session_threads::Gate;
use std::alloc::Global;
use std::process::Abort;
use std::sync::Wait;
use std::sync::atomic::{AtomicU64, Ordering};
use std::test::Fail;
use std::thread::Threads;

/// Admits everything, and counts the launches.
#[derive(Drop)]
struct Counting {
    launches: AtomicU64,
}

impl Gate for Counting {
    ghost lets = { λ gate event. Unit {0} };

    ghost refuses = { λ gate event. Unit {0} };

    ghost knows = { λ gate item. Unit {0} };

    fn tries(&self) -> u64 {
        1
    }

    fn admits(&self, _event: Event) -> bool {
        true
    }

    fn answered(&self, event: Event, _reply: &Reply<'_>) {
        if let Event::Launch { .. } = event {
            self.launches.fetch_add(1, Ordering::SeqCst);
        }
    }
}

/// Two sessions of two steps each: six permutations, each of which launches four blocks.
const SIX: &str = "session s step a1 { } step a2 { } session t step b1 { } step b2 { }";

/// How many launches a run makes that stops after so many permutations.
fn launches_of<R: Threads + Wait + Sync>(
    rt: &R,
    alloc: Global,
    spec: &str,
    limit: u64,
) -> Result<u64, Fail> {
    let gate = Counting {
        launches: AtomicU64::new(0),
    };
    let mut text = Vec::with_capacity(alloc, ROOM)?;
    let mut notes = Vec::with_capacity(alloc, ROOM)?;
    let mut input = FromStd::new(spec.as_bytes());
    let mut out = FromStd::new(&mut text);
    let mut told = FromStd::new(&mut notes);
    let answer = run_spec(rt, alloc, &mut input, &mut out, &mut told, limit, &gate);
    let _ = answer_but_wants(answer)?;
    Ok(gate.launches.load(Ordering::SeqCst))
}

#[test]
fn no_more_permutations_run_than_the_limit(rt: HostRuntime) -> Result<(), Fail> {
    for (limit, launches) in [(0, 0), (1, 4), (2, 8), (5, 20), (6, 24), (7, 24)] {
        let seen = launches_of(&rt, rt.alloc(), SIX, limit)?;
        holds(&rt, seen == launches, "as many as the limit leaves");
    }
    Ok(())
}

/// Lets a permutation's launch go on once that of the other is asked for too.
#[derive(Drop)]
struct Pair {
    looks: u64,
    asked: AtomicU64,
    met: AtomicU64,
}

impl Gate for Pair {
    ghost lets = { λ gate event. Unit {0} };

    ghost refuses = { λ gate event. Unit {0} };

    ghost knows = { λ gate item. Unit {0} };

    fn tries(&self) -> u64 {
        1
    }

    fn admits(&self, event: Event) -> bool {
        if let Event::Launch { .. } = event {
            self.asked.fetch_add(1, Ordering::SeqCst);
            if comes(&self.asked, 2, self.looks) {
                self.met.fetch_add(1, Ordering::SeqCst);
            }
        }
        true
    }

    fn answered(&self, _event: Event, _reply: &Reply<'_>) {}
}

/// Two permutations of one launch each.
const TWO: &str = "session s step a { } session t step b { } permutation a permutation b";

/// Runs both. Says whether each was there while the other was.
fn meet<R: Threads + Wait + Sync + Abort>(rt: &R, alloc: Global, looks: u64) -> Result<bool, Fail> {
    let gate = Pair {
        looks,
        asked: AtomicU64::new(0),
        met: AtomicU64::new(0),
    };
    let ran = run(rt, alloc, TWO, &gate)?;
    holds(rt, ran.answer.is_ok(), "the run ends");
    Ok(gate.met.load(Ordering::SeqCst) == 2)
}

/// Where a thread is refused to one of them, they run one after the other.
#[test]
fn permutations_run_side_by_side(rt: HostRuntime) -> Result<(), Fail> {
    let looks = looks(&rt);
    let met = meet(&rt, rt.alloc(), looks)? || meet(&rt, rt.alloc(), looks)?;
    holds(&rt, met, "both were there");
    Ok(())
}
