//! Which fault a run of a file ends in, and what it has written by then.

use crate::asking::{ROOM, answer_but_wants, holds};
use crate::gates::{Open, Shut};
use iso_lexer::FromStd;
use permutations::{RunFault, free_spec, run_spec};
use session_machine::{Event, Reply};
use session_threads::{Gate, ThreadFault};
use std::alloc::Global;
use std::process::Abort;
use std::sync::Wait;
use std::sync::atomic::{AtomicU64, Ordering};
use std::test::Fail;
use std::thread::Threads;

/// Admits nothing in session 2.
#[derive(Drop)]
struct NoSecond;

impl Gate for NoSecond {
    ghost lets = { λ gate event. Unit {0} };

    ghost refuses = { λ gate event. Unit {0} };

    ghost knows = { λ gate item. Unit {0} };

    fn tries(&self) -> u64 {
        2
    }

    fn admits(&self, event: Event) -> bool {
        !matches!(event, Event::Launch { session: 2, .. })
    }

    fn answered(&self, _event: Event, _reply: &Reply<'_>) {}
}

/// What a run wrote, and its answer.
#[derive(Drop)]
pub struct Wrote {
    pub text: Vec<u8>,
    pub answer: Result<(), RunFault>,
}

/// Runs a file of at most ten permutations.
pub fn run<G: Gate, R: Threads + Wait + Sync>(
    rt: &R,
    alloc: Global,
    spec: &str,
    gate: &G,
) -> Result<Wrote, Fail> {
    let mut text = Vec::with_capacity(alloc, ROOM)?;
    let mut notes = Vec::with_capacity(alloc, ROOM)?;
    let mut input = FromStd::new(spec.as_bytes());
    let mut out = FromStd::new(&mut text);
    let mut told = FromStd::new(&mut notes);
    let answer = run_spec(rt, alloc, &mut input, &mut out, &mut told, 10, gate);
    Ok(Wrote {
        text,
        answer: answer_but_wants(answer)?,
    })
}

fn run_freely<G: Gate, R: Threads + Wait + Sync>(
    rt: &R,
    alloc: Global,
    spec: &str,
    gate: &G,
) -> Result<Wrote, Fail> {
    let mut text = Vec::with_capacity(alloc, ROOM)?;
    let mut notes = Vec::with_capacity(alloc, ROOM)?;
    let mut input = FromStd::new(spec.as_bytes());
    let mut out = FromStd::new(&mut text);
    let mut told = FromStd::new(&mut notes);
    let answer = free_spec(rt, alloc, &mut input, &mut out, &mut told, gate);
    Ok(Wrote {
        text,
        answer: answer_but_wants(answer)?,
    })
}

/// The gate's fault is told as such, behind this text.
pub fn ends_at_the_gate(rt: &impl Abort, run: &Wrote, text: &str) {
    let at_the_gate = matches!(run.answer, Err(RunFault::Threads(ThreadFault::Gate)));
    holds(rt, at_the_gate, "the gate's fault");
    holds(rt, run.text.as_slice() == text.as_bytes(), text);
}

const ONE_STEP: &str = "session s step a { SELECT 1; }";

const FIRST_LINE: &str = "Parsed test spec with 1 sessions\n";

#[test]
fn a_shut_gate_ends_a_run_of_a_file(rt: HostRuntime) -> Result<(), Fail> {
    let gate = Shut {
        asked: AtomicU64::new(0),
    };
    let directed = run(&rt, rt.alloc(), ONE_STEP, &gate)?;
    ends_at_the_gate(&rt, &directed, FIRST_LINE);
    holds(&rt, gate.asked.load(Ordering::SeqCst) == 3, "asked 3 times");
    let free = run_freely(&rt, rt.alloc(), ONE_STEP, &gate)?;
    ends_at_the_gate(&rt, &free, "");
    holds(&rt, gate.asked.load(Ordering::SeqCst) == 6, "asked 3 more");
    Ok(())
}

/// The second permutation and the third are shut out by the gate, of whose sessions the second is never admitted.
const SECOND_SHUT_OUT: &str = "session s step a { } session t step b { }
permutation a
permutation b
permutation a b";

#[test]
fn what_ran_before_a_fault_is_told(rt: HostRuntime) -> Result<(), Fail> {
    let ended = run(&rt, rt.alloc(), SECOND_SHUT_OUT, &NoSecond)?;
    let text = "Parsed test spec with 2 sessions\n\nstarting permutation: a\nstep a: \n";
    ends_at_the_gate(&rt, &ended, text);
    Ok(())
}

/// Two sessions of which each starts steps in turn, so that the run goes from thread to thread.
const TWO_IN_TURN: &str = "session s step a { } session t step b { }
permutation a b a b a";

#[test]
fn an_open_gate_is_neither_asked_nor_told(rt: HostRuntime) -> Result<(), Fail> {
    let gate = Open {
        heard: AtomicU64::new(0),
    };
    let directed = run(&rt, rt.alloc(), TWO_IN_TURN, &gate)?;
    holds(&rt, directed.answer.is_ok(), "the run ends");
    let text = "Parsed test spec with 2 sessions

starting permutation: a b a b a
step a: 
step b: 
step a: 
step b: 
step a: 
";
    holds(&rt, directed.text.as_slice() == text.as_bytes(), text);
    let free = run_freely(&rt, rt.alloc(), TWO_IN_TURN, &gate)?;
    holds(&rt, free.answer.is_ok(), "the free run ends");
    holds(&rt, gate.heard.load(Ordering::SeqCst) == 0, "heard nothing");
    Ok(())
}
