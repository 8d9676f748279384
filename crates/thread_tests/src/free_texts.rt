//! The texts of free runs.

use crate::asking::{ROOM, answer_but_wants, holds};
use crate::free_gates::Handshake;
use crate::gates::{Meeting, looks};
use iso_lexer::FromStd;
use permutations::{RunFault, free_spec};
use session_threads::{Gate, OpenGate};
use std::alloc::Global;
use std::process::Abort;
use std::sync::Wait;
use std::sync::atomic::Ordering;
use std::test::Fail;
use std::thread::Threads;

/// What a free run wrote and noted, and its answer.
#[derive(Drop)]
struct Wrote {
    text: Vec<u8>,
    notes: Vec<u8>,
    answer: Result<(), RunFault>,
}

fn free<G: Gate, R: Threads + Wait + Sync>(
    rt: &R,
    alloc: Global,
    spec: &str,
    gate: &G,
) -> Result<Wrote, Fail> {
    let mut input = FromStd::new(spec.as_bytes());
    let mut text = Vec::with_capacity(alloc, ROOM)?;
    let mut notes = Vec::with_capacity(alloc, ROOM)?;
    let mut out = FromStd::new(&mut text);
    let mut told = FromStd::new(&mut notes);
    let answer = free_spec(rt, alloc, &mut input, &mut out, &mut told, gate);
    Ok(Wrote {
        text,
        notes,
        answer: answer_but_wants(answer)?,
    })
}

/// A free run of the spec goes well, and says this.
fn says<R: Threads + Wait + Sync + Abort>(
    rt: &R,
    alloc: Global,
    spec: &str,
    text: &str,
    notes: &str,
) -> Result<(), Fail> {
    let wrote = free(rt, alloc, spec, &OpenGate)?;
    holds(rt, wrote.answer.is_ok(), spec);
    holds(rt, wrote.text.as_slice() == text.as_bytes(), text);
    holds(rt, wrote.notes.as_slice() == notes.as_bytes(), notes);
    Ok(())
}

#[test]
fn free_run_statements(rt: HostRuntime) -> Result<(), Fail> {
    says(
        &rt,
        rt.alloc(),
        "session s step a { SELECT 1; SELECT 2; }",
        "Parsed test spec with 1 sessions

starting free run
step a: SELECT 1; SELECT 2;
step a: statement 1
?column?
--------
       1
(1 row)

step a: statement 2
?column?
--------
       2
(1 row)

",
        "",
    )
}

#[test]
fn setups_and_teardowns_print_nothing(rt: HostRuntime) -> Result<(), Fail> {
    says(
        &rt,
        rt.alloc(),
        "setup { CREATE TABLE t (x int); } teardown { DROP TABLE u; }
session s setup { INSERT INTO t VALUES (1); } step a { SELECT 1/0; } step b { UPDATE t SET x = 2; } teardown { SELECT * FROM u; }
permutation b a",
        "Parsed test spec with 1 sessions

starting free run
step a: SELECT 1/0;
step a: statement 1
ERROR:  division by zero
step b: UPDATE t SET x = 2;
step b: statement 1
",
        "isolationtester: teardown of session s failed: relation \"u\" does not exist
isolationtester: teardown failed: table \"u\" does not exist
",
    )
}

const FIRST: &str = "Parsed test spec with 2 sessions

starting free run
";

#[test]
fn setups_that_fail_or_wait_are_answered(rt: HostRuntime) -> Result<(), Fail> {
    let fails = free(
        &rt,
        rt.alloc(),
        "setup { CREATE TABLE t (x int); INSERT INTO t VALUES (1); }
session s setup { SELECT 1/0; } step a { SELECT 1; } session u step b { SELECT 1; }",
        &OpenGate,
    )?;
    holds(
        &rt,
        matches!(fails.answer, Err(RunFault::SetupFailed { .. })),
        "fails",
    );
    holds(&rt, fails.text.as_slice() == FIRST.as_bytes(), "text");
    let waits = free(
        &rt,
        rt.alloc(),
        "setup { CREATE TABLE t (x int); INSERT INTO t VALUES (1); }
session s setup { BEGIN; UPDATE t SET x = 2; } step a { SELECT 1; }
session u setup { UPDATE t SET x = 3; } step b { SELECT 1; }",
        &OpenGate,
    )?;
    holds(
        &rt,
        matches!(waits.answer, Err(RunFault::SetupWaits)),
        "waits",
    );
    holds(&rt, waits.text.as_slice() == FIRST.as_bytes(), "text");
    Ok(())
}

#[test]
fn two_workers_of_a_file_are_at_the_gate_at_once(rt: HostRuntime) -> Result<(), Fail> {
    let wrote = free(
        &rt,
        rt.alloc(),
        "session s step a { SELECT 1; } session u step b { SELECT 1; }",
        &Handshake::new(looks(&rt)),
    )?;
    holds(&rt, wrote.answer.is_ok(), "ends");
    Ok(())
}

#[test]
fn all_workers_of_a_file_answer_at_once(rt: HostRuntime) -> Result<(), Fail> {
    let gate = Meeting::of(8, looks(&rt));
    let wrote = free(
        &rt,
        rt.alloc(),
        "session s1 step a1 { SELECT 1; } session s2 step a2 { SELECT 1; }
session s3 step a3 { SELECT 1; } session s4 step a4 { SELECT 1; }
session s5 step a5 { SELECT 1; } session s6 step a6 { SELECT 1; }
session s7 step a7 { SELECT 1; } session s8 step a8 { SELECT 1; }",
        &gate,
    )?;
    holds(&rt, wrote.answer.is_ok(), "ends");
    holds(&rt, gate.met.load(Ordering::SeqCst) == 8, "eight met");
    Ok(())
}
