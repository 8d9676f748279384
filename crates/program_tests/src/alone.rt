//! What threads print, beside what the loop on one thread prints; and how that ends where the engine refuses what is next.

use crate::asking::holds;
use iso_lexer::FromStd;
use permutations::{RunFault, read_file, run_spec};
use plain_runs::{print_alone, run_alone};
use session_machine::EngineFault;
use session_threads::{OpenGate, ThreadFault};
use std::alloc::{AllocError, Global};
use std::process::Abort;
use std::sync::Wait;
use std::test::Fail;
use std::thread::Threads;
use test_devices::Takes;

/// Two sessions that wait for each other's rows in some of their interleavings, and close a cycle in others.
const DEADLOCKS: &str =
    "setup { CREATE TABLE t (k int PRIMARY KEY, v int); INSERT INTO t VALUES (1, 0), (2, 0); }
teardown { DROP TABLE t; }
session s1 setup { BEGIN; }
step a1 { UPDATE t SET v = 1 WHERE k = 1; } step a2 { UPDATE t SET v = 1 WHERE k = 2; } step a3 { COMMIT; }
session s2 setup { BEGIN; }
step b1 { UPDATE t SET v = 2 WHERE k = 2; } step b2 { UPDATE t SET v = 2 WHERE k = 1; } step b3 { COMMIT; }
session s3 step c { SELECT k, v FROM t ORDER BY k; }";

/// A key that one session waits for, a marker, a session that leaves its writes behind, and a teardown that fails.
const KEYS: &str = "setup { CREATE TABLE t (k int PRIMARY KEY); }
teardown { DROP TABLE t; SELECT 1 / 0; }
session s1 step a1 { BEGIN; INSERT INTO t VALUES (1); } step a2 { ROLLBACK; }
session s2 step b { INSERT INTO t VALUES (1), (2); } teardown { DELETE FROM t; }
permutation a1 b a2
permutation a1 b (a2) a2
permutation b a1 a2";

/// More permutations than either file has.
const MOST: u64 = 200;

/// More bytes than either file prints: a sink that has room for them wants no more memory.
const ROOM: usize = 1_000_000;

/// What a run prints and notes.
#[derive(Drop)]
struct Printed {
    text: Vec<u8>,
    notes: Vec<u8>,
}

fn by_threads<R: Threads + Wait + Sync>(
    rt: &R,
    alloc: Global,
    spec: &str,
) -> Result<Printed, Fail> {
    let mut text = Vec::with_capacity(alloc, ROOM)?;
    let mut notes = Vec::with_capacity(alloc, ROOM)?;
    let mut input = FromStd::new(spec.as_bytes());
    let mut out = FromStd::new(&mut text);
    let mut told = FromStd::new(&mut notes);
    run_spec(rt, alloc, &mut input, &mut out, &mut told, MOST, &OpenGate)?;
    Ok(Printed { text, notes })
}

/// The reports of all permutations, without the line that comes before them.
fn by_one_thread(alloc: Global, spec: &str) -> Result<Printed, Fail> {
    let mut text = Vec::with_capacity(alloc, ROOM)?;
    let mut notes = Vec::with_capacity(alloc, ROOM)?;
    let mut out = FromStd::new(&mut text);
    let mut told = FromStd::new(&mut notes);
    print_alone(alloc, spec.as_bytes(), &mut out, &mut told, MOST)?;
    Ok(Printed { text, notes })
}

/// The line that a run prints before its reports.
const FIRST_LINE: &[u8] = b"Parsed test spec with ";

fn prints_the_same<R: Threads + Wait + Sync + Abort>(
    rt: &R,
    alloc: Global,
    spec: &str,
) -> Result<(), Fail> {
    let threads = by_threads(rt, alloc, spec)?;
    let alone = by_one_thread(alloc, spec)?;
    let text = threads.text.as_slice();
    holds(rt, text.starts_with(FIRST_LINE), "the first line");
    holds(
        rt,
        !alone.text.is_empty() && text.ends_with(alone.text.as_slice()),
        "the reports",
    );
    holds(
        rt,
        threads.text.len() < alone.text.len() + 40,
        "nothing else",
    );
    holds(
        rt,
        threads.notes.as_slice() == alone.notes.as_slice(),
        "the notes",
    );
    Ok(())
}

#[test]
fn threads_print_what_one_thread_prints(rt: HostRuntime) -> Result<(), Fail> {
    for spec in [DEADLOCKS, KEYS] {
        prints_the_same(&rt, rt.alloc(), spec)?;
    }
    Ok(())
}

/// What the engine refuses in the run of the file's first permutation, if it has one, where none of its blocks is there.
fn refused_without_blocks(alloc: Global, spec: &str) -> Result<Option<EngineFault>, Fail> {
    let file = read_file(alloc, spec.as_bytes())?;
    let Some(entries) = file.spec.perms.first() else {
        return Ok(None);
    };
    match run_alone(alloc, &file.spec, &[], entries) {
        Ok(_) => Ok(None),
        Err(RunFault::Threads(ThreadFault::Engine(fault))) => Ok(Some(fault)),
        Err(fault) => Err(fault.into()),
    }
}

#[test]
fn a_refusal_of_the_engine_is_told_as_it_is(rt: HostRuntime) -> Result<(), Fail> {
    for spec in [KEYS, "session s step a { } permutation a"] {
        let fault = refused_without_blocks(rt.alloc(), spec)?;
        holds(&rt, fault == Some(EngineFault::BlockNotAllowed), spec);
    }
    Ok(())
}

/// A file, how many of its permutations may run, how many puts its output takes, and the fault in which its run on one thread ends.
type Ending = (&'static str, u64, usize, &'static str);

const ONE_STEP: &str = "session s step a { }";

const WAITS_IN_A_SETUP: &str =
    "setup { CREATE TABLE t (x int); INSERT INTO t VALUES (1); } session s setup { BEGIN; UPDATE t SET x = 2; } step a { }
session u setup { UPDATE t SET x = 3; } step b { }";

const LEFT_OUT: &str = "session s step a { TRUNCATE t; }";

const ENDINGS: [Ending; 4] = [
    (ONE_STEP, 0, 9, "R9 TooManyPermutations"),
    (ONE_STEP, 9, 0, "R2 Write"),
    (WAITS_IN_A_SETUP, 9, 9, "R7 SetupWaits"),
    (LEFT_OUT, 9, 9, "Q2 LeftOut at byte 19"),
];

/// The fault in which the run on one thread ends, as it is told; nothing where it ends well.
fn told_of_the_end(alloc: Global, ending: &Ending) -> Result<String, AllocError> {
    let (spec, most, puts, _) = *ending;
    let mut out = Takes::new(puts);
    let mut notes = Takes::new(puts);
    match print_alone(alloc, spec.as_bytes(), &mut out, &mut notes, most) {
        Ok(()) => Ok(String::new(alloc)),
        Err(RunFault::Memory) => Err(AllocError),
        Err(fault) => format!(in alloc; "{fault}"),
    }
}

#[test]
fn one_thread_ends_in_the_fault_of_its_file(rt: HostRuntime) -> Result<(), AllocError> {
    for ending in ENDINGS {
        let told = told_of_the_end(rt.alloc(), &ending)?;
        holds(&rt, told.as_str() == ending.3, ending.3);
    }
    Ok(())
}
