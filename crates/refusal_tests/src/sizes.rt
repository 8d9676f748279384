//! Files that list much of one thing: with ample memory each call over one comes to its end, however much it is. A call that wants memory or a thread is made again.
ghost use Rattle.std.specs.Prelude.{None, false};

use crate::asking::holds;
use crate::files::{MOST, is_want, run};
use crate::listing::{Call, Many, lines_of, text_of};
use iso_lexer::{DeviceFault, FromStd, Sink};
use permutations::{RunFault, free_spec, list_spec};
use plain_runs::print_alone;
use session_threads::OpenGate;
use std::alloc::Global;
use std::process::Abort;
use std::sync::Wait;
use std::thread::Threads;

/// Counts the lines that are put.
#[derive(Drop)]
struct Lines {
    count: usize,
}

impl Sink for Lines {
    ghost put_so_far = { λ _. None };

    ghost failed = { λ _. false };

    fn put(&mut self, bytes: &[u8]) -> Result<(), DeviceFault> {
        for byte in bytes {
            if *byte == b'\n' {
                self.count = self.count.wrapping_add(1);
            }
        }
        Ok(())
    }
}

/// Whether the call puts so many lines of the file, and no note.
fn puts<R: Threads + Wait + Sync>(
    rt: &R,
    alloc: Global,
    call: Call,
    file: &str,
    lines: usize,
) -> Result<bool, RunFault> {
    let mut input = FromStd::new(file.as_bytes());
    let mut out = Lines { count: 0 };
    let mut notes = Lines { count: 0 };
    match call {
        Call::Run => run(rt, alloc, &mut input, &mut out, &mut notes)?,
        Call::RunFreely => free_spec(rt, alloc, &mut input, &mut out, &mut notes, &OpenGate)?,
        Call::RunAlone => print_alone(alloc, file.as_bytes(), &mut out, &mut notes, MOST)?,
        Call::List => list_spec(alloc, &mut input, &mut out, MOST)?,
    }
    Ok(out.count == lines && notes.count == 0)
}

fn comes_to_its_end<R: Threads + Wait + Sync>(
    rt: &R,
    alloc: Global,
    call: Call,
    many: Many,
    count: u32,
) -> Result<bool, RunFault> {
    let file = text_of(alloc, many, count)?;
    puts(rt, alloc, call, file.as_str(), lines_of(call, many, count))
}

/// What a file has many of, how many, and what the case is called. A file has at most 64 sessions and 1,000 steps in all, a block 256 statements.
const FILES: [(Many, &'static [u32], &'static str); 6] = [
    (Many::Sessions, &[1, 5, 9, 41, 63, 64], "sessions"),
    (Many::Steps, &[1, 5, 9, 41, 101, 1_000], "steps"),
    (
        Many::Permutations,
        &[1, 5, 9, 41, 101, 1_001, 5_001],
        "permutations",
    ),
    (Many::Setups, &[0, 1, 5, 9, 41, 101, 1_001, 5_001], "setups"),
    (Many::Statements, &[0, 1, 5, 9, 41, 101, 256], "statements"),
    (Many::Rows, &[0, 1, 5, 9, 41, 101, 1_001, 5_001], "rows"),
];

/// Whether the call comes to its end. A want of memory or of a thread stands in its way once.
fn ends_at_last<R: Threads + Wait + Sync>(
    rt: &R,
    alloc: Global,
    call: Call,
    many: Many,
    count: u32,
) -> bool {
    match comes_to_its_end(rt, alloc, call, many, count) {
        Ok(is_so) => is_so,
        Err(fault) => {
            is_want(&fault) && matches!(comes_to_its_end(rt, alloc, call, many, count), Ok(true))
        }
    }
}

fn ends_at_each_size<R: Threads + Wait + Sync + Abort>(rt: &R, alloc: Global, call: Call) {
    for (many, counts, name) in FILES {
        for count in counts {
            holds(rt, ends_at_last(rt, alloc, call, many, *count), name);
        }
    }
}

#[test]
fn files_of_each_size_run(rt: HostRuntime) {
    ends_at_each_size(&rt, rt.alloc(), Call::Run);
}

#[test]
fn files_of_each_size_run_freely(rt: HostRuntime) {
    ends_at_each_size(&rt, rt.alloc(), Call::RunFreely);
}

#[test]
fn files_of_each_size_run_alone(rt: HostRuntime) {
    ends_at_each_size(&rt, rt.alloc(), Call::RunAlone);
}

#[test]
fn files_of_each_size_are_listed(rt: HostRuntime) {
    ends_at_each_size(&rt, rt.alloc(), Call::List);
}

/// A copy is made of each permutation's entries before it runs.
#[test]
fn files_of_each_few_steps_run(rt: HostRuntime) {
    for count in 1..65 {
        holds(
            &rt,
            ends_at_last(&rt, rt.alloc(), Call::Run, Many::Steps, count),
            "steps",
        );
    }
}
