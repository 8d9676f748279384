//! The example at `run_spec`, and that the faults of a file go where the errors of a program go.

use crate::asking::holds;
use iso_lexer::FromStd;
use permutations::{BlockFault, RunFault, run_spec};
use session_threads::OpenGate;
use sql_trees::SqlFault;
use std::alloc::{AllocError, Global};
use std::sync::Wait;
use std::test::Fail;
use std::thread::Threads;

fn text_of<R: Threads + Wait + Sync>(rt: &R, alloc: Global, spec: &str) -> anyhow::Result<Vec<u8>> {
    let mut text = Vec::new(alloc);
    let mut notes = Vec::new(alloc);
    let mut input = FromStd::new(spec.as_bytes());
    let mut out = FromStd::new(&mut text);
    let mut told = FromStd::new(&mut notes);
    run_spec(rt, alloc, &mut input, &mut out, &mut told, 1_000, &OpenGate)?;
    Ok(text)
}

/// A spec of one session, and what its one permutation prints.
const HELLO: &str = "session s step hello { SELECT 'hello'; }";

const HELLO_TEXT: &str = "Parsed test spec with 1 sessions

starting permutation: hello
step hello: SELECT 'hello';
?column?
--------
hello   
(1 row)

";

/// Whether a fault may come of memory that was refused once: a list that can't grow fails as a device, and a thread's start takes memory.
fn may_be_want(alloc: Global, fault: anyhow::Error) -> Result<bool, AllocError> {
    let told = format!(in alloc; "{fault}")?;
    Ok(matches!(told.as_str(), "Memory" | "R2 Write" | "R10 Threads"))
}

/// The run is made again where memory was refused.
#[test]
fn a_file_is_run(rt: HostRuntime) -> Result<(), Fail> {
    let text = match text_of(&rt, rt.alloc(), HELLO) {
        Ok(text) => text,
        Err(fault) => {
            holds(&rt, may_be_want(rt.alloc(), fault)?, "a want of memory");
            text_of(&rt, rt.alloc(), HELLO)?
        }
    };
    holds(&rt, text.as_slice() == HELLO_TEXT.as_bytes(), HELLO_TEXT);
    Ok(())
}

fn refused_block() -> anyhow::Result<()> {
    Err(BlockFault {
        block: 17,
        fault: SqlFault::Syntax(2),
    })?;
    Ok(())
}

fn refused_file() -> anyhow::Result<()> {
    Err(RunFault::NotUtf8 { at: 5 })?;
    Ok(())
}

#[test]
fn faults_are_errors_of_a_program(rt: HostRuntime) -> Result<(), Fail> {
    for (refused, text) in [
        (refused_block(), "Q1 Syntax at byte 19"),
        (refused_file(), "R11 NotUtf8 at byte 5"),
    ] {
        let Err(fault) = refused else {
            return Err(Fail::new("no fault"));
        };
        let told = format!(in rt.alloc(); "{fault}")?;
        holds(&rt, told.as_str() == text, text);
    }
    Ok(())
}
