//! Where there is memory, each call that may want some answers, however much it lists: events, rows, blocks and sessions.

use crate::trial::{Engine, Line, at_last, block, blocks, engine_of, holds, is_legal, run};
use session_core::{EngineFault, Mode, Outcome, Reply};
use sql_parser::{Block, Role};
use std::alloc::{AllocError, Global};
use std::process::Abort;

const SIZES: [u32; 8] = [0, 1, 5, 9, 41, 101, 1_001, 5_001];

/// An engine has so many sessions beside the control session.
const SESSIONS: [u32; 6] = [1, 5, 9, 41, 63, 64];

/// A call that isn't answered wasn't given memory: with enough of it the test fails.
fn answered<T: Drop>(answer: Result<T, EngineFault>) -> Result<T, AllocError> {
    match answer {
        Ok(value) => Ok(value),
        Err(_) => Err(AllocError),
    }
}

const STATEMENT: [Line; 1] = [(1, "SELECT 1", "")];

/// The session is given its block, runs it, and leaves, in turn.
fn one_event(engine: &mut Engine<'_>, place: usize) -> Result<(), AllocError> {
    let _reply = answered(match place % 3 {
        0 => engine.launch(1, 0),
        1 => engine.step(1),
        _ => engine.leave(1),
    })?;
    Ok(())
}

fn goes_by_events(rt: &impl Abort, alloc: Global, count: usize) -> Result<(), AllocError> {
    let blocks = blocks(alloc, &STATEMENT)?;
    let mut engine = engine_of(alloc, &blocks, 1, Mode::Directed)?;
    for k in 0..count {
        one_event(&mut engine, k)?;
    }
    holds(rt, engine.history().len() == count, "events");
    holds(rt, is_legal(alloc, &engine, &blocks)?, "a legal history");
    Ok(())
}

#[test]
fn any_number_of_events(rt: HostRuntime) {
    for count in SIZES {
        at_last!(&rt, goes_by_events(&rt, rt.alloc(), count as usize));
    }
}

const ROWS: [Line; 5] = [
    (0, "CREATE TABLE t (x int)", ""),
    (1, "INSERT INTO t VALUES (1)", ""),
    (1, "SELECT * FROM t ORDER BY x", ""),
    (1, "UPDATE t SET x = x + 1", ""),
    (1, "DELETE FROM t", ""),
];

/// What session 1 is answered, which is given this block of one statement.
fn answer_to(engine: &mut Engine<'_>, block: u32) -> Result<Outcome<'static>, EngineFault> {
    engine.launch(1, block)?;
    let Reply { outcome, .. } = engine.step(1)?;
    Ok(outcome)
}

/// Whether that is that the statement is done, or a result of so many rows.
fn is_done(outcome: &Outcome<'_>, count: usize) -> bool {
    match outcome {
        Outcome::Rows(set) => set.rows().len() == count,
        Outcome::Done => true,
        _ => false,
    }
}

/// Whether the session sees so many rows.
fn shows(engine: &Engine<'_>, count: usize) -> Result<bool, AllocError> {
    match answered(engine.visible(1, "t"))? {
        Some(rows) => Ok(rows.len() == count),
        None => Ok(false),
    }
}

/// A table has so many rows, which are seen, and a statement goes over all of them.
fn over_rows(
    rt: &impl Abort,
    alloc: Global,
    count: usize,
    statement: u32,
) -> Result<(), AllocError> {
    let blocks = blocks(alloc, &ROWS)?;
    let mut engine = engine_of(alloc, &blocks, 1, Mode::Directed)?;
    answered(run(&mut engine, 0, 0))?;
    for _ in 0..count {
        answered(run(&mut engine, 1, 1))?;
    }
    holds(rt, shows(&engine, count)?, "rows that are seen");
    let outcome = answered(answer_to(&mut engine, statement))?;
    holds(rt, is_done(&outcome, count), "rows that are gone over");
    Ok(())
}

fn over_any_rows(rt: &impl Abort, alloc: Global, statement: u32) {
    for count in SIZES {
        at_last!(rt, over_rows(rt, alloc, count as usize, statement));
    }
}

#[test]
fn any_number_of_rows_selected(rt: HostRuntime) {
    over_any_rows(&rt, rt.alloc(), 2);
}

#[test]
fn any_number_of_rows_updated(rt: HostRuntime) {
    over_any_rows(&rt, rt.alloc(), 3);
}

#[test]
fn any_number_of_rows_deleted(rt: HostRuntime) {
    over_any_rows(&rt, rt.alloc(), 4);
}

/// So many blocks, of one statement each.
fn many_blocks(alloc: Global, count: usize) -> Result<Vec<Block<'static>>, AllocError> {
    let mut all = Vec::new(alloc);
    for _ in 0..count {
        all.push(block(alloc, "SELECT 1", Role::Session)?)?;
    }
    Ok(all)
}

/// Whether the session may be given the block of that number, which ends.
fn may_run(engine: &mut Engine<'_>, block: u32) -> Result<bool, AllocError> {
    match run(engine, 1, block) {
        Ok(()) => Ok(true),
        Err(EngineFault::BlockNotAllowed) => Ok(false),
        Err(_) => Err(AllocError),
    }
}

fn over_blocks(rt: &impl Abort, alloc: Global, count: u32) -> Result<(), AllocError> {
    let blocks = many_blocks(alloc, count as usize)?;
    let mut engine = engine_of(alloc, &blocks, 1, Mode::Free)?;
    holds(rt, engine.is_of(&blocks, 1, Mode::Free), "its blocks");
    holds(rt, !may_run(&mut engine, count)?, "no such block");
    if count > 0 {
        holds(rt, may_run(&mut engine, count - 1)?, "the last block");
    }
    Ok(())
}

#[test]
fn any_number_of_blocks(rt: HostRuntime) {
    for count in SIZES {
        at_last!(&rt, over_blocks(&rt, rt.alloc(), count));
    }
}

const ROW: [Line; 3] = [
    (0, "CREATE TABLE t (x int); INSERT INTO t VALUES (1)", ""),
    (1, "BEGIN; UPDATE t SET x = x + 1", ""),
    (1, "COMMIT", ""),
];

/// How many replies say that a session waits.
fn waits(engine: &Engine<'_>) -> usize {
    let mut count: usize = 0;
    for item in engine.history() {
        if matches!(item.reply.outcome, Outcome::Waits) {
            count = count.wrapping_add(1);
        }
    }
    count
}

/// Each session changes the row of the one before, which it waits for.
fn with_sessions(rt: &impl Abort, alloc: Global, count: u32) -> Result<(), AllocError> {
    if count > 64 {
        return Err(AllocError);
    }
    let blocks = blocks(alloc, &ROW)?;
    let mut engine = engine_of(alloc, &blocks, count, Mode::Directed)?;
    answered(run(&mut engine, 0, 0))?;
    for session in 1..count + 1 {
        answered(run(&mut engine, session, 1))?;
    }
    let others = (count as usize).wrapping_sub(1);
    holds(rt, waits(&engine) == others, "all but the first wait");
    for session in 1..count + 1 {
        answered(run(&mut engine, session, 2))?;
    }
    holds(rt, engine.quiet(), "all have gone on");
    holds(rt, is_legal(alloc, &engine, &blocks)?, "a legal history");
    Ok(())
}

#[test]
fn any_number_of_sessions(rt: HostRuntime) {
    for count in SESSIONS {
        at_last!(&rt, with_sessions(&rt, rt.alloc(), count));
    }
}

/// A query of 64 values: behind the first word each takes three bytes.
const VALUES: &str =
    "SELECT 1, 1, 1, 1, 1, 1, 1, 1, 1, 1, 1, 1, 1, 1, 1, 1, 1, 1, 1, 1, 1, 1, 1, 1, 1, 1, 1, 1, 1, 1, 1, 1, 1, 1, 1, 1, 1, 1, 1, 1, 1, 1, 1, 1, 1, 1, 1, 1, 1, 1, 1, 1, 1, 1, 1, 1, 1, 1, 1, 1, 1, 1, 1, 1";

/// The query of so many of them.
fn values_of(count: usize) -> &'static str {
    let end = count.saturating_mul(3).saturating_add(5);
    VALUES.get(..end).unwrap_or(VALUES)
}

/// A session is shown a row of so many values.
fn with_values(rt: &impl Abort, alloc: Global, count: usize) -> Result<(), AllocError> {
    let lines: [Line; 1] = [(1, values_of(count), "")];
    let blocks = blocks(alloc, &lines)?;
    let mut engine = engine_of(alloc, &blocks, 1, Mode::Directed)?;
    let outcome = answered(answer_to(&mut engine, 0))?;
    holds(rt, is_done(&outcome, 1), "a row of so many values");
    Ok(())
}

#[test]
fn any_number_of_values_in_a_row(rt: HostRuntime) {
    for count in 1..65 {
        at_last!(&rt, with_values(&rt, rt.alloc(), count));
    }
}
