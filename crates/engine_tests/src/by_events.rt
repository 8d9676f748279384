//! The example at the head of `session_core`, word for word.

use crate::trial::{Line, at_last, blocks, holds};
use row_versions::ListStore;
use session_core::{EngineFault, EngineState, Mode, Outcome, Reply};
use sql_parser::Block;
use std::alloc::{AllocError, Global};
use std::process::Abort;

/// Whether session 1 sees the row that the control session, which is session 0, has made.
fn sees_the_row(alloc: Global, blocks: &[Block<'static>]) -> Result<bool, EngineFault> {
    let mut engine = EngineState::new(alloc, blocks, 1, Mode::Directed, ListStore::new(alloc))?;
    engine.launch(0, 0)?;
    engine.step(0)?;
    engine.step(0)?;
    engine.launch(1, 1)?;
    let Reply { outcome, ended } = engine.step(1)?;
    match outcome {
        Outcome::Rows(set) => Ok(set.rows().len() == 1 && ended),
        _ => Ok(false),
    }
}

const BLOCKS: [Line; 2] = [
    (0, "CREATE TABLE t (x int); INSERT INTO t VALUES (7)", ""),
    (1, "SELECT x FROM t", ""),
];

fn is_seen(rt: &impl Abort, alloc: Global) -> Result<(), AllocError> {
    let blocks = blocks(alloc, &BLOCKS)?;
    match sees_the_row(alloc, &blocks) {
        Ok(seen) => holds(rt, seen, "one row"),
        Err(_) => return Err(AllocError),
    }
    Ok(())
}

#[test]
fn an_engine_is_run_by_events(rt: HostRuntime) {
    at_last!(&rt, is_seen(&rt, rt.alloc()));
}
