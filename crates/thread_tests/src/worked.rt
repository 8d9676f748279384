//! What a session sees on the way of a run.

use crate::asking::holds;
use crate::free_runs::blocks;
use row_versions::ListStore;
use session_core::EngineState;
use session_machine::{EngineFault, Event, Mode};
use sql_parser::Block;
use sql_values::{Row, Value};
use std::alloc::Global;
use std::test::Fail;

/// A DELETE waits for the rows that an UPDATE changed, and looks for no other row when it goes on.
const TEXTS: [&str; 6] = [
    "CREATE TABLE website (hits int); INSERT INTO website VALUES (9), (10);",
    "BEGIN;",
    "UPDATE website SET hits = hits + 1;",
    "COMMIT;",
    "DELETE FROM website WHERE hits = 10;",
    "SELECT hits FROM website ORDER BY hits;",
];

/// Each session and the block that it is given, and how many steps follow.
const GIVEN: [(u32, u32, usize); 5] = [(0, 0, 2), (1, 1, 1), (1, 2, 1), (2, 4, 1), (1, 3, 1)];

fn give(
    engine: &mut EngineState<'_, '_, ListStore>,
    session: u32,
    block: u32,
    steps: usize,
) -> Result<(), EngineFault> {
    engine.perform(Event::Launch { session, block })?;
    for _ in 0..steps {
        engine.perform(Event::Step { session })?;
    }
    Ok(())
}

fn is_int(row: &Row, wanted: i32) -> bool {
    match row.values() {
        [Value::Int(int)] => *int == wanted,
        _ => false,
    }
}

/// Whether session 2 sees 10 and 11 behind its SELECT.
fn sees_both(alloc: Global, blocks: &[Block<'_>]) -> Result<bool, Fail> {
    let store = ListStore::new(alloc);
    let mut engine = EngineState::new(alloc, blocks, 2, Mode::Directed, store)?;
    for (session, block, steps) in GIVEN {
        give(&mut engine, session, block, steps)?;
    }
    engine.perform(Event::Step { session: 2 })?;
    give(&mut engine, 2, 5, 1)?;
    Ok(match engine.visible(2, "website")? {
        Some(rows) => match rows.as_slice() {
            [first, second] => is_int(first, 10) && is_int(second, 11),
            _ => false,
        },
        None => false,
    })
}

#[test]
fn a_delete_that_waited_leaves_both_rows(rt: HostRuntime) -> Result<(), Fail> {
    let alloc = rt.alloc();
    let blocks = blocks(alloc, 6, &TEXTS)?;
    holds(&rt, sees_both(alloc, &blocks)?, "10 and 11");
    Ok(())
}
