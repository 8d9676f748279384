//! Steps a SELECT and an INSERT on tables of 10, 100 and 1,000 rows, and says what came of them.

use anyhow::{Result, bail};
use row_versions::ListStore;
use session_core::EngineState;
use session_machine::{Mode, Outcome};
use sql_parser::{Block, Role, parse_block};
use std::alloc::{AllocError, Global};
use std::time::Instant;

/// A table of so many rows, each a number and a text.
fn filling(alloc: Global, rows: u32) -> Result<String, AllocError> {
    let mut text = String::from_str(
        alloc,
        "CREATE TABLE t (x int, y text); INSERT INTO t VALUES (0, 'row')",
    )?;
    for x in 1..rows {
        let row = format!(in alloc; ", ({x}, 'row')")?;
        text.push_str(row.as_str())?;
    }
    Ok(text)
}

/// The block that a text is, in which there must be no fault.
pub fn block_of<'a>(alloc: Global, text: &'a str, role: Role) -> Result<Block<'a>> {
    if text.len() > 1_000_000 {
        bail!("a long text");
    }
    match parse_block(alloc, text, role) {
        Ok(block) => Ok(block),
        Err(_) => bail!("a text with a fault"),
    }
}

/// Block 0 makes and fills the table, block 1 reads all of it, block 2 puts a row into it.
fn blocks<'a>(alloc: Global, filling: &'a str) -> Result<Vec<Block<'a>>> {
    let mut blocks = Vec::new(alloc);
    blocks.push(block_of(alloc, filling, Role::Main)?)?;
    blocks.push(block_of(alloc, "SELECT * FROM t", Role::Session)?)?;
    blocks.push(block_of(alloc, "INSERT INTO t VALUES (7, 'new')", Role::Session)?)?;
    Ok(blocks)
}

/// A step's outcome: how many rows it showed, if it showed any; and the nanoseconds that it took.
#[derive(Clone, Copy)]
struct Stepped {
    rows: Option<usize>,
    nanos: u128,
}

fn step<'a, 't>(
    rt: &HostRuntime,
    engine: &mut EngineState<'a, 't, ListStore>,
    session: u32,
) -> Result<Stepped> {
    let start = Instant::now(rt)?;
    let Ok(reply) = engine.step(session) else {
        bail!("a step was refused");
    };
    let nanos = start.elapsed(rt)?.as_nanos();
    let rows = match &reply.outcome {
        Outcome::Rows(set) => Some(set.rows().len()),
        _ => None,
    };
    Ok(Stepped { rows, nanos })
}

/// Gives session 1 a block of one statement, and steps it.
fn step_of_block<'a, 't>(
    rt: &HostRuntime,
    engine: &mut EngineState<'a, 't, ListStore>,
    block: u32,
) -> Result<Stepped> {
    if engine.launch(1, block).is_err() {
        bail!("a launch was refused");
    }
    step(rt, engine, 1)
}

/// Runs block 0, which has two statements.
fn fill<'a, 't>(rt: &HostRuntime, engine: &mut EngineState<'a, 't, ListStore>) -> Result<()> {
    if engine.launch(0, 0).is_err() {
        bail!("the setup was refused");
    }
    step(rt, engine, 0)?;
    step(rt, engine, 0)?;
    Ok(())
}

/// Fills the table, reads it, puts a row into it and reads it again: what came of the last three.
fn three_steps<'a, 't>(
    rt: &HostRuntime,
    engine: &mut EngineState<'a, 't, ListStore>,
) -> Result<[Stepped; 3]> {
    fill(rt, engine)?;
    let select = step_of_block(rt, engine, 1)?;
    let insert = step_of_block(rt, engine, 2)?;
    let seen = step_of_block(rt, engine, 1)?;
    Ok([select, insert, seen])
}

fn measured<'a, 't>(rt: &HostRuntime, blocks: &'a [Block<'t>]) -> Result<[Stepped; 3]> {
    let store = ListStore::new(rt.alloc());
    let mut engine = EngineState::new(rt.alloc(), blocks, 1, Mode::Directed, store)?;
    three_steps(rt, &mut engine)
}

fn tell(rt: &HostRuntime, count: u32, steps: [Stepped; 3], with_times: bool) -> Result<()> {
    let [select, insert, seen] = steps;
    let (Some(before), Some(after)) = (select.rows, seen.rows) else {
        bail!("no rows");
    };
    println!(rt; "a table of {count} rows: {before} are read, and {after} behind an INSERT")?;
    if with_times {
        eprintln!(rt; "SELECT of {count} rows: {} ns", select.nanos)?;
        eprintln!(rt; "INSERT into {count} rows: {} ns", insert.nanos)?;
    }
    Ok(())
}

pub fn run(rt: &HostRuntime, with_times: bool) -> Result<()> {
    for count in [10, 100, 1_000] {
        let text = filling(rt.alloc(), count)?;
        let blocks = blocks(rt.alloc(), text.as_str())?;
        let steps = measured(rt, &blocks)?;
        tell(rt, count, steps, with_times)?;
    }
    Ok(())
}
