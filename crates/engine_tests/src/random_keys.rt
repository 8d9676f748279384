//! Interleavings at random of statements that write keys. After each no two rows of the table have one key,
//! and its history replays. The generator is fixed, so they are the same ones in each run.

use crate::trial::{Engine, Line, at_last, blocks, engine_of, holds, is_legal, run};
use session_machine::{EngineFault, HistItem, Mode, Outcome, StmtFault};
use sql_parser::Block;
use sql_values::{Row, Value};
use std::alloc::{AllocError, Global};
use std::process::Abort;

const BLOCKS: [Line; 14] = [
    (
        0,
        "CREATE TABLE t (k int PRIMARY KEY, v int UNIQUE); INSERT INTO t VALUES (1, 1), (2, 2), (3, NULL)",
        "",
    ),
    (1, "BEGIN", ""),
    (
        1,
        "BEGIN ISOLATION LEVEL REPEATABLE READ; SELECT * FROM t",
        "",
    ),
    (1, "COMMIT", ""),
    (1, "ROLLBACK", ""),
    (1, "BEGIN; INSERT INTO t VALUES (1, 3)", ""),
    (1, "BEGIN; INSERT INTO t VALUES (4, 1), (2, 4)", ""),
    (1, "BEGIN; INSERT INTO t VALUES (4, 4)", ""),
    (1, "BEGIN; UPDATE t SET k = k + 1 WHERE k = 3", ""),
    (1, "UPDATE t SET k = k - 1", ""),
    (1, "UPDATE t SET v = 2 WHERE k = 1", ""),
    (1, "UPDATE t SET v = v + 1 WHERE v > 1", ""),
    (1, "BEGIN; DELETE FROM t WHERE k = 1", ""),
    (1, "BEGIN; DELETE FROM t WHERE v = 2", ""),
];

const INTERLEAVINGS: u32 = 300;

/// A linear congruential generator (Knuth, MMIX).
#[derive(Drop)]
struct Dice {
    state: u64,
}

impl Dice {
    /// A number from `low` on, of `count` of them.
    fn roll(&mut self, low: u32, count: u32) -> u32 {
        self.state = self
            .state
            .wrapping_mul(6_364_136_223_846_793_005)
            .wrapping_add(1_442_695_040_888_963_407);
        let high = (self.state >> 33) as u32;
        low.wrapping_add(high.checked_rem(count).unwrap_or(0))
    }
}

/// Whether a statement waited, found a key taken, closed a cycle.
#[derive(Drop)]
struct Met {
    waits: bool,
    taken: bool,
    deadlocks: bool,
}

impl Met {
    fn note(&mut self, outcome: &Outcome<'static>) {
        match outcome {
            Outcome::Waits => self.waits = true,
            Outcome::Failed(StmtFault::KeyTaken(_)) => self.taken = true,
            Outcome::Failed(StmtFault::Deadlock) => self.deadlocks = true,
            _ => {}
        }
    }

    fn note_all(&mut self, items: &[HistItem<'static>]) {
        for item in items {
            self.note(&item.reply.outcome);
        }
    }
}

/// A session that isn't in its block is given one.
fn turn(engine: &mut Engine<'_>, dice: &mut Dice) -> Result<(), EngineFault> {
    let session = dice.roll(1, 3);
    let block = dice.roll(1, 13);
    match run(engine, session, block) {
        Err(EngineFault::Busy) => Ok(()),
        done => done,
    }
}

/// The table is made, and each session that isn't in its block is given one, 24 times.
fn turns(engine: &mut Engine<'_>, dice: &mut Dice) -> Result<(), EngineFault> {
    run(engine, 0, 0)?;
    for _ in 0..24 {
        turn(engine, dice)?;
    }
    Ok(())
}

/// The key of a row; none where it is NULL.
fn key_of(row: &Row, column: usize) -> Option<i32> {
    match row.values().get(column) {
        Some(Value::Int(key)) => Some(*key),
        _ => None,
    }
}

/// Whether one row at most has the key.
fn is_alone(rows: &[Row], column: usize, key: i32) -> bool {
    let mut is_met = false;
    for row in rows {
        if key_of(row, column) == Some(key) {
            if is_met {
                return false;
            }
            is_met = true;
        }
    }
    true
}

fn is_unique(rows: &[Row], column: usize) -> bool {
    for row in rows {
        if let Some(key) = key_of(row, column) {
            if !is_alone(rows, column, key) {
                return false;
            }
        }
    }
    true
}

/// Whether what is committed has each key once.
fn are_unique(engine: &Engine<'_>) -> Result<bool, EngineFault> {
    match engine.visible(0, "t")? {
        Some(rows) => Ok(is_unique(&rows, 0) && is_unique(&rows, 1)),
        None => Ok(false),
    }
}

/// An interleaving leaves each key once, and its history is legal.
fn stands(
    rt: &impl Abort,
    alloc: Global,
    engine: &mut Engine<'_>,
    blocks: &[Block<'static>],
    dice: &mut Dice,
) -> Result<(), AllocError> {
    if turns(engine, dice).is_err() {
        return Err(AllocError);
    }
    match are_unique(engine) {
        Ok(so) => holds(rt, so, "keys"),
        Err(_) => return Err(AllocError),
    }
    holds(rt, is_legal(alloc, engine, blocks)?, "replays");
    Ok(())
}

fn interleaving(
    rt: &impl Abort,
    alloc: Global,
    blocks: &[Block<'static>],
    dice: &mut Dice,
    met: &mut Met,
) -> Result<(), AllocError> {
    let mut engine = engine_of(alloc, blocks, 3, Mode::Directed)?;
    let stood = stands(rt, alloc, &mut engine, blocks, dice);
    met.note_all(engine.history());
    stood
}

fn interleavings(
    rt: &impl Abort,
    alloc: Global,
    blocks: &[Block<'static>],
) -> Result<(), AllocError> {
    let mut dice = Dice { state: 15 };
    let mut met = Met {
        waits: false,
        taken: false,
        deadlocks: false,
    };
    for _ in 0..INTERLEAVINGS {
        interleaving(rt, alloc, blocks, &mut dice, &mut met)?;
    }
    holds(rt, met.waits, "waits");
    holds(rt, met.taken, "taken");
    holds(rt, met.deadlocks, "deadlocks");
    Ok(())
}

fn all_once(rt: &impl Abort, alloc: Global) -> Result<(), AllocError> {
    let blocks = blocks(alloc, &BLOCKS)?;
    interleavings(rt, alloc, &blocks)
}

#[test]
fn interleavings_keep_keys_unique(rt: HostRuntime) {
    at_last!(&rt, all_once(&rt, rt.alloc()));
}
