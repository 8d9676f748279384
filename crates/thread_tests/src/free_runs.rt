//! Runs in which each session's thread runs its script, with no order between sessions. What is asked is the same whatever the schedule was.

use crate::asking::{but_wants, holds};
use crate::free_gates::{Crossed, Handshake, Reversed};
use crate::gates::{Meeting, Shut, Telling, looks};
use crate::telling::was_told;
use row_versions::ListStore;
use session_core::{EngineState, replays};
use session_machine::{EngineFault, HistItem, Mode};
use session_threads::{Closed, FreePlan, Gate, OpenGate, ThreadFault, run_free};
use sql_parser::{Block, Role, parse_block};
use sql_values::Value;
use std::alloc::{AllocError, Global};
use std::process::Abort;
use std::sync::Wait;
use std::sync::atomic::{AtomicU64, Ordering};
use std::test::Fail;
use std::thread::Threads;

/// Block 0 is the control session's setup, block 1 its teardown; the others are the sessions'.
const FIRST_SCRIPT: u32 = 2;

/// Each session runs these blocks.
fn plan_of(alloc: Global, sessions: u32, script: &[u32]) -> Result<FreePlan, AllocError> {
    let mut scripts = Vec::new(alloc);
    for _ in 0..sessions {
        let mut own = Vec::new(alloc);
        own.extend_from_slice(script)?;
        scripts.push(own)?;
    }
    Ok(FreePlan {
        before: vec![in alloc; (0u32, 0u32)]?,
        scripts,
        after: vec![in alloc; 1u32]?,
    })
}

fn block<'t>(alloc: Global, text: &'t str, role: Role) -> Result<Block<'t>, Fail> {
    if text.len() > 1_000 {
        return Err("a long text".into());
    }
    Ok(parse_block(alloc, text, role)?)
}

/// The blocks with these texts; the first so many are the control session's.
pub fn blocks<'t>(alloc: Global, mains: usize, texts: &[&'t str]) -> Result<Vec<Block<'t>>, Fail> {
    let mut blocks = Vec::new(alloc);
    for (place, text) in texts.iter().enumerate() {
        let role = if place < mains {
            Role::Main
        } else {
            Role::Session
        };
        blocks.push(block(alloc, *text, role)?)?;
    }
    Ok(blocks)
}

/// A run of the blocks, by at most 64 sessions.
fn run<'a, 't, G: Gate, R: Threads + Wait + Sync>(
    rt: &R,
    alloc: Global,
    blocks: &'a [Block<'t>],
    plan: &FreePlan,
    gate: &G,
) -> Result<Closed<'a, 't, ListStore>, ThreadFault> {
    if plan.scripts.len() > 64 {
        return Err(ThreadFault::Engine(EngineFault::NoSession));
    }
    run_free(rt, alloc, blocks, plan, ListStore::new(alloc), gate)
}

fn is_legal(
    alloc: Global,
    blocks: &[Block<'_>],
    plan: &FreePlan,
    items: &[HistItem<'_>],
) -> Result<bool, Fail> {
    if plan.scripts.len() > 64 {
        return Err("too many sessions".into());
    }
    let sessions = plan.scripts.len() as u32;
    Ok(replays(alloc, blocks, sessions, Mode::Free, items)?)
}

/// The number beside key 1, where that is the table's one row.
fn number_of(engine: &EngineState<'_, '_, ListStore>) -> Result<Option<i32>, Fail> {
    let Some(rows) = engine.visible(0, "t")? else {
        return Ok(None);
    };
    let [row] = rows.as_slice() else {
        return Ok(None);
    };
    Ok(match row.values() {
        [Value::Int(1), Value::Int(number)] => Some(*number),
        _ => None,
    })
}

/// What a run left: how many events, whether they replay, and the number beside key 1.
#[derive(Drop)]
struct Left {
    events: usize,
    is_legal: bool,
    number: Option<i32>,
}

fn left_in(
    alloc: Global,
    blocks: &[Block<'_>],
    plan: &FreePlan,
    engine: &EngineState<'_, '_, ListStore>,
) -> Result<Left, Fail> {
    let items = engine.history();
    Ok(Left {
        events: items.len(),
        is_legal: is_legal(alloc, blocks, plan, items)?,
        number: number_of(engine)?,
    })
}

fn left_by<G: Gate, R: Threads + Wait + Sync>(
    rt: &R,
    alloc: Global,
    blocks: &[Block<'_>],
    plan: &FreePlan,
    gate: &G,
) -> Result<Left, Fail> {
    let closed = run(rt, alloc, blocks, plan, gate)?;
    left_in(alloc, blocks, plan, closed.state())
}

/// What a run leaves of the blocks with these texts, of which the first so many are the control session's.
fn left_of<G: Gate, R: Threads + Wait + Sync>(
    rt: &R,
    alloc: Global,
    mains: usize,
    texts: &[&str],
    plan: &FreePlan,
    gate: &G,
) -> Result<Left, Fail> {
    let blocks = blocks(alloc, mains, texts)?;
    left_by(rt, alloc, &blocks, plan, gate)
}

const ONE: [&str; 3] = ["SELECT 0", "SELECT 0", "SELECT 1;"];

/// The fault in which a run of these blocks ends.
fn fault_of<G: Gate, R: Threads + Wait + Sync>(
    rt: &R,
    alloc: Global,
    plan: &FreePlan,
    gate: &G,
) -> Result<Option<ThreadFault>, Fail> {
    let blocks = blocks(alloc, 2, &ONE)?;
    Ok(but_wants(run(rt, alloc, &blocks, plan, gate).err())?)
}

/// Each of so many sessions runs one SELECT; how many events there were.
fn run_ones<G: Gate, R: Threads + Wait + Sync>(
    rt: &R,
    alloc: Global,
    sessions: u32,
    gate: &G,
) -> Result<usize, Fail> {
    let plan = plan_of(alloc, sessions, &[FIRST_SCRIPT])?;
    let left = left_of(rt, alloc, 2, &ONE, &plan, gate)?;
    Ok(left.events)
}

/// The events of a run: of each session one launch, one step and one leave; of the control session two blocks and its leave.
fn events_of(sessions: usize) -> usize {
    3 * sessions.min(64) + 5
}

#[test]
fn events_of_two_sessions_interleave(rt: HostRuntime) -> Result<(), Fail> {
    let gate = Crossed::new(looks(&rt));
    let events = run_ones(&rt, rt.alloc(), 2, &gate)?;
    holds(&rt, events == events_of(2), "events");
    Ok(())
}

#[test]
fn two_workers_are_at_the_gate_at_once(rt: HostRuntime) -> Result<(), Fail> {
    let gate = Handshake::new(looks(&rt));
    let events = run_ones(&rt, rt.alloc(), 2, &gate)?;
    holds(&rt, events == events_of(2), "events");
    Ok(())
}

#[test]
fn sessions_step_in_reverse_order(rt: HostRuntime) -> Result<(), Fail> {
    let gate = Reversed::from_last(8, looks(&rt));
    let events = run_ones(&rt, rt.alloc(), 8, &gate)?;
    holds(&rt, events == events_of(8), "events");
    Ok(())
}

#[test]
fn sixty_four_workers_answer_at_once(rt: HostRuntime) -> Result<(), Fail> {
    let gate = Meeting::of(64, looks(&rt));
    let events = run_ones(&rt, rt.alloc(), 64, &gate)?;
    holds(&rt, events == events_of(64), "events");
    holds(&rt, gate.met.load(Ordering::SeqCst) == 64, "met");
    Ok(())
}

#[test]
fn a_gate_that_admits_nothing_ends_in_gate(rt: HostRuntime) -> Result<(), Fail> {
    let plan = plan_of(rt.alloc(), 2, &[FIRST_SCRIPT])?;
    let gate = Shut {
        asked: AtomicU64::new(0),
    };
    let fault = fault_of(&rt, rt.alloc(), &plan, &gate)?;
    holds(&rt, fault == Some(ThreadFault::Gate), "gate");
    Ok(())
}

#[test]
fn a_block_of_no_session_is_refused(rt: HostRuntime) -> Result<(), Fail> {
    let mut plan = plan_of(rt.alloc(), 2, &[FIRST_SCRIPT])?;
    plan.before.push((3, FIRST_SCRIPT))?;
    let fault = fault_of(&rt, rt.alloc(), &plan, &OpenGate)?;
    let expected = ThreadFault::Engine(EngineFault::NoSession);
    holds(&rt, fault == Some(expected), "no session");
    Ok(())
}

/// Whether a gate is told what the seats of the sessions hold.
fn is_told_the_seats<R: Threads + Wait + Sync>(
    rt: &R,
    alloc: Global,
    blocks: &[Block<'_>],
    plan: &FreePlan,
) -> Result<bool, Fail> {
    let gate = Telling::new();
    let closed = run(rt, alloc, blocks, plan, &gate)?;
    Ok(was_told(&gate, closed.seats()))
}

#[test]
fn workers_tell_what_their_seats_hold(rt: HostRuntime) -> Result<(), Fail> {
    let alloc = rt.alloc();
    let blocks = blocks(
        alloc,
        2,
        &[
            "SELECT 0",
            "SELECT 0",
            "SELECT 11; SELECT z",
            "SELECT -21 AS x; SELECT 1/0",
        ],
    )?;
    let mut plan = plan_of(alloc, 1, &[FIRST_SCRIPT])?;
    let mut other = Vec::new(alloc);
    other.push(FIRST_SCRIPT + 1)?;
    plan.scripts.push(other)?;
    let tells = is_told_the_seats(&rt, alloc, &blocks, &plan)?;
    holds(&rt, tells, "what was told is what the seats hold");
    Ok(())
}

const ADD: [&str; 3] = [
    "CREATE TABLE t (k int PRIMARY KEY, v int); INSERT INTO t VALUES (1, 0)",
    "SELECT * FROM t",
    "UPDATE t SET v = v + 1 WHERE k = 1;",
];

/// Whether 64 sessions add 64 to the one row, and the history replays.
fn add_by_all<R: Threads + Wait + Sync>(rt: &R, alloc: Global) -> Result<bool, Fail> {
    let plan = plan_of(alloc, 64, &[FIRST_SCRIPT])?;
    let left = left_of(rt, alloc, 2, &ADD, &plan, &OpenGate)?;
    Ok(left.is_legal && left.number == Some(64))
}

#[test]
fn sixty_four_sessions(rt: HostRuntime) -> Result<(), Fail> {
    holds(&rt, add_by_all(&rt, rt.alloc())?, "64, and it replays");
    Ok(())
}

/// A setup that fails, one that waits for a row of another setup, and one that goes well.
const SETUPS: [&str; 5] = [
    "CREATE TABLE t (x int); INSERT INTO t VALUES (1)",
    "BEGIN; UPDATE t SET x = 2",
    "UPDATE t SET x = 3; SELECT 1",
    "SELECT 1/0; SELECT 2",
    "COMMIT",
];

/// How many events there are, which replay, where these setups come first, then a script of one block for each of two sessions.
fn events_behind<R: Threads + Wait + Sync>(
    rt: &R,
    alloc: Global,
    setups: &[(u32, u32)],
) -> Result<usize, Fail> {
    let mut plan = plan_of(alloc, 2, &[4])?;
    plan.after = Vec::new(alloc);
    plan.before = Vec::new(alloc);
    plan.before.extend_from_slice(setups)?;
    let left = left_of(rt, alloc, 1, &SETUPS, &plan, &OpenGate)?;
    Ok(if left.is_legal { left.events } else { 0 })
}

#[test]
fn setups_that_fail_or_wait_end_the_run(rt: HostRuntime) -> Result<(), Fail> {
    let alloc = rt.alloc();
    let well = events_behind(&rt, alloc, &[(0, 0), (1, 1)])?;
    holds(&rt, well == 3 + 3 + 1 + 6, "well");
    let waits = events_behind(&rt, alloc, &[(0, 0), (1, 1), (2, 2), (1, 4)])?;
    holds(&rt, waits == 3 + 3 + 2, "waits");
    let fails = events_behind(&rt, alloc, &[(0, 0), (2, 3), (1, 1)])?;
    holds(&rt, fails == 3 + 2, "fails");
    let none = events_behind(&rt, alloc, &[])?;
    holds(&rt, none == 1 + 6, "none");
    Ok(())
}

/// Sessions that update two rows in either order, wait, meet deadlocks and roll back.
const QUARREL: [&str; 6] = [
    "CREATE TABLE t (k int PRIMARY KEY, v int); INSERT INTO t VALUES (1, 0), (2, 0)",
    "SELECT * FROM t",
    "BEGIN; UPDATE t SET v = v + 1 WHERE k = 1; UPDATE t SET v = v + 1 WHERE k = 2; COMMIT",
    "BEGIN; UPDATE t SET v = v + 1 WHERE k = 2",
    "SELECT * FROM t WHERE k = 1 FOR UPDATE; INSERT INTO t VALUES (3, 0)",
    "ROLLBACK",
];

/// How often eight sessions quarrel; bench/quarrels.sh runs the test many times.
const RUNS: usize = 20;

fn quarrel<R: Threads + Wait + Sync + Abort>(rt: &R, alloc: Global) -> Result<(), Fail> {
    let plan = plan_of(alloc, 8, &[2, 3, 4, 5])?;
    for _ in 0..RUNS {
        let left = left_of(rt, alloc, 2, &QUARREL, &plan, &OpenGate)?;
        holds(rt, left.is_legal, "replays");
    }
    Ok(())
}

#[test]
fn quarrels_replay(rt: HostRuntime) -> Result<(), Fail> {
    Ok(quarrel(&rt, rt.alloc())?)
}
