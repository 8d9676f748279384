//! Runs that the engine or a driver ends while the other threads sleep, and what gates are asked and told.

use crate::asking::{but_wants, holds};
use crate::free_runs::blocks;
use crate::gates::looks;
use crate::giving::{Asked, Behind, Counting, Starved, Twice};
use crate::signs::session_of;
use row_versions::ListStore;
use session_machine::{EngineFault, Event, Order, Reply};
use session_threads::{Closed, FreePlan, Gate, OpenGate, ThreadFault, run_directed, run_free};
use sql_parser::Block;
use std::alloc::Global;
use std::sync::Wait;
use std::sync::atomic::{AtomicU64, Ordering};
use std::test::Fail;
use std::thread::Threads;

/// The blocks of the tests: a table, a transaction that holds its row, an update that waits for it, a query.
pub const TEXTS: [&str; 4] = [
    "CREATE TABLE t (x int); INSERT INTO t VALUES (1);",
    "BEGIN; UPDATE t SET x = 2;",
    "UPDATE t SET x = 3;",
    "SELECT 1;",
];

/// A block that isn't there.
pub const NO_BLOCK: u32 = 99;

/// The fault in which a directed run of two sessions ends, in which this is ordered first and that then.
pub fn directed<G: Gate, R: Threads + Wait + Sync>(
    rt: &R,
    alloc: Global,
    blocks: &[Block<'_>],
    first: Order,
    then: Order,
    gate: &G,
) -> Result<Option<ThreadFault>, ThreadFault> {
    let store = ListStore::new(alloc);
    but_wants(run_directed(rt, alloc, blocks, 2, store, Twice { first, then }, gate).err())
}

/// The fault in which a directed run ends whose driver is refused memory behind its first order; where the engine is refused it, or a thread, the test ends.
fn starved<R: Threads + Wait + Sync>(
    rt: &R,
    alloc: Global,
    blocks: &[Block<'_>],
    first: Order,
) -> Result<Option<ThreadFault>, ThreadFault> {
    let store = ListStore::new(alloc);
    match run_directed(rt, alloc, blocks, 2, store, Starved { first }, &OpenGate).err() {
        Some(ThreadFault::Memory) => Ok(Some(ThreadFault::Memory)),
        other => but_wants(other),
    }
}

pub const QUERY: Order = Order::Launch {
    session: 1,
    block: 3,
};

#[test]
fn a_directed_run_ends_where_the_engine_refuses(rt: HostRuntime) -> Result<(), Fail> {
    let alloc = rt.alloc();
    let blocks = blocks(alloc, 4, &TEXTS)?;
    // (session 1 has had a reply before, of which the gate must not be told again; session 2 has had none)
    for session in 1..3 {
        let gate = Counting::new();
        let no_block = Order::Launch {
            session,
            block: NO_BLOCK,
        };
        let fault = directed(&rt, alloc, &blocks, QUERY, no_block, &gate)?;
        let expected = ThreadFault::Engine(EngineFault::BlockNotAllowed);
        holds(&rt, fault == Some(expected), "a block that isn't there");
        holds(
            &rt,
            gate.asked() == 3,
            "the gate is asked for the refused event",
        );
        holds(&rt, gate.told() == 2, "and isn't told of it");
    }
    Ok(())
}

#[test]
fn a_directed_run_ends_where_an_order_is_nobodys(rt: HostRuntime) -> Result<(), Fail> {
    let alloc = rt.alloc();
    let blocks = blocks(alloc, 4, &TEXTS)?;
    let gate = Counting::new();
    let nobodys = Order::Leave { session: 3 };
    let fault = directed(&rt, alloc, &blocks, QUERY, nobodys, &gate)?;
    let expected = ThreadFault::Engine(EngineFault::NoSession);
    holds(&rt, fault == Some(expected), "a session that isn't there");
    holds(&rt, gate.asked() == 2, "asked for what was done");
    Ok(())
}

#[test]
fn a_directed_run_ends_where_its_driver_is_refused_memory(rt: HostRuntime) -> Result<(), Fail> {
    let alloc = rt.alloc();
    let blocks = blocks(alloc, 4, &TEXTS)?;
    let fault = starved(&rt, alloc, &blocks, QUERY)?;
    holds(&rt, fault == Some(ThreadFault::Memory), "memory");
    Ok(())
}

#[test]
fn a_directed_run_asks_and_tells_each_event_once(rt: HostRuntime) -> Result<(), Fail> {
    let alloc = rt.alloc();
    let blocks = blocks(alloc, 4, &TEXTS)?;
    let gate = Counting::new();
    let fault = directed(&rt, alloc, &blocks, QUERY, Order::Stop, &gate)?;
    holds(&rt, fault.is_none(), "the run ends well");
    holds(&rt, gate.asked() == 2, "a launch and a step are asked for");
    holds(&rt, gate.told() == 2, "and told");
    Ok(())
}

#[test]
fn a_driver_is_asked_once_for_each_order(rt: HostRuntime) -> Result<(), Fail> {
    let alloc = rt.alloc();
    let blocks = blocks(alloc, 4, &TEXTS)?;
    let store = ListStore::new(alloc);
    let asks = AtomicU64::new(0);
    let driver = Asked {
        first: QUERY,
        then: Order::Stop,
        asks: &asks,
    };
    run_directed(&rt, alloc, &blocks, 2, store, driver, &OpenGate)?.end();
    let asked = asks.load(Ordering::SeqCst);
    holds(&rt, asked == 2, "for the launch, and for the end behind it");
    Ok(())
}

/// May be asked so often for one event, refuses the first so many questions, and counts them.
#[derive(Drop)]
struct Slow {
    tries: u64,
    refuses: u64,
    asked: AtomicU64,
}

impl Gate for Slow {
    ghost lets = { λ gate event. Unit {0} };

    ghost refuses = { λ gate event. Unit {0} };

    ghost knows = { λ gate item. Unit {0} };

    fn tries(&self) -> u64 {
        self.tries
    }

    fn admits(&self, _event: Event) -> bool {
        self.asked.fetch_add(1, Ordering::SeqCst) >= self.refuses
    }

    fn answered(&self, _event: Event, _reply: &Reply<'_>) {}
}

#[test]
fn a_gate_is_asked_as_often_as_it_says(rt: HostRuntime) -> Result<(), Fail> {
    let alloc = rt.alloc();
    let blocks = blocks(alloc, 4, &TEXTS)?;
    // (how often it is asked for one event, how many questions it refuses, and how many it is asked for a launch and a step)
    for (tries, refuses, asks) in [
        (0, 0, 2),
        (0, 9, 1),
        (1, 0, 2),
        (1, 9, 1),
        (3, 2, 4),
        (3, 9, 3),
    ] {
        let gate = Slow {
            tries,
            refuses,
            asked: AtomicU64::new(0),
        };
        let fault = directed(&rt, alloc, &blocks, QUERY, Order::Stop, &gate)?;
        let expected = (refuses == 9).then_some(ThreadFault::Gate);
        holds(
            &rt,
            fault == expected,
            "a gate that always refuses ends the run",
        );
        let asked = gate.asked.load(Ordering::SeqCst);
        holds(
            &rt,
            asked == asks,
            "each event is asked for until it is admitted, or refused so often",
        );
    }
    Ok(())
}

/// Session 1 runs these blocks, and session 2 those.
pub fn plan_of(alloc: Global, first: &[u32], second: &[u32]) -> Result<FreePlan, Fail> {
    let mut scripts = Vec::new(alloc);
    for blocks in [first, second] {
        let mut script = Vec::new(alloc);
        script.extend_from_slice(blocks)?;
        scripts.push(script)?;
    }
    Ok(FreePlan {
        before: vec![in alloc; (0u32, 0u32)]?,
        scripts,
        after: vec![in alloc; 3u32]?,
    })
}

pub fn free<'a, 't, G: Gate, R: Threads + Wait + Sync>(
    rt: &R,
    alloc: Global,
    blocks: &'a [Block<'t>],
    plan: &FreePlan,
    gate: &G,
) -> Result<Closed<'a, 't, ListStore>, ThreadFault> {
    if plan.scripts.len() > 64 {
        return Err(ThreadFault::Engine(EngineFault::NoSession));
    }
    run_free(rt, alloc, blocks, plan, ListStore::new(alloc), gate)
}

#[test]
fn a_free_run_ends_where_the_engine_refuses(rt: HostRuntime) -> Result<(), Fail> {
    let alloc = rt.alloc();
    let blocks = blocks(alloc, 4, &TEXTS)?;
    let plan = plan_of(alloc, &[1, NO_BLOCK], &[2])?;
    let gate = Behind::new(looks(&rt));
    let fault = but_wants(free(&rt, alloc, &blocks, &plan, &gate).err())?;
    let expected = ThreadFault::Engine(EngineFault::BlockNotAllowed);
    holds(&rt, fault == Some(expected), "a block that isn't there");
    holds(&rt, gate.told() == 5, "told of what was done");
    holds(
        &rt,
        gate.admitted() == 7,
        "each event is asked for until it is admitted, and no more, though it waits",
    );
    Ok(())
}

/// How many events of a run are the sessions' own.
fn own_events(closed: &Closed<'_, '_, ListStore>) -> u64 {
    let mut count = 0u64;
    for item in closed.state().history() {
        if session_of(item.event) != 0 {
            count = count.wrapping_add(1);
        }
    }
    count
}

/// Whether a free run in which nobody waits asks for each of the sessions' events and tells it, once.
fn asks_and_tells<R: Threads + Wait + Sync>(
    rt: &R,
    alloc: Global,
    blocks: &[Block<'_>],
    plan: &FreePlan,
) -> Result<bool, ThreadFault> {
    let gate = Counting::new();
    let closed = free(rt, alloc, blocks, plan, &gate)?;
    let events = own_events(&closed);
    Ok(events == 8 && gate.asked() == events && gate.told() == events)
}

#[test]
fn a_free_run_asks_and_tells_each_event_of_a_session_once(rt: HostRuntime) -> Result<(), Fail> {
    let alloc = rt.alloc();
    let blocks = blocks(alloc, 4, &TEXTS)?;
    let plan = plan_of(alloc, &[3, 3], &[3])?;
    holds(
        &rt,
        asks_and_tells(&rt, alloc, &blocks, &plan)?,
        "asked and told",
    );
    Ok(())
}
