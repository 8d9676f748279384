//! Runs in which two faults are met: the first is told.

use crate::asking::holds;
use crate::free_runs::blocks;
use crate::gates::{comes, looks};
use crate::giving::YIELDS;
use crate::refused::{NO_BLOCK, QUERY, TEXTS, directed, free, plan_of};
use crate::signs::session_of;
use session_machine::{EngineFault, Event, Order, Reply};
use session_threads::{FreePlan, Gate, ThreadFault};
use sql_parser::Block;
use std::alloc::Global;
use std::sync::Wait;
use std::sync::atomic::{AtomicU64, Ordering};
use std::test::Fail;
use std::thread::{Threads, yield_now};

/// Lets session 1 go on once session 2 asks, and refuses session 2 long after that.
#[derive(Drop)]
struct Late {
    looks: u64,
    first: AtomicU64,
    second: AtomicU64,
}

impl Gate for Late {
    ghost lets = { λ gate event. Unit {0} };

    ghost refuses = { λ gate event. Unit {0} };

    ghost knows = { λ gate item. Unit {0} };

    fn tries(&self) -> u64 {
        1
    }

    fn admits(&self, event: Event) -> bool {
        match session_of(event) {
            1 => {
                let came = comes(&self.second, 1, self.looks);
                self.first.store(1, Ordering::SeqCst);
                came
            }
            _ => {
                self.second.store(1, Ordering::SeqCst);
                comes(&self.first, 1, self.looks);
                for _ in 0..YIELDS {
                    yield_now();
                }
                false
            }
        }
    }

    fn answered(&self, _event: Event, _reply: &Reply<'_>) {}
}

/// Whether a free run ends in what the engine has against session 1's block, where the gate refuses session 2 later.
fn tells_the_engines<R: Threads + Wait + Sync>(
    rt: &R,
    alloc: Global,
    blocks: &[Block<'_>],
    plan: &FreePlan,
    looks: u64,
) -> bool {
    let gate = Late {
        looks,
        first: AtomicU64::new(0),
        second: AtomicU64::new(0),
    };
    let fault = free(rt, alloc, blocks, plan, &gate).err();
    fault == Some(ThreadFault::Engine(EngineFault::BlockNotAllowed))
}

/// How many runs there are; no test can make one thread note its fault before another, so most of them have to tell it.
const RUNS: u64 = 9;

#[test]
fn of_two_faults_in_threads_the_first_is_told(rt: HostRuntime) -> Result<(), Fail> {
    let alloc = rt.alloc();
    let blocks = blocks(alloc, 4, &TEXTS)?;
    let plan = plan_of(alloc, &[NO_BLOCK], &[3])?;
    let mut told = 0u64;
    for _ in 0..RUNS {
        if tells_the_engines(&rt, alloc, &blocks, &plan, looks(&rt)) {
            told = told.wrapping_add(1);
        }
    }
    holds(&rt, told > RUNS / 2, "the engine's fault, which came first");
    Ok(())
}

/// Admits no step.
#[derive(Drop)]
struct NoSteps;

impl Gate for NoSteps {
    ghost lets = { λ gate event. Unit {0} };

    ghost refuses = { λ gate event. Unit {0} };

    ghost knows = { λ gate item. Unit {0} };

    fn tries(&self) -> u64 {
        1
    }

    fn admits(&self, event: Event) -> bool {
        !matches!(event, Event::Step { .. })
    }

    fn answered(&self, _event: Event, _reply: &Reply<'_>) {}
}

#[test]
fn what_a_run_leaves_undone_is_no_fault_behind_the_gates(rt: HostRuntime) -> Result<(), Fail> {
    let alloc = rt.alloc();
    let blocks = blocks(alloc, 4, &TEXTS)?;
    let fault = directed(&rt, alloc, &blocks, QUERY, Order::Stop, &NoSteps)?;
    holds(&rt, fault == Some(ThreadFault::Gate), "the gate's fault");
    Ok(())
}
