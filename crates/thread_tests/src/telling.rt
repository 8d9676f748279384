//! What the gate of a directed run is told, beside the seats.

ghost use Rattle.std.specs.Prelude.{[]};
ghost use Rattle.spec_files.specs.Plans.{IsFollowing};

use crate::asking::holds;
use crate::gates::Telling;
use crate::signs::sign_of_all;
use permutations::Plan;
use row_versions::ListStore;
use session_threads::{Seat, ThreadFault, run_directed};
use spec_parser::{Spec, parse_spec};
use sql_parser::{Block, Role, parse_block};
use std::alloc::Global;
use std::sync::Wait;
use std::sync::atomic::Ordering;
use std::test::Fail;
use std::thread::Threads;

/// Two sessions whose statements answer different values under different titles, and fail in different ways.
const TWO: &str =
    "session s1 step a { SELECT 11; SELECT -12 AS x; } step b { SELECT 13 AS y, NULL; SELECT z; }
session s2 step c { SELECT 21 AS x; } step d { SELECT 'a'; SELECT 1/0; }
permutation c a d b";

/// The blocks of a spec of sessions that have steps alone.
fn step_blocks<'t>(alloc: Global, spec: &Spec<'t>) -> Result<Vec<Block<'t>>, Fail> {
    let mut blocks = Vec::new(alloc);
    for session in &spec.sessions {
        for step in &session.steps {
            if step.part.sql.len() > 1_000 {
                return Err(Fail::new("a long block"));
            }
            blocks.push(parse_block(alloc, step.part.sql, Role::Session)?)?;
        }
    }
    Ok(blocks)
}

/// Whether the gate was told what the seats of sessions 1 and 2 hold.
pub fn was_told(gate: &Telling, seats: &[Seat<'_>]) -> bool {
    let [_, first, second] = seats else {
        return false;
    };
    let told = [&gate.first, &gate.second].map(|sign| sign.load(Ordering::SeqCst));
    told == [sign_of_all(&first.items), sign_of_all(&second.items)] && told[0] != told[1]
}

fn tells<R: Threads + Wait + Sync>(
    rt: &R,
    alloc: Global,
    blocks: &[Block<'_>],
    plan: Plan<'_>,
) -> Result<bool, ThreadFault>
    requires follows { IsFollowing plan [] }
{
    let gate = Telling::new();
    let store = ListStore::new(alloc);
    let closed = run_directed(rt, alloc, blocks, 2, store, plan, &gate)?;
    Ok(was_told(&gate, closed.seats()))
}

/// Whether the gate of a run of the first permutation line is told what the seats hold.
fn tells_the_seats<R: Threads + Wait + Sync>(
    rt: &R,
    alloc: Global,
    spec: &Spec<'_>,
) -> Result<bool, Fail> {
    let blocks = step_blocks(alloc, spec)?;
    let Some(entries) = spec.perms.first() else {
        return Ok(false);
    };
    if spec.sessions.len() > 64 {
        return Ok(false);
    }
    let plan = Plan::new(alloc, spec, entries)?;
    Ok(tells(rt, alloc, &blocks, plan)?)
}

#[test]
fn workers_tell_what_their_seats_hold(rt: HostRuntime) -> Result<(), Fail> {
    let spec = parse_spec(rt.alloc(), TWO)?;
    let tells = tells_the_seats(&rt, rt.alloc(), &spec)?;
    holds(&rt, tells, "what was told is what the seats hold");
    Ok(())
}
