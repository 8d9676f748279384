//! A plan as a driver.

ghost use Rattle.std.specs.Prelude.{[]};
ghost use Rattle.spec_files.specs.Plans.{IsFollowing};

use crate::asking::holds;
use permutations::Plan;
use row_versions::{ListStore, Versions};
use session_core::EngineState;
use session_machine::Mode;
use session_threads::{Driver, Order};
use spec_parser::{Spec, parse_spec};
use std::alloc::{AllocError, Global};
use std::test::Fail;

fn asked<V: Versions, D: Driver<V>>(
    alloc: Global,
    driver: &mut D,
    engine: &EngineState<'_, '_, V>,
) -> Result<Order, AllocError>
    requires { D.follows driver.old engine.now.history }
{
    driver.next(alloc, engine)
}

/// What a plan orders in an engine in which nothing has happened.
fn order_at_first(alloc: Global, plan: &mut Plan<'_>) -> Result<Order, AllocError>
    requires { IsFollowing plan.old [] }
{
    let engine = EngineState::new(alloc, &[], 1, Mode::Directed, ListStore::new(alloc))?;
    asked(alloc, plan, &engine)
}

/// The first order of the first permutation line of a spec of few sessions; none where there is no such line.
fn first_order(alloc: Global, spec: &Spec<'_>) -> Result<Option<Order>, AllocError> {
    let Some(entries) = spec.perms.first() else {
        return Ok(None);
    };
    if spec.sessions.len() > 64 {
        return Ok(None);
    }
    let mut plan = Plan::new(alloc, spec, entries)?;
    Ok(Some(order_at_first(alloc, &mut plan)?))
}

#[test]
fn a_plan_is_a_driver(rt: HostRuntime) -> Result<(), Fail> {
    let spec = parse_spec(rt.alloc(), "session s step a { } permutation a")?;
    let launch = Order::Launch {
        session: 1,
        block: 0,
    };
    let first = first_order(rt.alloc(), &spec)?;
    holds(&rt, first == Some(launch), "the first block");
    Ok(())
}
