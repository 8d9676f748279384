//! What is said of the steps of histories made by hand, and the next order.

ghost use Rattle.std.specs.Prelude.{◌+◌, ◌<◌, ◌^◌, length};

use crate::histories::Part::{self, Ends, To};
use crate::histories::{history, holds, once};
use report_lines::{Line, PermutationRun, PlannedLaunch, PlannedRun, RunState, Schedule, report};
use session_machine::{HistItem, Order};
use spec_parser::{Entry, Marker};
use std::alloc::{AllocError, Global};

fn entry(alloc: Global, step: u32, markers: &[Marker]) -> Result<Entry, AllocError> {
    Ok(Entry {
        session: 1,
        step,
        markers: Vec::from_slice(alloc, markers)?,
    })
}

/// Two steps of session 1, of which the first has these markers.
fn two_steps(alloc: Global, markers: &[Marker]) -> Result<[Entry; 2], AllocError> {
    let first = entry(alloc, 0, markers)?;
    let second = entry(alloc, 1, &[])?;
    Ok([first, second])
}

/// The lines are these, and the second step is due.
fn lines_are(
    alloc: Global,
    entries: &[Entry],
    items: &[HistItem<'_>],
    lines: &[Line],
) -> Result<bool, AllocError>
    requires { length entries.now + 3 < 2 ^ 64 }
{
    let run = PermutationRun::new(alloc, entries, items, 0)?;
    let (so_far, state) = report(alloc, &run)?;
    Ok(so_far.lines() == lines && state == RunState::Due(1))
}

fn lines_behind(
    alloc: Global,
    entries: &[Entry],
    parts: &[Part],
    lines: &[Line],
) -> Result<bool, AllocError>
    requires { length entries.now + 3 < 2 ^ 64 }
{
    let items = history(alloc, &[once(parts)], 1)?;
    lines_are(alloc, entries, &items, lines)
}

/// The lines of a(*) b behind these parts.
fn says(alloc: Global, parts: &[Part], lines: &[Line]) -> Result<bool, AllocError> {
    let entries = two_steps(alloc, &[Marker::Star])?;
    lines_behind(alloc, &entries, parts, lines)
}

#[test]
fn a_step_is_reported_before_its_session_goes_on(rt: HostRuntime) -> Result<(), AllocError> {
    let lines = [
        Line::Waiting { entry: 0 },
        Line::Completed { entry: 0, seen: 2 },
    ];
    holds(&rt, says(rt.alloc(), &[To(1, 0), Ends(1)], &lines)?);
    Ok(())
}

/// The blocks of two steps, and nothing else.
const TWO_BLOCKS: Schedule<'static> = Schedule {
    setups: &[],
    steps: &[
        PlannedLaunch {
            session: 1,
            block: 0,
        },
        PlannedLaunch {
            session: 1,
            block: 1,
        },
    ],
    teardowns: &[],
    sessions: 1,
    last: &[],
};

/// A plan holds entries and items for one lifetime.
fn due<'a>(
    alloc: Global,
    entries: &'a [Entry],
    items: &'a [HistItem<'a>],
) -> Result<Order, AllocError>
    requires { length entries.now + 3 < 2 ^ 64 }
{
    PlannedRun::new(entries, items, &TWO_BLOCKS).due(alloc)
}

fn due_of(alloc: Global, entries: &[Entry], items: &[HistItem<'_>]) -> Result<Order, AllocError>
    requires { length entries.now + 3 < 2 ^ 64 }
{
    due(alloc, entries, items)
}

fn due_behind(alloc: Global, entries: &[Entry], parts: &[Part]) -> Result<Order, AllocError>
    requires { length entries.now + 3 < 2 ^ 64 }
{
    let items = history(alloc, &[once(parts)], 1)?;
    due_of(alloc, entries, &items)
}

/// What is due behind these parts, of the two steps.
fn next(alloc: Global, markers: &[Marker], parts: &[Part]) -> Result<Order, AllocError> {
    let entries = two_steps(alloc, markers)?;
    due_behind(alloc, &entries, parts)
}

fn launch(block: u32) -> Order {
    Order::Launch { session: 1, block }
}

#[test]
fn the_second_step_is_due_after_the_first(rt: HostRuntime) -> Result<(), AllocError> {
    let order = next(rt.alloc(), &[Marker::Star], &[To(1, 0), Ends(1)])?;
    holds(&rt, order == launch(1));
    Ok(())
}

#[test]
fn the_first_step_is_due_before_anything_has_come(rt: HostRuntime) -> Result<(), AllocError> {
    holds(&rt, next(rt.alloc(), &[], &[])? == launch(0));
    Ok(())
}
