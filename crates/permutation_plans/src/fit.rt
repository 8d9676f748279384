//! Whether a history launched what its permutation launches.
ghost use Rattle.std.specs.Prelude.{◌≡◌, ◌↔◌, ◌<◌, ◌^◌, [], length, map, IsTrue, true, IfOk, OnOk, OnErr};
ghost use Rattle.spec_parser.specs.Trees.{spec_view, entry_view};
ghost use Rattle.report_lines.specs.Code.Progress.{KeepsFront};
ghost use Rattle.report_lines.specs.Starts.{is_order};
ghost use Rattle.permutation_plans.specs.Launches.{run_of, due_after};
ghost use Rattle.permutation_plans.specs.Code.Fits.{IsOrdered, FitsAfter};
ghost use Rattle.permutation_plans.specs.Regular.{LaunchesFit};

use crate::launches::Launches;
use report_lines::PlanProgress;
use session_machine::{Event, HistItem, Order};
use spec_parser::{Entry, Spec};
use std::alloc::{AllocError, Global};

/// Whether this order is due after these items.
fn is_due(
    alloc: Global,
    launches: &Launches,
    entries: &[Entry],
    items: &[HistItem<'_>],
    order: Order,
    progress: &mut PlanProgress,
) -> Result<bool, AllocError>
    requires follows { KeepsFront (run_of launches.now (map entry_view entries.now) items.now) progress.old }
    ensures due { IfOk result (λ due. IsTrue due ↔ (due_after launches.now (map entry_view entries.now) items.now ≡ order)) }
    ensures follows { OnOk result (KeepsFront (run_of launches.now (map entry_view entries.now) items.now) progress.new) }
{
    let due = launches.go_on(alloc, entries, items, progress)?;
    Ok(due == order)
}

/// Whether a Launch or a Leave is due after these items. A Step is none of the permutation's orders.
fn is_ordered(
    alloc: Global,
    launches: &Launches,
    entries: &[Entry],
    before: &[HistItem<'_>],
    event: Event,
    progress: &mut PlanProgress,
) -> Result<bool, AllocError>
    requires follows { KeepsFront (run_of launches.now (map entry_view entries.now) before.now) progress.old }
    ensures ordered { IfOk result (λ ordered. IsTrue ordered ↔ IsOrdered event (due_after launches.now (map entry_view entries.now) before.now)) }
    ensures follows { OnOk result (KeepsFront (run_of launches.now (map entry_view entries.now) before.now) progress.new) }
    ensures memory { OnErr result (is_order event ≡ true) }
{
    match event {
        Event::Launch { session, block } => {
            let order = Order::Launch { session, block };
            is_due(alloc, launches, entries, before, order, progress)
        }
        Event::Step { .. } => Ok(true),
        Event::Leave { session } => {
            let order = Order::Leave { session };
            is_due(alloc, launches, entries, before, order, progress)
        }
    }
}

/// Whether each Launch and Leave of the items is due after those before it, and none is due at the end.
fn fits(
    alloc: Global,
    launches: &Launches,
    entries: &[Entry],
    items: &[HistItem<'_>],
) -> Result<bool, AllocError>
    ensures { IfOk result (λ fit. IsTrue fit ↔ FitsAfter (due_after launches.now (map entry_view entries.now)) [] items.now) }
{
    let mut progress = launches.begin(alloc, entries)?;
    for (place, item) in items.iter().enumerate() {
        if !is_ordered(
            alloc,
            launches,
            entries,
            &items[..place],
            item.event,
            &mut progress,
        )? {
            return Ok(false);
        }
    }
    is_due(alloc, launches, entries, items, Order::Stop, &mut progress)
}

/// Whether a history launches what the permutation of these entries launches, all of it and in its order.
pub fn launches_fit(
    alloc: Global,
    spec: &Spec<'_>,
    entries: &[Entry],
    items: &[HistItem<'_>],
) -> Result<bool, AllocError>
    requires { length spec.now.sessions.items < 2 ^ 32 }
    ensures { IfOk result (λ fit. IsTrue fit ↔ LaunchesFit (spec_view spec.now) (map entry_view entries.now) items.now) }
{
    let launches = Launches::of(alloc, spec, entries)?;
    fits(alloc, &launches, entries, items)
}
