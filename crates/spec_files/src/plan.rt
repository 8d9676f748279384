//! A permutation's plan: what is ordered next in its run.

ghost use Rattle.std.specs.Prelude.{◌≡◌, ◌<◌, ◌^◌, length, map, IfOk, OnErr, OnOk};
ghost use Rattle.spec_parser.specs.Trees.{entry_view, spec_view};
ghost use Rattle.permutation_plans.specs.Launches.{launches};
ghost use Rattle.spec_files.specs.Plans.{order_after, IsFollowing};

use permutation_plans::Launches;
use report_lines::PlanProgress;
use session_machine::{HistItem, Order};
use spec_parser::{Entry, Spec};
use std::alloc::{AllocError, Global};
use std::marker::Model;

/// What a permutation launches, by its entries and what the engine has answered so far.
#[derive(Drop)]
pub struct PlanSoFar<'s> {
    launches: Launches,
    entries: &'s [Entry],
    progress: PlanProgress,
}

impl<'s> Model for PlanSoFar<'s> {
    ghost use Rattle.std.specs.Prelude.{map};
    ghost use Rattle.spec_parser.specs.Trees.{entry_view};
    ghost use Rattle.spec_files.specs.Plans.{Planning};

    ghost Value = { Planning };

    ghost view = { λ p. record { launches = p.launches; entries = map entry_view p.entries.now; progress = p.progress } };
}

impl<'s> PlanSoFar<'s> {
    ghost use Rattle.std.specs.Prelude.{List};
    ghost use Rattle.session_machine.specs.declared.reply.HistItem.{HistItem};
    ghost use Rattle.report_lines.specs.Code.Progress.{IsSettled};
    ghost use Rattle.permutation_plans.specs.Launches.{run_of};
    ghost use Rattle.spec_files.specs.Plans.{order_after, IsFollowing};

    /// The plan of the spec's permutation that has these entries.
    pub fn new(
        alloc: Global,
        spec: &Spec<'_>,
        entries: &'s [Entry],
    ) -> Result<PlanSoFar<'s>, AllocError>
        requires { length spec.now.sessions.items < 2 ^ 32 }
        ensures plan { IfOk result (λ p. (p.launches ≡ launches (spec_view spec.now) (map entry_view entries.now)) × (p.entries ≡ map entry_view entries.now)) }
        ensures follows { IfOk result (λ p. (items : List HistItem) → IsFollowing p items) }
    {
        let launches = Launches::of(alloc, spec, entries)?;
        let progress = launches.begin(alloc, entries)?;
        Ok(PlanSoFar {
            launches,
            entries,
            progress,
        })
    }

    /// The next order, by what was kept of a prefix of the history when it was last asked for.
    pub fn go_on(&mut self, alloc: Global, items: &[HistItem<'_>]) -> Result<Order, AllocError>
        requires follows { IsFollowing self.old items.now }
        ensures order { IfOk result (λ order. order ≡ order_after self.old items.now) }
        ensures follows { OnOk result (IsFollowing self.new items.now) }
        ensures same { (self.new.launches ≡ self.old.launches) × (self.new.entries ≡ self.old.entries) }
        // Asked again after the same items it wants no memory.
        ensures settled { OnOk result (IsSettled (run_of self.old.launches self.old.entries items.now) self.new.progress) }
        ensures memory { OnErr result (IsSettled (run_of self.old.launches self.old.entries items.now) self.old.progress → ⊥) }
    {
        self.launches
            .go_on(alloc, self.entries, items, &mut self.progress)
    }
}
