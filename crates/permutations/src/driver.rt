//! A permutation's plan as the driver of its run.

ghost use Rattle.std.specs.Prelude.{◌≡◌, ◌<◌, ◌^◌, length, map, IfOk};
ghost use Rattle.spec_parser.specs.Trees.{entry_view, spec_view};
ghost use Rattle.permutation_plans.specs.Launches.{launches};
ghost use Rattle.spec_files.specs.Plans.{order_after, IsFollowing};

use row_versions::Versions;
use session_core::EngineState;
use session_threads::{Driver, Order};
use spec_files::PlanSoFar;
use spec_parser::{Entry, Spec};
use std::alloc::{AllocError, Global};
use std::marker::Model;

/// A permutation's plan, whose orders an engine is given.
#[derive(Drop)]
pub struct Plan<'s> {
    plan: PlanSoFar<'s>,
}

impl<'s> Model for Plan<'s> {
    ghost use Rattle.spec_files.specs.Plans.{Planning};

    ghost Value = { Planning };

    ghost view = { λ d. d.plan };
}

impl<'s> Plan<'s> {
    ghost use Rattle.std.specs.Prelude.{List};
    ghost use Rattle.session_machine.specs.declared.reply.HistItem.{HistItem};
    ghost use Rattle.spec_files.specs.Plans.{IsFollowing};

    /// The driver of the spec's permutation that has these entries.
    pub fn new(alloc: Global, spec: &Spec<'_>, entries: &'s [Entry]) -> Result<Plan<'s>, AllocError>
        requires { length spec.now.sessions.items < 2 ^ 32 }
        ensures plan { IfOk result (λ p. (p.launches ≡ launches (spec_view spec.now) (map entry_view entries.now)) × (p.entries ≡ map entry_view entries.now)) }
        ensures follows { IfOk result (λ p. (items : List HistItem) → IsFollowing p items) }
    {
        let plan = PlanSoFar::new(alloc, spec, entries)?;
        Ok(Plan { plan })
    }
}

impl<'s, V: Versions> Driver<V> for Plan<'s> {
    ghost order_after = { order_after };

    ghost follows = { IsFollowing };

    fn next(
        &mut self,
        alloc: Global,
        engine: &EngineState<'_, '_, V>,
    ) -> Result<Order, AllocError> {
        self.plan.go_on(alloc, engine.history())
    }

    ghost use Rattle.spec_files.specs.Code.Following.{follows_longer};

    ghost goes_on = { λ plan items more follows. follows_longer _ more plan.progress follows };
}
