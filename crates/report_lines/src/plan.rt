//! The next order of a permutation, from its history alone.
ghost use Rattle.std.specs.Prelude.{◌≡◌, ◌≢◌, ◌+◌, ◌-◌, ◌<◌, ◌≤◌, ◌^◌, ◌⊎◌, ℕ, [], not, ◌&&◌, length, map, slice_get, unwrap_or, IfOk, OnOk, OnErr, drop, Option, Some, None};
ghost use Rattle.std.specs.Option.{option_map_or};
ghost use Rattle.spec_parser.specs.Trees.{entry_view};
ghost use Rattle.report_lines.specs.Due.{is_over, went_well, orders, launch, due_setup, teardowns_so_far, due_entry, due};
ghost use Rattle.report_lines.specs.Inner.Due.{due_last};
ghost use Rattle.report_lines.specs.Code.Progress.{KeepsFront, IsSettled};

use crate::history::{PlannedLaunch, RunState, TeardownsSoFar};
use crate::progress::PlanProgress;
use crate::segments::Segments;
use session_machine::{HistItem, Order};
use spec_parser::Entry;
use std::alloc::{AllocError, Global};
use std::marker::Model;

/// The first setup that is not there yet, or a stop after one that failed or waits.
fn due_setup(segments: &Segments<'_>, count: usize, setups: &[PlannedLaunch]) -> Option<Order>
    ensures { result ≡ due_setup segments.now count 0 setups.now }
{
    for (number, setup) in setups.iter().enumerate() {
        if count <= number {
            return Some(Order::Launch {
                session: setup.session,
                block: setup.block,
            });
        }
        if !segments.went_well(number, setup.session) {
            return Some(Order::Stop);
        }
    }
    None
}

/// The teardowns so far.
fn teardowns_so_far(
    segments: &Segments<'_>,
    count: usize,
    first: usize,
    teardowns: &[PlannedLaunch],
) -> TeardownsSoFar
    ensures { result ≡ teardowns_so_far segments.now count first teardowns.now }
{
    let mut number = first;
    for teardown in teardowns {
        if count <= number {
            return TeardownsSoFar {
                orders: number,
                due: Some(Order::Launch {
                    session: teardown.session,
                    block: teardown.block,
                }),
            };
        }
        if segments.is_over(number, teardown.session) {
            number += 1;
        } else if count <= number + 1 {
            return TeardownsSoFar {
                orders: number,
                due: Some(Order::Leave {
                    session: teardown.session,
                }),
            };
        } else {
            number += 2;
        }
    }
    TeardownsSoFar {
        orders: number,
        due: None,
    }
}

/// What a permutation launches: the blocks of its setups, of its entries, and of its teardowns. Each of the sessions
/// leaves before the last teardown, that of the whole file.
#[derive(Clone, Copy)]
pub struct Schedule<'a> {
    pub setups: &'a [PlannedLaunch],
    pub steps: &'a [PlannedLaunch],
    pub teardowns: &'a [PlannedLaunch],
    pub sessions: u32,
    pub last: &'a [PlannedLaunch],
}

/// A permutation with its history.
#[derive(Drop)]
pub struct PlannedRun<'a> {
    setups: &'a [PlannedLaunch],
    entries: &'a [Entry],
    items: &'a [HistItem<'a>],
    steps: &'a [PlannedLaunch],
    teardowns: &'a [PlannedLaunch],
    sessions: u32,
    last: &'a [PlannedLaunch],
}

impl<'a> Model for PlannedRun<'a> {
    ghost use Rattle.std.specs.Prelude.{◌+◌, ◌<◌, ◌^◌, length, map};
    ghost use Rattle.spec_parser.specs.Trees.{entry_view};
    ghost use Rattle.report_lines.specs.Due.{Planned};

    ghost Value = { Planned };

    ghost view = { λ p. record {
      launches = record { setups = p.setups.now; steps = p.steps.now; teardowns = p.teardowns.now; sessions = p.sessions; last = p.last.now };
      run = record { entries = map entry_view p.entries.now; items = p.items.now; setups = length p.setups.now };
    } };

    ghost invariant = { λ p. length p.setups.now + length p.entries.now + 1 < 2 ^ 64 };
}

impl<'a> PlannedRun<'a> {
    ghost use Rattle.report_lines.specs.Due.{orders, due_entry, due};
    ghost use Rattle.report_lines.specs.Inner.Due.{due_last};

    /// A permutation of these entries, with the launches of their steps and of what stands around them, and its history.
    pub fn new(
        entries: &'a [Entry],
        items: &'a [HistItem<'a>],
        schedule: &Schedule<'a>,
    ) -> PlannedRun<'a>
        requires { length schedule.now.setups.now + length entries.now + 1 < 2 ^ 64 }
        ensures { result ≡ record {
          launches = record {
            setups = schedule.now.setups.now;
            steps = schedule.now.steps.now;
            teardowns = schedule.now.teardowns.now;
            sessions = schedule.now.sessions;
            last = schedule.now.last.now;
          };
          run = record { entries = map entry_view entries.now; items = items.now; setups = length schedule.now.setups.now };
        } }
    {
        PlannedRun {
            setups: schedule.setups,
            entries,
            items,
            steps: schedule.steps,
            teardowns: schedule.teardowns,
            sessions: schedule.sessions,
            last: schedule.last,
        }
    }

    /// What is due after the teardowns of sessions.
    fn due_last(&self, segments: &Segments<'_>, count: usize, after: TeardownsSoFar) -> Order
        ensures { result ≡ due_last self.now.launches segments.now count after }
    {
        if let Some(order) = after.due {
            return order;
        }
        let sessions = self.sessions as usize;
        if count < after.orders {
            return Order::Leave { session: 1 };
        }
        if count - after.orders < sessions {
            return Order::Leave {
                session: (count - after.orders) as u32 + 1,
            };
        }
        match teardowns_so_far(segments, count, after.orders + sessions, self.last).due {
            Some(order) => order,
            None => Order::Stop,
        }
    }

    /// What is due once the setups are there.
    fn due_entry(&self, segments: &Segments<'_>, count: usize, state: RunState) -> Order
        ensures { result ≡ due_entry self.now.launches segments.now count state }
    {
        match state {
            RunState::Due(entry) => entry_order(self.steps, entry),
            RunState::Invalid => Order::Stop,
            RunState::Whole => self.due_last(
                segments,
                count,
                teardowns_so_far(
                    segments,
                    count,
                    self.setups.len() + self.steps.len(),
                    self.teardowns,
                ),
            ),
        }
    }

    /// The next order. Fails only where memory is refused.
    pub fn due(&self, alloc: Global) -> Result<Order, AllocError>
        ensures order { IfOk result (λ order. order ≡ due self.now.launches self.now.run (orders self.now.run.items)) }
        // Without entries and items there is nothing to keep.
        ensures memory { OnErr result ((self.now.run.entries ≢ []) ⊎ (self.now.run.items ≢ [])) }
    {
        let mut progress = PlanProgress::new(alloc, self.entries, self.setups.len())?;
        self.go_on(alloc, &mut progress)
    }

    /// The next order, by what was kept of a prefix of the history, such as nothing; the same is then kept of the whole.
    /// Fails only where memory is refused.
    pub fn go_on(&self, alloc: Global, progress: &mut PlanProgress) -> Result<Order, AllocError>
        requires follows { KeepsFront self.now.run progress.old }
        ensures order { IfOk result (λ order. order ≡ due self.now.launches self.now.run (orders self.now.run.items)) }
        ensures follows { OnOk result (KeepsFront self.now.run progress.new) }
        ensures settled { OnOk result (IsSettled self.now.run progress.new) }
        // Asked again after the same items it wants no memory.
        ensures memory { OnErr result (IsSettled self.now.run progress.old → ⊥) }
    {
        progress.reach(alloc, self.entries, self.setups.len(), self.items)?;
        Ok(due_by(self, progress))
    }
}

/// The next order, by what is kept of the whole history.
fn due_by<'a>(plan: &'a PlannedRun<'a>, progress: &'a PlanProgress) -> Order
    requires { IsSettled plan.now.run progress.now }
    ensures { result ≡ due plan.now.launches plan.now.run (orders plan.now.run.items) }
{
    let segments = progress.segments(plan.items);
    let count = segments.count();
    match due_setup(&segments, count, plan.setups) {
        Some(order) => order,
        None => plan.due_entry(&segments, count, progress.state()),
    }
}

fn entry_order(steps: &[PlannedLaunch], entry: usize) -> Order
    ensures { result ≡ option_map_or launch (slice_get steps.now entry) Order.Stop }
{
    match steps.get(entry) {
        Some(step) => Order::Launch {
            session: step.session,
            block: step.block,
        },
        None => Order::Stop,
    }
}
