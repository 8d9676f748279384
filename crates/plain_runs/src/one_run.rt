//! The run of one permutation, on one thread.

ghost use Rattle.std.specs.Prelude.{◌≡◌, ◌≢◌, [], length, Err, map, IfOk, IfErr, OnOk};
ghost use Rattle.sql_blocks.specs.Blocks.{blocks_of};
ghost use Rattle.session_core.specs.Engines.{IsOf};
ghost use Rattle.session_seats.specs.Orders.{IsDriven};
ghost use Rattle.spec_parser.specs.Trees.{entry_view, spec_view};
ghost use Rattle.spec_parser.specs.Stands.{Stands};
ghost use Rattle.permutation_plans.specs.Launches.{due_in};
ghost use Rattle.permutation_plans.specs.Regular.{IsRegular};
ghost use Rattle.spec_files.specs.Complete.{HasItsBlocks, HasItsSteps};
ghost use Rattle.spec_files.specs.Inner.Resting.{IsAtRest};
ghost use Rattle.spec_files.specs.Plans.{order_after, IsFollowing};
ghost use Rattle.plain_runs.specs.Alone.{IsOfAlone, RefusesNext};
ghost use Rattle.plain_runs.specs.Inner.Next.{IsNextEvent};

use row_versions::ListStore;
use session_core::EngineState;
use session_machine::{EngineFault, Event, Mode, Order, Turn};
use session_seats::ThreadFault;
use spec_files::{PlanSoFar, RunFault};
use spec_parser::{Entry, Spec};
use sql_blocks::Block;
use std::alloc::{AllocError, Global};

/// The event that is next: a Step of the session whose turn it is, or else what the plan orders; none once it orders no
/// more. An engine is spent where memory was refused.
fn next_event<'a, 't>(
    alloc: Global,
    plan: &mut PlanSoFar<'_>,
    engine: &EngineState<'a, 't, ListStore>,
) -> Result<Option<Event>, AllocError>
    requires follows { IsFollowing plan.old engine.now.history }
    ensures next { IfOk result (IsNextEvent engine.now (order_after plan.old engine.now.history)) }
    ensures follows { OnOk result (IsFollowing plan.new engine.now.history) }
    ensures same { (plan.new.launches ≡ plan.old.launches) × (plan.new.entries ≡ plan.old.entries) }
{
    let items = engine.history();
    let order = match engine.turn() {
        Turn::Session(session) => return Ok(Some(Event::Step { session })),
        Turn::Driver => plan.go_on(alloc, items)?,
        Turn::Spent => return Err(AllocError),
    };
    Ok(match order {
        Order::Launch { session, block } => Some(Event::Launch { session, block }),
        Order::Leave { session } => Some(Event::Leave { session }),
        Order::Stop => None,
    })
}

/// Does what the plan orders, and each Step in its turn, until it orders no more.
fn run_to_end<'a, 't>(
    alloc: Global,
    plan: &mut PlanSoFar<'_>,
    engine: &mut EngineState<'a, 't, ListStore>,
) -> Result<(), EngineFault>
    requires follows { IsFollowing plan.old engine.old.history }
    requires empty { engine.old.history ≡ [] }
    ensures driven { OnOk result (IsDriven (order_after plan.old) engine.new.history) }
    ensures rests { OnOk result (IsAtRest engine.new) }
    ensures same { OnOk result (IsOf engine.new engine.old.blocks engine.old.count engine.old.mode) }
    ensures refused { IfErr result (λ fault. fault ≢ EngineFault.Memory → RefusesNext (order_after plan.old) engine.old.blocks engine.old.count engine.old.mode fault) }
{
    loop {
        let Ok(next) = next_event(alloc, plan, engine) else {
            return Err(EngineFault::Memory);
        };
        let Some(event) = next else {
            return Ok(());
        };
        engine.perform(event)?;
    }
}

/// A new engine after the run of a permutation on the calling thread alone. It answers `Memory` where memory is refused, and
/// `Threads` with an engine's fault where the machine refuses what is next: the blocks may be any. With the blocks and the
/// steps that the spec names nothing is refused.
pub fn run_alone<'a, 't>(
    alloc: Global,
    spec: &Spec<'_>,
    blocks: &'a [Block<'t>],
    entries: &[Entry],
) -> Result<EngineState<'a, 't, ListStore>, RunFault>
    requires { Stands (spec_view spec.now) }
    ensures regular { IfOk result (λ e. IsRegular (spec_view spec.now) (blocks_of blocks.now) (map entry_view entries.now) e.history) }
    ensures unbroken { result ≢ Err RunFault.ScheduleBroken }
    ensures faults { IfErr result (IsOfAlone (due_in (spec_view spec.now) (map entry_view entries.now)) (blocks_of blocks.now) (length (spec_view spec.now).sessions)) }
    ensures sure { HasItsBlocks (spec_view spec.now) (blocks_of blocks.now) → HasItsSteps (spec_view spec.now) (map entry_view entries.now) → IfErr result (λ e. e ≡ RunFault.Memory) }
{
    let sessions = spec.sessions.len() as u32;
    let store = ListStore::new(alloc);
    let mut engine = EngineState::new(alloc, blocks, sessions, Mode::Directed, store)?;
    let mut plan = PlanSoFar::new(alloc, spec, entries)?;
    if let Err(fault) = run_to_end(alloc, &mut plan, &mut engine) {
        return Err(ThreadFault::Engine(fault).into());
    }
    Ok(engine)
}
