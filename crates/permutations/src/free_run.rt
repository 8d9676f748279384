//! The free run of a spec, with a thread for each session.

ghost use Rattle.std.specs.Prelude.{◌≡◌, ◌≢◌, true, length, Err, IfOk, IfErr};
ghost use Rattle.sql_blocks.specs.Blocks.{blocks_of};
ghost use Rattle.session_core.specs.Engines.{IsOf};
ghost use Rattle.session_machine.specs.declared.event.Mode.TheVariants.{Free};
ghost use Rattle.session_machine.specs.Engine.{IsLegal};
ghost use Rattle.spec_parser.specs.Trees.{spec_view};
ghost use Rattle.spec_parser.specs.Stands.{Stands};
ghost use Rattle.permutation_plans.specs.FreeRegular.{IsFreeRegular};
ghost use Rattle.spec_files.specs.Runs.{is_of_run};

use chain_store::ChainStore;
use session_threads::{Closed, Gate, run_free};
use spec_files::{RunFault, free_plan_of};
use spec_parser::Spec;
use sql_blocks::Block;
use std::alloc::Global;
use std::sync::Wait;
use std::thread::Threads;

/// A closed run's history is a legal one.
fn is_legal(closed: &Closed<'_, '_, ChainStore>)
    ensures { IsLegal closed.now.state.blocks closed.now.state.count closed.now.state.mode closed.now.state.history }
{
    let engine = closed.state();
    engine.history();
}

/// The closed free run of a spec: a new engine, with a thread for each session. Where its threads met no fault it is one of
/// the spec: it is refused for their faults and for want of memory, and never as `ScheduleBroken`.
pub fn free_run_of<'a, 't, G: Gate, R: Threads + Wait + Sync>(
    rt: &R,
    alloc: Global,
    spec: &Spec<'_>,
    blocks: &'a [Block<'t>],
    gate: &G,
) -> Result<Closed<'a, 't, ChainStore>, RunFault>
    requires { Stands (spec_view spec.now) }
    ensures of { IfOk result (λ c. IsOf c.state (blocks_of blocks.now) (length (spec_view spec.now).sessions) Free) }
    ensures regular { IfOk result (λ c. IsFreeRegular (spec_view spec.now) (blocks_of blocks.now) c.state.history) }
    ensures unbroken { result ≢ Err RunFault.ScheduleBroken }
    ensures faults { IfErr result (λ e. is_of_run e ≡ true) }
{
    let plan = free_plan_of(alloc, spec)?;
    let store = ChainStore::new(alloc);
    let closed = run_free(rt, alloc, blocks, &plan, store, gate)?;
    is_legal(&closed);
    Ok(closed)
}
