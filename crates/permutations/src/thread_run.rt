//! The run of one permutation, with a thread for each session.

ghost use Rattle.std.specs.Prelude.{◌≡◌, ◌≢◌, ◌≤◌, ◌||◌, [], true, All, Err, length, map, IsTrue, IfErr, IfOk, IsErrOf};
ghost use Rattle.row_versions.specs.Log.{empty_content};
ghost use Rattle.sql_blocks.specs.Blocks.{blocks_of};
ghost use Rattle.session_machine.specs.Engine.{is_quiet_in};
ghost use Rattle.spec_parser.specs.Trees.{entry_view, spec_view};
ghost use Rattle.spec_parser.specs.Stands.{Stands};
ghost use Rattle.permutation_plans.specs.Regular.{IsRegular};
ghost use Rattle.spec_files.specs.Begun.{Begun, OneSays};
ghost use Rattle.spec_files.specs.Inner.Resting.{IsAtRest};
ghost use Rattle.spec_files.specs.Plans.{IsFollowing};
ghost use Rattle.spec_files.specs.Runs.{is_of_one, is_of_run, has_broken, has_ended, IsOneTold};
ghost use Rattle.spec_files.specs.Written.{IsWritten};
ghost use Rattle.spec_files.specs.Complete.{HasItsBlocks, HasItsSteps};
ghost use Rattle.spec_files.specs.Faults.{thread_fault};
ghost use Rattle.permutations.specs.Inner.Runs.{ArePlans, RanSo};
ghost use Rattle.spec_files.specs.Stopped.{is_of_threads, IsStoppedSo};

use crate::driver::Plan;
use chain_store::ChainStore;
use iso_lexer::Sink;
use row_versions::Versions;
use session_threads::{Closed, Run, ThreadFault};
use spec_files::{Ended, RunFault, write_permutation};
use spec_parser::{Entry, Spec};
use sql_blocks::Block;
use std::alloc::Global;

/// A closed run that is quiet came to rest: what its history leads to is its state.
fn rests<V: Versions>(closed: &Closed<'_, '_, V>)
    requires { is_quiet_in closed.now.state.machine ≡ true }
    ensures { IsAtRest closed.now.state }
{
    let engine = closed.state();
    engine.history();
}

/// Each of these permutations with its plan, over an empty store: as many as memory allows, from the first on.
pub fn plans_of<'s>(
    alloc: Global,
    spec: &Spec<'_>,
    taken: &'s [Vec<Entry>],
) -> Vec<Run<ChainStore, Plan<'s>>>
    requires { Stands (spec_view spec.now) }
    ensures few { length result.items ≤ length taken.now }
    ensures plans { ArePlans (spec_view spec.now) taken.now (map (λ run. run.driver) result.items) }
    ensures empty { All (λ run. run.store ≡ empty_content) result.items }
    ensures follows { All (λ run. IsFollowing run.driver []) result.items }
{
    let mut runs = Vec::new(alloc);
    for entries in taken {
        let Ok(driver) = Plan::new(alloc, spec, entries) else {
            return runs;
        };
        let store = ChainStore::new(alloc);
        if runs.push(Run { store, driver }).is_err() {
            return runs;
        }
    }
    runs
}

/// Writes the report of a closed run.
fn write_run<V: Versions, W: Sink, N: Sink>(
    alloc: Global,
    spec: &Spec<'_>,
    entries: &[Entry],
    closed: &Closed<'_, '_, V>,
    out: &mut W,
    notes: &mut N,
) -> Result<Ended, RunFault>
    ensures { IsWritten (spec_view spec.now) (map entry_view entries.now) closed.now.state.history
        (W.put_so_far out.old) (W.put_so_far out.new) (N.put_so_far notes.old) (N.put_so_far notes.new)
        (W.failed out.old) (W.failed out.new) (N.failed notes.old) (N.failed notes.new) result }
{
    let engine = closed.state();
    write_permutation(alloc, spec, entries, engine.history(), out, notes)
}

/// A run of the permutation as it was closed. It is refused for the faults of its threads, each told as it is, and for want of memory,
/// never as `ScheduleBroken`, and for no refusal of the engine where its blocks and steps are there.
fn closed_of<'a, 't, V: Versions>(
    spec: &Spec<'_>,
    blocks: &[Block<'_>],
    entries: &[Entry],
    run: Result<Closed<'a, 't, V>, ThreadFault>,
) -> Result<Closed<'a, 't, V>, RunFault>
    requires stands { Stands (spec_view spec.now) }
    requires ran { RanSo (spec_view spec.now) (blocks_of blocks.now) (map entry_view entries.now) run }
    ensures regular { IfOk result (λ c. IsRegular (spec_view spec.now) (blocks_of blocks.now) (map entry_view entries.now) c.state.history) }
    ensures unbroken { result ≢ Err RunFault.ScheduleBroken }
    ensures faults { IfErr result (λ e. is_of_run e ≡ true) }
    ensures exact { IfErr run.entry (λ fault. result ≡ Err (thread_fault fault)) }
    ensures sure { HasItsBlocks (spec_view spec.now) (blocks_of blocks.now) → HasItsSteps (spec_view spec.now) (map entry_view entries.now) → IfErr result (λ e. is_of_threads e ≡ true) }
{
    let _ = spec.sessions.len();
    let _ = blocks.len();
    let _ = entries.len();
    let closed = run?;
    rests(&closed);
    Ok(closed)
}

/// Writes the report of a run, where it was closed; else tells why it wasn't.
pub fn tell_permutation<V: Versions, W: Sink, N: Sink>(
    alloc: Global,
    spec: &Spec<'_>,
    blocks: &[Block<'_>],
    entries: &[Entry],
    run: Result<Closed<'_, '_, V>, ThreadFault>,
    out: &mut W,
    notes: &mut N,
) -> Result<(), RunFault>
    requires stands { Stands (spec_view spec.now) }
    requires ran { RanSo (spec_view spec.now) (blocks_of blocks.now) (map entry_view entries.now) run }
    ensures told { IsTrue (has_ended result) → IsOneTold (spec_view spec.now) (blocks_of blocks.now) (map entry_view entries.now)
        (W.put_so_far out.old) (W.put_so_far out.new) (N.put_so_far notes.old) (N.put_so_far notes.new) result }
    ensures begun { Begun (OneSays (spec_view spec.now) (blocks_of blocks.now) (map entry_view entries.now))
        (W.put_so_far out.old) (W.put_so_far out.new) (N.put_so_far notes.old) (N.put_so_far notes.new) }
    ensures broken { IsTrue (has_broken result) → (out.new ≡ out.old) × (notes.new ≡ notes.old) }
    ensures unbroken { result ≢ Err RunFault.ScheduleBroken }
    ensures write { IsErrOf result RunFault.Write → (W.failed out.new || N.failed notes.new) ≡ true }
    ensures kinds { IfErr result (λ e. is_of_one e ≡ true) }
    ensures exact { IfErr run.entry (λ fault. result ≡ Err (thread_fault fault)) }
    ensures sure { IsStoppedSo (spec_view spec.now) (blocks_of blocks.now) (map entry_view entries.now) result }
{
    let closed = closed_of(spec, blocks, entries, run)?;
    let written = write_run(alloc, spec, entries, &closed, out, notes);
    closed.end();
    written?;
    Ok(())
}
