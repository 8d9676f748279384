//! The report of each permutation's run, in memory.

ghost use Rattle.std.specs.Prelude.{◌≡◌, ◌≢◌, ◌⊎◌, ℕ, Err, IfErr, IfSome, Result, length, slice_get};
ghost use Rattle.sql_blocks.specs.Blocks.{blocks_of};
ghost use Rattle.session_seats.specs.declared.fault.ThreadFault.{ThreadFault as Fault};
ghost use Rattle.session_crews.specs.Crews.{EachFrom};
ghost use Rattle.session_threads.specs.Closing.{ClosedOf};
ghost use Rattle.session_threads.specs.Crews.{CameBy, Waits};
ghost use Rattle.spec_parser.specs.Trees.{perm_view, spec_view};
ghost use Rattle.spec_parser.specs.Stands.{Stands};
ghost use Rattle.spec_files.specs.Drafts.{IsDraft};
ghost use Rattle.spec_files.specs.Faults.{thread_fault};
ghost use Rattle.spec_files.specs.Plans.{IsFollowing, order_after};
ghost use Rattle.permutations.specs.Inner.Runs.{AreReports, RanSo};

use crate::driver::Plan;
use crate::thread_run::{plans_of, tell_permutation};
use chain_store::ChainStore;
use iso_lexer::Page;
use row_versions::Versions;
use session_seats::Orderings;
use session_threads::{Closed, Gate, Reports, Run, ThreadFault, run_each};
use spec_files::RunFault;
use spec_parser::{Entry, Spec};
use sql_blocks::Block;
use std::alloc::Global;
use std::marker::Brand;
use std::sync::Wait;
use std::thread::Threads;

/// The report and the notes of a permutation, and what its run came to.
#[derive(Drop)]
pub struct Report {
    pub text: Page,
    pub notes: Page,
    pub result: Result<(), RunFault>,
}

impl Report {
    /// Of a run for which memory was refused.
    pub fn lacking(alloc: Global) -> Report
        ensures memory { result.result ≡ Err RunFault.Memory }
        ensures draft { (spec : _) (blocks : _) (entries : _) → IsDraft spec blocks (record { entries = entries; text = result.text; notes = result.notes; result = result.result }) }
    {
        Report {
            text: Page::new(alloc),
            notes: Page::new(alloc),
            result: Err(RunFault::Memory),
        }
    }
}

/// What a run came to whose report is in memory: a page fails as memory is refused.
fn in_memory(told: Result<(), RunFault>) -> Result<(), RunFault>
    ensures one_of { (result ≡ told) ⊎ (result ≡ Err RunFault.Memory) }
    ensures unwritten { result ≢ Err RunFault.Write }
    ensures others { told ≢ Err RunFault.Write → result ≡ told }
{
    match told {
        Err(RunFault::Write) => Err(RunFault::Memory),
        other => other,
    }
}

/// The report of a run, in memory.
fn report_of<V: Versions>(
    alloc: Global,
    spec: &Spec<'_>,
    blocks: &[Block<'_>],
    entries: &Vec<Entry>,
    run: Result<Closed<'_, '_, V>, ThreadFault>,
) -> Report
    requires stands { Stands (spec_view spec.now) }
    requires ran { RanSo (spec_view spec.now) (blocks_of blocks.now) (perm_view entries.now) run }
    ensures draft { IsDraft (spec_view spec.now) (blocks_of blocks.now) (record { entries = entries.now; text = result.text; notes = result.notes; result = result.result }) }
    ensures exact { IfErr run.entry (λ fault. result.result ≡ Err (thread_fault fault)) }
{
    let mut text = Page::new(alloc);
    let mut notes = Page::new(alloc);
    let told = tell_permutation(alloc, spec, blocks, entries, run, &mut text, &mut notes);
    Report {
        text,
        notes,
        result: in_memory(told),
    }
}

/// Reports the runs of these permutations, each at its place.
#[derive(Drop)]
struct Reporter<'k, 's, 'b> {
    alloc: Global,
    spec: &'k Spec<'s>,
    blocks: &'k [Block<'b>],
    taken: &'k [Vec<Entry>],
}

impl<'k, 's, 'b> Reports<Report> for Reporter<'k, 's, 'b> {
    ghost may_tell = { λ r place run. Stands (spec_view r.spec.now) × IfSome (slice_get r.taken.now place) (λ entries. RanSo (spec_view r.spec.now) (blocks_of r.blocks.now) (perm_view entries) run) };

    ghost keeps = { λ r place report. IfSome (slice_get r.taken.now place)
        (λ entries. IsDraft (spec_view r.spec.now) (blocks_of r.blocks.now) (record { entries = entries; text = report.text; notes = report.notes; result = report.result })) };

    fn report<V: Versions>(
        &self,
        place: usize,
        run: Result<Closed<'_, '_, V>, ThreadFault>,
    ) -> Report
        requires { Stands (spec_view self.now.spec.now) × IfSome (slice_get self.now.taken.now place) (λ entries. RanSo (spec_view self.now.spec.now) (blocks_of self.now.blocks.now) (perm_view entries) run) }
        ensures { IfSome (slice_get self.now.taken.now place)
            (λ entries. IsDraft (spec_view self.now.spec.now) (blocks_of self.now.blocks.now) (record { entries = entries; text = result.text; notes = result.notes; result = result.result })) }
    {
        match self.taken.get(place) {
            Some(entries) => report_of(self.alloc, self.spec, self.blocks, entries, run),
            None => Report::lacking(self.alloc),
        }
    }
}

/// The reports of these permutations, where the type says which orders are whose.
fn reports_placed<O: Orderings + Send, G: Gate, R: Threads + Wait + Sync>(
    rt: &R,
    alloc: Global,
    spec: &Spec<'_>,
    blocks: &[Block<'_>],
    taken: &[Vec<Entry>],
    runs: Vec<Run<ChainStore, Plan<'_>>>,
    gate: &G,
) -> Vec<Report>
    requires stands { Stands (spec_view spec.now) }
    requires waits { EachFrom (Waits (λ store. store) order_after IsFollowing O.orders) 0 runs.items }
    requires count { length runs.items ≡ length taken.now }
    requires comes { (place : ℕ) (run : Result ClosedOf Fault) → CameBy (blocks_of blocks.now) (length (spec_view spec.now).sessions) (O.orders place) run
        → IfSome (slice_get taken.now place) (λ entries. RanSo (spec_view spec.now) (blocks_of blocks.now) (perm_view entries) run) }
    ensures { AreReports (λ entries report. IsDraft (spec_view spec.now) (blocks_of blocks.now) (record { entries = entries; text = report.text; notes = report.notes; result = report.result })) taken.now result.items }
{
    let sessions = spec.sessions.len() as u32;
    let reporter = Reporter {
        alloc,
        spec,
        blocks,
        taken,
    };
    let kept = run_each::<ChainStore, O, Plan<'_>, Report, _, G, R>(
        rt, alloc, blocks, sessions, runs, &reporter, gate,
    );
    match kept {
        Ok(reports) => reports,
        Err(_) => Vec::new(alloc),
    }
}

/// The reports of these permutations, whose runs one crew serves. Their launches are the permutations': what a plan doesn't give is
/// never launched, and an engine refuses only what one gives. Where memory is refused there are fewer, from the first on.
pub fn reports_of<G: Gate, R: Threads + Wait + Sync>(
    rt: &R,
    alloc: Global,
    spec: &Spec<'_>,
    blocks: &[Block<'_>],
    taken: &[Vec<Entry>],
    gate: &G,
) -> Vec<Report>
    requires { Stands (spec_view spec.now) }
    ensures { AreReports (λ entries report. IsDraft (spec_view spec.now) (blocks_of blocks.now) (record { entries = entries; text = report.text; notes = report.notes; result = report.result })) taken.now result.items }
{
    let runs = plans_of(alloc, spec, taken);
    let taken = &taken[..runs.len()];
    reports_placed::<Brand, G, R>(rt, alloc, spec, blocks, taken, runs, gate)
}
