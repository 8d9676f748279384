//! Drafts of permutations, before their turn comes.

ghost use Rattle.std.specs.Prelude.{◌≡◌, Err, IfNone, IfSome};
ghost use Rattle.sql_blocks.specs.Blocks.{blocks_of};
ghost use Rattle.spec_parser.specs.Trees.{spec_view};
ghost use Rattle.spec_parser.specs.Stands.{Stands};
ghost use Rattle.spec_files.specs.Drafts.{AreDrafts, HasRoomFor, IsDraft};

use crate::report::{Report, reports_of};
use session_threads::Gate;
use spec_files::{Draft, RunFault};
use spec_parser::{Entry, Spec};
use sql_blocks::Block;
use std::alloc::Global;
use std::sync::Wait;
use std::thread::Threads;

/// The draft of a permutation, by its report; where there is none, memory was refused.
fn draft_of(
    alloc: Global,
    spec: &Spec<'_>,
    blocks: &[Block<'_>],
    entries: Vec<Entry>,
    report: Option<Report>,
) -> Draft
    requires report { IfSome report (λ report. IsDraft (spec_view spec.now) (blocks_of blocks.now) (record { entries = entries; text = report.text; notes = report.notes; result = report.result })) }
    ensures draft { IsDraft (spec_view spec.now) (blocks_of blocks.now) result }
    ensures entries { result.entries ≡ entries }
    ensures lacking { IfNone report (result.result ≡ Err RunFault.Memory) }
{
    let _ = spec.sessions.len();
    let _ = blocks.len();
    let report = match report {
        Some(report) => report,
        None => Report::lacking(alloc),
    };
    Draft {
        entries,
        text: report.text,
        notes: report.notes,
        result: report.result,
    }
}

/// Runs these permutations side by side, and writes their reports in memory, in the room that there is for them. None is
/// stopped by what an engine refuses, where the blocks and steps are there.
pub fn drafts_of<G: Gate, R: Threads + Wait + Sync>(
    rt: &R,
    alloc: Global,
    spec: &Spec<'_>,
    blocks: &[Block<'_>],
    taken: Vec<Vec<Entry>>,
    mut drafts: Vec<Draft>,
    gate: &G,
) -> Vec<Draft>
    requires stands { Stands (spec_view spec.now) }
    requires room { HasRoomFor drafts taken.items }
    ensures { AreDrafts (IsDraft (spec_view spec.now) (blocks_of blocks.now)) taken.items result }
{
    let mut reports = reports_of(rt, alloc, spec, blocks, &taken, gate).into_iter();
    for entries in taken {
        let report = reports.next();
        let draft = draft_of(alloc, spec, blocks, entries, report);
        drafts.push(draft).unwrap();
    }
    drafts
}
