//! Runs a spec file, each permutation with a thread for each session.

ghost use Rattle.sql_blocks.specs.Blocks.{blocks_of};
ghost use Rattle.spec_parser.specs.Trees.{spec_view};
ghost use Rattle.spec_parser.specs.Stands.{Stands};
ghost use Rattle.spec_files.specs.Drafts.{AreDrafts, HasRoomFor, IsDraft};
ghost use Rattle.spec_files.specs.Promises.{SpecIsRun};
ghost use Rattle.spec_files.specs.Stopped.{IsStoppedByThreads};

use crate::draft::drafts_of;
use history_laws::laws::specs_have_their_blocks;
use iso_lexer::{Sink, Source};
use session_threads::Gate;
use spec_files::{Draft, RunFault, SpecFile, run_spec_by};
use spec_parser::Entry;
use std::alloc::Global;
use std::sync::Wait;
use std::thread::Threads;

/// The size of a block that is asked for and let go before a file runs: the C library learns from the largest ones of 32 MiB and
/// less.
const LARGE: usize = 31 << 20;

/// Asks for a large block and lets it go, untouched. The C library then keeps up to twice as much freed memory for what is asked
/// for next; else it gives pages back after each set of runs, and each is filled with zeros again for the next one. Where memory is
/// refused nothing changes.
fn keep_freed_memory(alloc: Global) {
    let _ = Vec::<u8>::with_capacity(alloc, LARGE);
}

/// Reads a spec file, runs its permutations, each on a new engine and with a thread for each session, and writes their
/// reports one after the other; what a teardown fails with goes to the notes. Several run side by side, no more than the
/// limit leaves, so that the gate, which is asked before each event and told each reply, sees events of several between each
/// other. Nothing that is written depends on anything but the bytes read and the limit. The file is refused before anything
/// is written: for its length, as no UTF-8, for its tokens, as no spec, and for its blocks in the order of the file, in this
/// order. After `limit` permutations, with one more there, the run ends; so it does after a setup that fails or waits. A
/// permutation whose threads come to no end writes nothing, and the run ends in `Threads`; none ends in `ScheduleBroken`, and
/// none because an engine refuses what is next.
///
/// ```
/// let mut text = Vec::new(alloc);
/// let mut notes = Vec::new(alloc);
/// let mut input = FromStd::new(spec.as_bytes());
/// let mut out = FromStd::new(&mut text);
/// let mut told = FromStd::new(&mut notes);
/// run_spec(rt, alloc, &mut input, &mut out, &mut told, 1_000, &OpenGate)?;
/// ```
pub fn run_spec<S: Source, W: Sink, N: Sink, G: Gate, R: Threads + Wait + Sync>(
    rt: &R,
    alloc: Global,
    input: &mut S,
    out: &mut W,
    notes: &mut N,
    limit: u64,
    gate: &G,
) -> Result<(), RunFault>
    ensures run { SpecIsRun S.Source W.Sink N.Sink input.old input.new out.old out.new notes.old notes.new limit result }
    ensures sure { IsStoppedByThreads result }
{
    specs_have_their_blocks();
    keep_freed_memory(alloc);
    let run = |file: &SpecFile<'_>, taken: Vec<Vec<Entry>>, room: Vec<Draft>| -> Vec<Draft>
        requires stands { Stands (spec_view file.now.spec) }
        requires room { HasRoomFor room taken.items }
        ensures { AreDrafts (IsDraft (spec_view file.now.spec) (blocks_of file.now.blocks.items)) taken.items result }
    { drafts_of(rt, alloc, &file.spec, &file.blocks, taken, room, gate) };
    run_spec_by(rt, alloc, input, out, notes, limit, &run)
}
