//! Runs a spec file freely: each session's steps in their order, with no order between sessions.

ghost use Rattle.sql_blocks.specs.Blocks.{blocks_of};
ghost use Rattle.spec_parser.specs.Trees.{spec_view};
ghost use Rattle.spec_parser.specs.Stands.{Stands};
ghost use Rattle.spec_files.specs.FreeRuns.{IsFreeWritten};
ghost use Rattle.spec_files.specs.Promises.{SpecIsRunFreely};
ghost use Rattle.spec_files.specs.Runners.{RanFreely};
ghost use Rattle.permutations.specs.Telling.{Tells};

use crate::free_run::free_run_of;
use chain_store::ChainStore;
use iso_lexer::{Sink, Source};
use session_threads::{Closed, Gate};
use spec_files::{RunFault, SpecFile, free_spec_by, write_free};
use spec_parser::Spec;
use sql_blocks::Block;
use std::alloc::Global;
use std::sync::Wait;
use std::thread::Threads;

/// Writes the text of a closed free run that it is lent, and its notes behind it.
pub fn write_closed<W: Sink, N: Sink>(
    alloc: Global,
    spec: &Spec<'_>,
    closed: &Closed<'_, '_, ChainStore>,
    out: &mut W,
    notes: &mut N,
) -> Result<(), RunFault>
    ensures { IsFreeWritten (spec_view spec.now) closed.now.state.history
        (W.put_so_far out.old) (W.put_so_far out.new) (N.put_so_far notes.old) (N.put_so_far notes.new)
        (W.failed out.old) (W.failed out.new) (N.failed notes.old) (N.failed notes.new) result }
{
    let engine = closed.state();
    write_free(alloc, spec, engine.history(), out, notes)
}

/// Writes the text of the run that it is given, and of no other. Of a run that came to no end the fault is answered as it is,
/// and nothing is written.
pub fn tell_run<'a, 't, W: Sink, N: Sink>(
    alloc: Global,
    spec: &Spec<'_>,
    run: Result<Closed<'a, 't, ChainStore>, RunFault>,
    out: &mut W,
    notes: &mut N,
) -> Result<(), RunFault>
    ensures { Tells W.Sink N.Sink (spec_view spec.now) run.entry out.old out.new notes.old notes.new result }
{
    let closed = run?;
    let written = write_closed(alloc, spec, &closed, out, notes);
    closed.end();
    written
}

/// Runs a spec freely on a new engine, and writes the text of its history once the run is closed.
pub fn run_freely<W: Sink, N: Sink, G: Gate, R: Threads + Wait + Sync>(
    rt: &R,
    alloc: Global,
    spec: &Spec<'_>,
    blocks: &[Block<'_>],
    out: &mut W,
    notes: &mut N,
    gate: &G,
) -> Result<(), RunFault>
    requires { Stands (spec_view spec.now) }
    ensures { RanFreely W.Sink N.Sink (spec_view spec.now) (blocks_of blocks.now) out.old out.new notes.old notes.new result }
{
    let run = free_run_of(rt, alloc, spec, blocks, gate);
    tell_run(alloc, spec, run, out, notes)
}

/// Reads a spec file and runs it freely: the setups one after the other in the calling thread, then each session's steps and
/// its teardown in a thread of its own, with no order between sessions, and last the teardown of the file. Then it writes
/// the text of what happened, which another run of the same file may not repeat; permutation lines count for nothing. The
/// file is refused as by `run_spec`. Nothing is written before the run is closed; a setup that fails or waits ends it, and so
/// do threads that come to no end, in `Threads`; none ends in `ScheduleBroken`.
pub fn free_spec<S: Source, W: Sink, N: Sink, G: Gate, R: Threads + Wait + Sync>(
    rt: &R,
    alloc: Global,
    input: &mut S,
    out: &mut W,
    notes: &mut N,
    gate: &G,
) -> Result<(), RunFault>
    ensures { SpecIsRunFreely S.Source W.Sink N.Sink input.old input.new out.old out.new notes.old notes.new result }
{
    let run = |file: &SpecFile<'_>, out: &mut W, notes: &mut N| -> Result<(), RunFault>
        requires { Stands (spec_view file.now.spec) }
        ensures { RanFreely W.Sink N.Sink (spec_view file.now.spec) (blocks_of file.now.blocks.items) out.old out.new notes.old notes.new result }
    { run_freely(rt, alloc, &file.spec, &file.blocks, out, notes, gate) };
    free_spec_by(alloc, input, out, notes, run)
}
