//! Runs the permutations of a spec file, by what runs one of them.

ghost use Rattle.std.specs.Prelude.{◌≡◌, ◌≢◌, ◌≤◌, ◌||◌, ℕ, List, length, Ok, Err, true, false, IsTrue, IsUtf8, IfErr, IsErrOf};
ghost use Rattle.iso_lexer.specs.declared.limits.TheConstants.{LONGEST_FILE};
ghost use Rattle.sql_blocks.specs.Blocks.{blocks_of};
ghost use Rattle.spec_parser.specs.Trees.{spec_view};
ghost use Rattle.spec_parser.specs.Stands.{Stands};
ghost use Rattle.permutation_lists.specs.Permutations.{permutations_of};
ghost use Rattle.spec_files.specs.Begun.{Begun, RunSays, FileMaySay};
ghost use Rattle.spec_files.specs.Runners.{RunsEach};
ghost use Rattle.spec_files.specs.Broken.{RunBroken, FileBroken};
ghost use Rattle.spec_files.specs.Complete.{HasItsBlocks, EachHasItsSteps, IsComplete};
ghost use Rattle.spec_files.specs.Stopped.{IsStoppedByThreads};
ghost use Rattle.spec_files.specs.Prints.{Prints, FileSays};
ghost use Rattle.spec_files.specs.Promises.{SpecIsRun};
ghost use Rattle.spec_files.specs.Runs.{is_refusal, has_broken, has_ended, tells_memory, IsTold};
ghost use Rattle.report_text.specs.Said.{Said};

use crate::ahead::Ahead;
use crate::draft::Draft;
use crate::fault::RunFault;
use crate::file::{SpecFile, read_file};
use crate::first_line::first_line;
use iso_lexer::{LONGEST_FILE, Sink, Source, read_all};
use spec_parser::Entry;
use std::alloc::Global;
use std::sync::Wait;
use std::thread::Threads;

/// Runs the permutations of a spec, up to so many.
fn run_permutations<
    W: Sink,
    N: Sink,
    F: Fn(&SpecFile<'_>, Vec<Vec<Entry>>, Vec<Draft>) -> Vec<Draft> + Sync,
    R: Threads + Wait,
>(
    rt: &R,
    alloc: Global,
    file: &SpecFile<'_>,
    out: &mut W,
    notes: &mut N,
    limit: u64,
    run: &F,
) -> Result<(), RunFault>
    requires stands { Stands (spec_view file.now.spec) }
    requires runs { RunsEach (F.pre run.now) (F.post run.now) }
    ensures told { IsTrue (has_ended result) →
        ((said : Said) × Prints (spec_view file.now.spec) (blocks_of file.now.blocks.items) limit (permutations_of (spec_view file.now.spec)) said
        × IsTold (W.put_so_far out.old) (W.put_so_far out.new) (N.put_so_far notes.old) (N.put_so_far notes.new) result said) }
    ensures begun { Begun (RunSays (spec_view file.now.spec) (blocks_of file.now.blocks.items) limit (permutations_of (spec_view file.now.spec)))
        (W.put_so_far out.old) (W.put_so_far out.new) (N.put_so_far notes.old) (N.put_so_far notes.new) }
    ensures broken { IsTrue (has_broken result) →
        RunBroken (spec_view file.now.spec) (blocks_of file.now.blocks.items) limit (permutations_of (spec_view file.now.spec))
        (W.put_so_far out.old) (W.put_so_far out.new) (N.put_so_far notes.old) (N.put_so_far notes.new) }
    ensures unbroken { result ≢ Err RunFault.ScheduleBroken }
    ensures sure { HasItsBlocks (spec_view file.now.spec) (blocks_of file.now.blocks.items) → EachHasItsSteps (spec_view file.now.spec) → IsStoppedByThreads result }
    ensures write { IsErrOf result RunFault.Write → (W.failed out.new || N.failed notes.new) ≡ true }
    ensures kinds { IfErr result (λ e. is_refusal e ≡ false) }
    ensures memory { IfErr result (λ e. tells_memory e ≡ true) }
    ensures read { result ≢ Err RunFault.Read }
{
    let mut ahead = Ahead::of(alloc, &file.spec, limit)?;
    while let Some(draft) = ahead.next(rt, alloc, file, run)? {
        draft.put(out, notes)?;
    }
    if ahead.is_over(alloc)? {
        Ok(())
    } else {
        Err(RunFault::TooManyPermutations)
    }
}

/// Runs the permutations of the spec file that these bytes are, up to so many.
fn run_file<
    W: Sink,
    N: Sink,
    F: Fn(&SpecFile<'_>, Vec<Vec<Entry>>, Vec<Draft>) -> Vec<Draft> + Sync,
    R: Threads + Wait,
>(
    rt: &R,
    alloc: Global,
    bytes: &[u8],
    out: &mut W,
    notes: &mut N,
    limit: u64,
    run: &F,
) -> Result<(), RunFault>
    requires { RunsEach (F.pre run.now) (F.post run.now) }
    ensures told { IsTrue (has_ended result) →
        ((said : Said) × FileSays bytes.now limit (Ok said)
        × IsTold (W.put_so_far out.old) (W.put_so_far out.new) (N.put_so_far notes.old) (N.put_so_far notes.new) result said) }
    ensures begun { Begun (FileMaySay bytes.now limit)
        (W.put_so_far out.old) (W.put_so_far out.new) (N.put_so_far notes.old) (N.put_so_far notes.new) }
    ensures broken { IsTrue (has_broken result) → FileBroken bytes.now limit
        (W.put_so_far out.old) (W.put_so_far out.new) (N.put_so_far notes.old) (N.put_so_far notes.new) }
    ensures refused { IfErr result (λ e. is_refusal e ≡ true → FileSays bytes.now limit (Err e)) }
    ensures untouched { IfErr result (λ e. is_refusal e ≡ true → (out.new ≡ out.old) × (notes.new ≡ notes.old)) }
    ensures memory { IfErr result (λ e. tells_memory e ≡ true) }
    ensures room { IsErrOf result RunFault.Memory → (length bytes.now ≤ LONGEST_FILE) × IsUtf8 bytes.now }
    ensures unbroken { result ≢ Err RunFault.ScheduleBroken }
    ensures sure { IsComplete bytes.now → IsStoppedByThreads result }
    ensures write { IsErrOf result RunFault.Write → (W.failed out.new || N.failed notes.new) ≡ true }
    ensures read { result ≢ Err RunFault.Read }
{
    let file = read_file(alloc, bytes)?;
    let line = first_line(alloc, &file.spec)?;
    out.put(line.as_slice())?;
    run_permutations(rt, alloc, &file, out, notes, limit, run)
}

/// Reads a spec file, has each of its permutations run by what is given to that end, and writes their reports one after the
/// other; what a teardown fails with goes to the notes. Several run side by side, no more than the limit leaves. Nothing that
/// is written depends on anything but the bytes read and the limit. The file is refused before anything is written: for its
/// length, as no UTF-8, for its tokens, as no spec, and for its blocks in the order of the file, in this order. After `limit`
/// permutations, with one more there, the run ends; so it does after a setup that fails or waits. A permutation whose run
/// comes to no end writes nothing, and the run ends in `Threads`; none ends in `ScheduleBroken`. An engine's refusal ends it
/// only where it has ended the run of a permutation.
pub fn run_spec_by<
    S: Source,
    W: Sink,
    N: Sink,
    F: Fn(&SpecFile<'_>, Vec<Vec<Entry>>, Vec<Draft>) -> Vec<Draft> + Sync,
    R: Threads + Wait,
>(
    rt: &R,
    alloc: Global,
    input: &mut S,
    out: &mut W,
    notes: &mut N,
    limit: u64,
    run: &F,
) -> Result<(), RunFault>
    requires { RunsEach (F.pre run.now) (F.post run.now) }
    ensures run { SpecIsRun S.Source W.Sink N.Sink input.old input.new out.old out.new notes.old notes.new limit result }
    ensures sure { ((file : List ℕ) → IsComplete file) → IsStoppedByThreads result }
{
    let bytes = read_all(alloc, input, LONGEST_FILE + 1)?;
    run_file(rt, alloc, &bytes, out, notes, limit, run)
}
