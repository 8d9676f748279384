//! Runs a spec file freely, by what runs a spec: each session's steps in their order, with no order between sessions.

ghost use Rattle.std.specs.Prelude.{◌≡◌, ◌≢◌, ◌≤◌, ◌||◌, length, Err, true, IsTrue, IsUtf8, IfErr, IsErrOf};
ghost use Rattle.iso_lexer.specs.declared.limits.TheConstants.{LONGEST_FILE};
ghost use Rattle.spec_files.specs.Begun.{Begun, FileSaysFreely};
ghost use Rattle.spec_files.specs.Files.{FileIs};
ghost use Rattle.spec_files.specs.FreeRuns.{FileFreeTold};
ghost use Rattle.spec_files.specs.Promises.{SpecIsRunFreely};
ghost use Rattle.spec_files.specs.Runners.{RunsFreely};
ghost use Rattle.spec_files.specs.Runs.{is_refusal, has_broken, has_ended, tells_memory};

use crate::fault::RunFault;
use crate::file::{SpecFile, read_file};
use iso_lexer::{LONGEST_FILE, Sink, Source, read_all};
use std::alloc::Global;

/// Runs the spec file freely that these bytes are.
fn run_file_freely<
    W: Sink,
    N: Sink,
    F: FnOnce(&SpecFile<'_>, &mut W, &mut N) -> Result<(), RunFault>,
>(alloc: Global, bytes: &[u8], out: &mut W, notes: &mut N, run: F) -> Result<(), RunFault>
    requires { RunsFreely W.Sink N.Sink (F.pre run) (F.post run) }
    ensures told { IsTrue (has_ended result) → FileFreeTold bytes.now
        (W.put_so_far out.old) (W.put_so_far out.new) (N.put_so_far notes.old) (N.put_so_far notes.new) result }
    ensures refused { IfErr result (λ e. is_refusal e ≡ true → FileIs bytes.now (Err e)) }
    ensures untouched { IfErr result (λ e. is_refusal e ≡ true → (out.new ≡ out.old) × (notes.new ≡ notes.old)) }
    ensures begun { Begun (FileSaysFreely bytes.now)
        (W.put_so_far out.old) (W.put_so_far out.new) (N.put_so_far notes.old) (N.put_so_far notes.new) }
    ensures broken { IsTrue (has_broken result) → (out.new ≡ out.old) × (notes.new ≡ notes.old) }
    ensures unbroken { result ≢ Err RunFault.ScheduleBroken }
    ensures memory { IfErr result (λ e. tells_memory e ≡ true) }
    ensures room { IsErrOf result RunFault.Memory → (length bytes.now ≤ LONGEST_FILE) × IsUtf8 bytes.now }
    ensures write { IsErrOf result RunFault.Write → (W.failed out.new || N.failed notes.new) ≡ true }
    ensures read { result ≢ Err RunFault.Read }
{
    let file = read_file(alloc, bytes)?;
    run(&file, out, notes)
}

/// Reads a spec file and has it run freely by what is given to that end. Then the text of what happened is written, which another run of
/// the same file may not repeat; permutation lines count for nothing. The file is refused as by `run_spec_by`. Nothing is
/// written before the run is closed; a setup that fails or waits ends it. Where its threads come to no end it ends in `Threads`;
/// none ends in `ScheduleBroken`.
pub fn free_spec_by<
    S: Source,
    W: Sink,
    N: Sink,
    F: FnOnce(&SpecFile<'_>, &mut W, &mut N) -> Result<(), RunFault>,
>(alloc: Global, input: &mut S, out: &mut W, notes: &mut N, run: F) -> Result<(), RunFault>
    requires { RunsFreely W.Sink N.Sink (F.pre run) (F.post run) }
    ensures { SpecIsRunFreely S.Source W.Sink N.Sink input.old input.new out.old out.new notes.old notes.new result }
{
    let bytes = read_all(alloc, input, LONGEST_FILE + 1)?;
    run_file_freely(alloc, &bytes, out, notes, run)
}
