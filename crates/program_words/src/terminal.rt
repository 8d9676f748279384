//! How to give a file, which is said to someone who reads the errors at a terminal, and the file.

ghost use Rattle.std.specs.Prelude.{◌≡◌, ◌+◌, IfErr, IfOk, OnErr, OnOk, false, true};
ghost use Rattle.iso_lexer.specs.Devices.{IsFront, PutsFront};
ghost use Rattle.iso_lexer.specs.declared.limits.TheConstants.{LONGEST_FILE};
ghost use Rattle.program_words.specs.Terminal.{Hints, IsUnread, hint};

use crate::program::told;
use iso_lexer::{DeviceFault, LONGEST_FILE, Sink, Source, read_all};
use spec_files::RunFault;
use std::alloc::Global;

/// How to give a file.
const HINT: &[u8] =
    b"isolationtester: reads a spec file from the keyboard, up to Ctrl-D; to give a file: isolationtester < FILE\n";

/// Says how to give a file, where none is given.
fn put_hint<N: Sink>(err: &mut N, typed: bool) -> Result<(), DeviceFault>
    ensures hints { OnOk result (Hints typed (N.put_so_far err.old) (N.put_so_far err.new)) }
    ensures mute { OnErr result ((typed ≡ true) × (N.failed err.new ≡ true) × PutsFront (N.put_so_far err.old) (N.put_so_far err.new) hint) }
{
    if typed {
        return err.put(HINT);
    }
    Ok(())
}

/// Reads the file whole, up to a byte over the longest; where it is typed at a terminal (`typed`) it is said first how to give a file.
/// Where that isn't taken, or the file isn't read, which is told, the answer is the exit status.
pub fn read_there<S: Source, N: Sink>(
    alloc: Global,
    input: &mut S,
    typed: bool,
    err: &mut N,
) -> Result<Vec<u8>, u8>
    ensures hints { OnOk result (Hints typed (N.put_so_far err.old) (N.put_so_far err.new)) }
    ensures reads { IfOk result (λ file. IsFront (LONGEST_FILE + 1) (S.left input.old) (S.left input.new) file.items) }
    ensures well { OnOk result (S.failed input.new ≡ false) }
    ensures unread { IfErr result (IsUnread (S.left input.old) (S.left input.new) (S.failed input.new) typed (N.failed err.new) (N.put_so_far err.old) (N.put_so_far err.new)) }
{
    if put_hint(err, typed).is_err() {
        return Err(RunFault::Write.status());
    }
    match read_all(alloc, input, LONGEST_FILE + 1) {
        Ok(file) => Ok(file),
        Err(fault) => Err(told(err, &RunFault::from(fault))),
    }
}
