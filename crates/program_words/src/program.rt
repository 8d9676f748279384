//! What the program says beside what it runs: of words that are refused, and of faults.

ghost use Rattle.std.specs.Prelude.{◌≡◌, ◌++◌, [], IfErr, IfOk, IsErr, OnErr, OnOk, map, string_bytes, true};
ghost use Rattle.std.specs.Io.KnownBytes.{Appends};
ghost use Rattle.clap.specs.Words.{HasKind, Kinds, fault_of, kind_of};
ghost use Rattle.clap.specs.declared.error.kind.ErrorKind.TheVariants.{OutOfMemory};
ghost use Rattle.iso_lexer.specs.Devices.{PutsFront};
ghost use Rattle.spec_files.specs.FaultText.{fault_line};
ghost use Rattle.program_words.specs.Options.{program, GivesOptions};
ghost use Rattle.spec_files.specs.Runs.{status_of};
ghost use Rattle.program_words.specs.Shell.{IsPutOut, IsRefused, Took, exit_status, is_request};
ghost use Rattle.program_words.specs.Terminal.{TellsFault, quote_of};

use crate::cure::words_for;
use crate::fault_line::{place_of, put_fault};
use crate::options::{Options, options_of, status_of};
use crate::pieces::{put_pieces, put_text};
use crate::quote::put_quote;
use clap::Error;
use clap::error::ErrorKind;
use iso_lexer::{DeviceFault, Sink};
use spec_files::RunFault;
use std::alloc::{AllocError, Global};

/// What clap says of words that give no options. Clap's own want of memory is a fault here too.
fn said_of(alloc: Global, error: &Error) -> Result<String, AllocError>
    ensures { kind_of error.now ≡ OutOfMemory → IsErr result }
{
    if error.kind() == ErrorKind::OutOfMemory {
        return Err(AllocError);
    }
    format!(in alloc; "{error}")
}

/// Puts what clap says: help goes to the output, a mistake to the errors.
fn put_said<W: Sink, N: Sink>(out: &mut W, err: &mut N, error: &Error, text: &[u8])
    ensures { IsPutOut (is_request (kind_of error.now)) text.now (W.failed out.new) (W.put_so_far out.old) (W.put_so_far out.new)
        (N.failed err.new) (N.put_so_far err.old) (N.put_so_far err.new) }
{
    if error.use_stderr() {
        put_text(err, text);
    } else {
        put_text(out, text);
    }
}

/// Tells a fault, and gives its exit status.
pub(crate) fn told<N: Sink>(err: &mut N, fault: &RunFault) -> u8
    ensures told { Took (N.failed err.new) (N.put_so_far err.old) (N.put_so_far err.new) (fault_line fault.now) }
    ensures status { result ≡ status_of fault.now }
{
    let _ = put_fault(err, fault);
    fault.status()
}

/// Says why the words give no options, and gives the exit status.
fn refuse<W: Sink, N: Sink>(alloc: Global, out: &mut W, err: &mut N, error: &Error) -> u8
    ensures { (kinds : Kinds) → HasKind kinds error.now → IsRefused kinds (W.failed out.new) (W.put_so_far out.old) (W.put_so_far out.new)
        (N.failed err.new) (N.put_so_far err.old) (N.put_so_far err.new) result }
{
    match said_of(alloc, error) {
        Ok(text) => {
            put_said(out, err, error, text.as_bytes());
            status_of(error)
        }
        Err(_) => told(err, &RunFault::Memory),
    }
}

/// The options among the words of a command line, of which the first is the program's name. Where they give none, what clap says of
/// them is put, and the answer is the exit status: 0 after help was asked for, 2 where the words are refused; where memory was refused
/// that is told, and the status is 3.
pub fn take_words<W: Sink, N: Sink>(
    alloc: Global,
    words: &[String],
    out: &mut W,
    err: &mut N,
) -> Result<Options, u8>
    ensures gives { IfOk result (λ options. (fault_of program (map string_bytes words.now) ≡ []) × GivesOptions (map string_bytes words.now) options) }
    ensures untouched { OnOk result ((out.new ≡ out.old) × (err.new ≡ err.old)) }
    ensures refused { IfErr result (IsRefused (fault_of program (map string_bytes words.now)) (W.failed out.new) (W.put_so_far out.old) (W.put_so_far out.new)
        (N.failed err.new) (N.put_so_far err.old) (N.put_so_far err.new)) }
{
    match options_of(alloc, words) {
        Ok(options) => Ok(options),
        Err(error) => Err(refuse(alloc, out, err, &error)),
    }
}

/// Quotes the line of the file that a fault names, and says what cures it.
fn put_besides<N: Sink>(err: &mut N, fault: &RunFault, file: &[u8]) -> Result<(), DeviceFault>
    ensures bytes { OnOk result (Appends (N.put_so_far err.old) (N.put_so_far err.new) (quote_of true file.now fault.now)) }
    ensures front { PutsFront (N.put_so_far err.old) (N.put_so_far err.new) (quote_of true file.now fault.now) }
    ensures fails { OnErr result (N.failed err.new ≡ true) }
    ensures stays { N.failed err.old ≡ true → N.failed err.new ≡ true }
{
    put_quote(err, file, place_of(fault))?;
    err.put(words_for(file, fault).as_bytes())
}

/// Puts what is shown behind the line of a fault: at a terminal (`there`) the line of the file that it names and what cures it.
fn put_there<N: Sink>(
    err: &mut N,
    fault: &RunFault,
    file: &[u8],
    there: bool,
) -> Result<(), DeviceFault>
    ensures bytes { OnOk result (Appends (N.put_so_far err.old) (N.put_so_far err.new) (quote_of there file.now fault.now)) }
    ensures front { PutsFront (N.put_so_far err.old) (N.put_so_far err.new) (quote_of there file.now fault.now) }
    ensures fails { OnErr result (N.failed err.new ≡ true) }
    ensures stays { N.failed err.old ≡ true → N.failed err.new ≡ true }
{
    if there {
        put_besides(err, fault, file)
    } else {
        put_pieces(err, &[])
    }
}

/// Puts the line of a fault, and at a terminal (`there`) behind it the line of the file that it names and what cures it.
fn tell<N: Sink>(err: &mut N, fault: &RunFault, file: &[u8], there: bool) -> Result<(), DeviceFault>
    ensures bytes { OnOk result (Appends (N.put_so_far err.old) (N.put_so_far err.new) (fault_line fault.now ++ quote_of there file.now fault.now)) }
    ensures front { PutsFront (N.put_so_far err.old) (N.put_so_far err.new) (fault_line fault.now ++ quote_of there file.now fault.now) }
    ensures fails { OnErr result (N.failed err.new ≡ true) }
    ensures stays { N.failed err.old ≡ true → N.failed err.new ≡ true }
{
    put_fault(err, fault)?;
    put_there(err, fault, file, there)
}

/// Tells a fault, and at a terminal (`there`) what is shown besides; of a sink that fails there is no one to tell.
fn tell_both<N: Sink>(err: &mut N, fault: &RunFault, file: &[u8], there: bool)
    ensures told { Took (N.failed err.new) (N.put_so_far err.old) (N.put_so_far err.new) (fault_line fault.now ++ quote_of there file.now fault.now) }
    ensures stays { N.failed err.old ≡ true → N.failed err.new ≡ true }
{
    let _ = tell(err, fault, file, there);
}

/// The exit status of a run of a file. Its fault is told, and at a terminal (`there`) the line of the file that it names and what cures it.
pub fn end<N: Sink>(answer: Result<(), RunFault>, file: &[u8], there: bool, err: &mut N) -> u8
    ensures status { result ≡ exit_status answer }
    ensures told { TellsFault there file.now answer (N.failed err.new) (N.put_so_far err.old) (N.put_so_far err.new) }
    ensures stays { N.failed err.old ≡ true → N.failed err.new ≡ true }
{
    match answer {
        Ok(()) => 0,
        Err(fault) => {
            tell_both(err, &fault, file, there);
            fault.status()
        }
    }
}
