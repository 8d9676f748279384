//! Runs the program over its devices.

ghost use Rattle.std.specs.Prelude.{◌≡◌, ◌≢◌, ◌≤◌, ◌+◌, ◌||◌, ℕ, List, [], Option, Err, IsErrOf, false, length, map, string_bytes, true};
ghost use Rattle.clap.specs.Words.{fault_of};
ghost use Rattle.iso_lexer.specs.declared.limits.TheConstants.{LONGEST_FILE};
ghost use Rattle.program_words.specs.Options.{program};
ghost use Rattle.program_words.specs.Served.{IsServed, RunsFile};
ghost use Rattle.program_words.specs.Shell.{FileRanFreely, ListsTold, Ran, Runs};

use crate::freely::free_spec;
use crate::run::run_spec;
use iso_lexer::{Sink, Source};
use program_words::{InMemory, Options, end, read_there, take_words};
use session_seats::OpenGate;
use spec_files::{RunFault, list_spec};
use std::alloc::Global;
use std::sync::Wait;
use std::thread::Threads;

/// Lists the permutations of the file that was read.
fn list<W: Sink>(alloc: Global, file: &[u8], limit: u64, out: &mut W) -> Result<(), RunFault>
    requires { length file.now ≤ LONGEST_FILE + 1 }
    ensures listed { (notes : Option (List ℕ)) → ListsTold file.now limit (W.put_so_far out.old) (W.put_so_far out.new) notes notes result }
    ensures read { result ≢ Err RunFault.Read }
    ensures write { IsErrOf result RunFault.Write → W.failed out.new ≡ true }
{
    let mut input = InMemory { rest: file };
    list_spec(alloc, &mut input, out, limit)
}

/// Runs the file freely that was read.
fn run_freely<W: Sink, N: Sink, R: Threads + Wait + Sync>(
    rt: &R,
    alloc: Global,
    file: &[u8],
    out: &mut W,
    err: &mut N,
) -> Result<(), RunFault>
    requires { length file.now ≤ LONGEST_FILE + 1 }
    ensures ran { FileRanFreely file.now (W.put_so_far out.old) (W.put_so_far out.new) (N.put_so_far err.old) (N.put_so_far err.new) result }
    ensures read { result ≢ Err RunFault.Read }
    ensures write { IsErrOf result RunFault.Write → (W.failed out.new || N.failed err.new) ≡ true }
{
    let mut input = InMemory { rest: file };
    free_spec(rt, alloc, &mut input, out, err, &OpenGate)
}

/// Runs the permutations of the file that was read.
fn run_in_order<W: Sink, N: Sink, R: Threads + Wait + Sync>(
    rt: &R,
    alloc: Global,
    file: &[u8],
    limit: u64,
    out: &mut W,
    err: &mut N,
) -> Result<(), RunFault>
    requires { length file.now ≤ LONGEST_FILE + 1 }
    ensures ran { Ran file.now limit (W.put_so_far out.old) (W.put_so_far out.new) (N.put_so_far err.old) (N.put_so_far err.new) result }
    ensures read { result ≢ Err RunFault.Read }
    ensures write { IsErrOf result RunFault.Write → (W.failed out.new || N.failed err.new) ≡ true }
{
    let mut input = InMemory { rest: file };
    run_spec(rt, alloc, &mut input, out, err, limit, &OpenGate)
}

/// Runs the file that was read, as the options say.
fn run<W: Sink, N: Sink, R: Threads + Wait + Sync>(
    rt: &R,
    alloc: Global,
    options: Options,
    file: &[u8],
    out: &mut W,
    err: &mut N,
) -> Result<(), RunFault>
    requires { length file.now ≤ LONGEST_FILE + 1 }
    ensures runs { Runs options file.now (W.put_so_far out.old) (W.put_so_far out.new) (N.put_so_far err.old) (N.put_so_far err.new) result }
    ensures read { result ≢ Err RunFault.Read }
    ensures write { IsErrOf result RunFault.Write → (W.failed out.new || N.failed err.new) ≡ true }
{
    if options.list {
        list(alloc, file, options.limit, out)
    } else if options.free {
        run_freely(rt, alloc, file, out, err)
    } else {
        run_in_order(rt, alloc, file, options.limit, out, err)
    }
}

/// The exit status of a run of the file, whose fault is told.
fn run_file<W: Sink, N: Sink, R: Threads + Wait + Sync>(
    rt: &R,
    alloc: Global,
    options: Options,
    file: &[u8],
    there: bool,
    out: &mut W,
    err: &mut N,
) -> u8
    requires { length file.now ≤ LONGEST_FILE + 1 }
    ensures { RunsFile options file.now there (W.failed out.new) (W.put_so_far out.old) (W.put_so_far out.new)
        (N.failed err.new) (N.put_so_far err.old) (N.put_so_far err.new) result }
{
    let answer = run(rt, alloc, options, file, out, err);
    end(answer, file, there, err)
}

/// Runs the program: the file is read whole, and then runs. Where it is typed at a terminal (`typed`) it is said first how to give a
/// file; where someone reads the errors at one (`there`) a fault's line is followed by the line of the file that it names.
pub(crate) fn serve_reader<S: Source, W: Sink, N: Sink, R: Threads + Wait + Sync>(
    rt: &R,
    alloc: Global,
    words: &[String],
    input: &mut S,
    typed: bool,
    there: bool,
    out: &mut W,
    err: &mut N,
) -> u8
    ensures serves { IsServed (map string_bytes words.now) (S.left input.old) (S.left input.new) (S.failed input.new) typed there
        (W.failed out.new) (W.put_so_far out.old) (W.put_so_far out.new) (N.failed err.new) (N.put_so_far err.old) (N.put_so_far err.new) result }
    ensures unread { fault_of program (map string_bytes words.now) ≢ [] → input.new ≡ input.old }
{
    let options = match take_words(alloc, words, out, err) {
        Ok(options) => options,
        Err(status) => return status,
    };
    match read_there(alloc, input, typed, err) {
        Ok(file) => run_file(rt, alloc, options, file.as_slice(), there, out, err),
        Err(status) => status,
    }
}

/// Runs the program on the words of its command line, of which the first is its own name: the spec file is read whole from
/// `input`, its text goes to `out`, notes and faults to `err`. Gives the exit status: 0 where all ran, 1 where the file
/// was refused or its run ended early, 2 where the words were refused, 3 where a device, memory, a thread or a schedule failed.
pub fn serve<S: Source, W: Sink, N: Sink, R: Threads + Wait + Sync>(
    rt: &R,
    alloc: Global,
    words: &[String],
    input: &mut S,
    out: &mut W,
    err: &mut N,
) -> u8
    ensures serves { IsServed (map string_bytes words.now) (S.left input.old) (S.left input.new) (S.failed input.new) false false
        (W.failed out.new) (W.put_so_far out.old) (W.put_so_far out.new) (N.failed err.new) (N.put_so_far err.old) (N.put_so_far err.new) result }
    ensures unread { fault_of program (map string_bytes words.now) ≢ [] → input.new ≡ input.old }
{
    serve_reader(rt, alloc, words, input, false, false, out, err)
}
