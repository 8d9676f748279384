//! Runs the program where its errors go to a terminal, and so to someone who reads them as they come.

ghost use Rattle.std.specs.Prelude.{◌≡◌, ◌≢◌, [], map, string_bytes, true};
ghost use Rattle.clap.specs.Words.{fault_of};
ghost use Rattle.program_words.specs.Options.{program};
ghost use Rattle.program_words.specs.Served.{IsServed};

use crate::program::serve_reader;
use iso_lexer::{Sink, Source};
use std::alloc::Global;
use std::sync::Wait;
use std::thread::Threads;

/// Runs the program as `serve` does, where the errors go to a terminal: where the input is one too (`typed`) it is said
/// first how to give a file; behind the line of a fault that names a byte the line of the file is quoted, with a mark
/// under that byte; and of some faults it is said what cures them.
pub fn serve_at_terminal<S: Source, W: Sink, N: Sink, R: Threads + Wait + Sync>(
    rt: &R,
    alloc: Global,
    words: &[String],
    input: &mut S,
    typed: bool,
    out: &mut W,
    err: &mut N,
) -> u8
    ensures serves { IsServed (map string_bytes words.now) (S.left input.old) (S.left input.new) (S.failed input.new) typed true
        (W.failed out.new) (W.put_so_far out.old) (W.put_so_far out.new) (N.failed err.new) (N.put_so_far err.old) (N.put_so_far err.new) result }
    ensures unread { fault_of program (map string_bytes words.now) ≢ [] → input.new ≡ input.old }
{
    serve_reader(rt, alloc, words, input, typed, true, out, err)
}
