//! The line of a file in which a byte stands.

ghost use Rattle.std.specs.Prelude.{◌≡◌, ◌≤◌, ◌+◌, ◌++◌, OnErr, OnOk, codes, count_by, length, map, not, true};
ghost use Rattle.std.specs.Io.KnownBytes.{Appends};
ghost use Rattle.std.specs.List.{prefix_len, suffix_len, after_last, before_first};
ghost use Rattle.arrayvec.specs.ArrayVec.{array_vec_len};
ghost use Rattle.iso_lexer.specs.Devices.{PutsFront};
ghost use Rattle.program_words.specs.Places.{quoted_at};
ghost use Rattle.program_words.specs.Quote.{begins_character, columns, is_newline, label_of, marked, quoted_line, shown_byte};

use crate::pieces::put_pieces;
use arrayvec::ArrayVec;
use iso_lexer::{DeviceFault, Sink};
use itoa::Buffer;

/// A longer line isn't quoted.
const LONGEST_LINE: usize = 200;

/// A line, or a part of it, as it is shown.
type Shown = ArrayVec<u8, 200>;

fn shown(b: u8) -> u8
    ensures { result ≡ shown_byte b }
{
    if b < 32 || b == 127 { b' ' } else { b }
}

fn begins_character(b: u8) -> bool
    ensures { result ≡ begins_character b }
{
    b < 128 || b >= 192
}

fn columns(text: &[u8]) -> usize
    ensures { result ≡ columns text.now }
{
    text.iter().filter(|b| begins_character(**b)).count()
}

fn line_number(above: &[u8]) -> usize
    ensures { result ≡ count_by is_newline above.now + 1 }
{
    above.iter().filter(|b| **b == b'\n').count() + 1
}

fn last_len(text: &[u8]) -> usize
    ensures { result ≡ suffix_len (λ b. not (is_newline b)) text.now }
{
    text.iter().rev().take_while(|b| **b != b'\n').count()
}

/// What stands behind the last newline.
fn last_line(text: &[u8]) -> &[u8]
    ensures { result.now ≡ after_last is_newline text.now }
{
    text.split_at(text.len() - last_len(text)).1
}

fn first_len(text: &[u8]) -> usize
    ensures { result ≡ prefix_len (λ b. not (is_newline b)) text.now }
{
    text.iter().take_while(|b| **b != b'\n').count()
}

/// What stands before the first newline.
fn first_line(text: &[u8]) -> &[u8]
    ensures { result.now ≡ before_first is_newline text.now }
{
    text.split_at(first_len(text)).0
}

fn push_shown(text: &mut Shown, line: &[u8])
    requires { array_vec_len text.old + length line.now ≤ 200 }
    ensures items { text.new.items ≡ text.old.items ++ map shown_byte line.now }
    ensures len { array_vec_len text.new ≡ array_vec_len text.old + length line.now }
{
    for b in line {
        text.push(shown(*b));
    }
}

/// The two parts of a line, as they are shown.
fn shown_line(before: &[u8], after: &[u8]) -> Shown
    requires { length before.now + length after.now ≤ 200 }
    ensures { result.items ≡ map shown_byte before.now ++ map shown_byte after.now }
{
    let mut text = ArrayVec::new();
    push_shown(&mut text, before);
    push_shown(&mut text, after);
    text
}

/// Puts a line that is shown so, with its number before it, and below it so many blanks and a mark.
fn put_label<'p, N: Sink>(
    err: &mut N,
    number: &'p [u8],
    line: &'p [u8],
    blanks: &'p [u8],
) -> Result<(), DeviceFault>
    ensures bytes { OnOk result (Appends (N.put_so_far err.old) (N.put_so_far err.new) (label_of number.now ++ line.now ++ codes "\n" ++ blanks.now ++ codes "^\n")) }
    ensures front { PutsFront (N.put_so_far err.old) (N.put_so_far err.new) (label_of number.now ++ line.now ++ codes "\n" ++ blanks.now ++ codes "^\n") }
    ensures fails { OnErr result (N.failed err.new ≡ true) }
    ensures stays { N.failed err.old ≡ true → N.failed err.new ≡ true }
{
    put_pieces(
        err,
        &[
            b"LINE ".as_slice(),
            number,
            b": ".as_slice(),
            line,
            b"\n".as_slice(),
            blanks,
            b"^\n".as_slice(),
        ],
    )
}

/// Puts a line with its number before it, and below it a mark.
fn put_marked<N: Sink>(
    err: &mut N,
    number: &[u8],
    before: &[u8],
    after: &[u8],
) -> Result<(), DeviceFault>
    requires short { length number.now ≤ 40 }
    requires fits { length before.now + length after.now ≤ 200 }
    ensures bytes { OnOk result (Appends (N.put_so_far err.old) (N.put_so_far err.new) (marked (label_of number.now) before.now after.now)) }
    ensures front { PutsFront (N.put_so_far err.old) (N.put_so_far err.new) (marked (label_of number.now) before.now after.now) }
    ensures fails { OnErr result (N.failed err.new ≡ true) }
    ensures stays { N.failed err.old ≡ true → N.failed err.new ≡ true }
{
    let line = shown_line(before, after);
    let blanks = [b' '; 256];
    let mark = "LINE ".len() + number.len() + ": ".len() + columns(before);
    let (below, _) = blanks.as_slice().split_at(mark);
    put_label(err, number, line.as_slice(), below)
}

/// Quotes the line of the file in which the byte stands, with its number, and a mark under the byte; nothing of a line of more than
/// 200 bytes.
fn put_line<N: Sink>(err: &mut N, file: &[u8], at: usize) -> Result<(), DeviceFault>
    ensures bytes { OnOk result (Appends (N.put_so_far err.old) (N.put_so_far err.new) (quoted_line file.now at)) }
    ensures front { PutsFront (N.put_so_far err.old) (N.put_so_far err.new) (quoted_line file.now at) }
    ensures fails { OnErr result (N.failed err.new ≡ true) }
    ensures stays { N.failed err.old ≡ true → N.failed err.new ≡ true }
{
    let (above, below) = file.split_at(at.min(file.len()));
    let before = last_line(above);
    let after = first_line(below);
    if before.len() + after.len() > LONGEST_LINE {
        return put_pieces(err, &[]);
    }
    let mut digits = Buffer::new();
    let number = digits.format(line_number(above));
    put_marked(err, number.as_bytes(), before, after)
}

/// Quotes the line of the file in which a fault stands that names a byte.
pub(crate) fn put_quote<N: Sink>(
    err: &mut N,
    file: &[u8],
    at: Option<usize>,
) -> Result<(), DeviceFault>
    ensures bytes { OnOk result (Appends (N.put_so_far err.old) (N.put_so_far err.new) (quoted_at file.now at)) }
    ensures front { PutsFront (N.put_so_far err.old) (N.put_so_far err.new) (quoted_at file.now at) }
    ensures fails { OnErr result (N.failed err.new ≡ true) }
    ensures stays { N.failed err.old ≡ true → N.failed err.new ≡ true }
{
    match at {
        Some(at) => put_line(err, file, at),
        None => put_pieces(err, &[]),
    }
}
