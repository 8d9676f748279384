//! Writing what a name stands for.

ghost use Rattle.std.specs.Prelude.{map, OnOk};
ghost use Rattle.std.specs.Char.{to_ascii_lowercase};
ghost use Rattle.std.specs.Io.KnownBytes.{Appends};
ghost use Rattle.iso_lexer.specs.Devices.{FailsWith, PutsFront};
ghost use Rattle.iso_lexer.specs.Names.{decoded, name_view, unquoted};

use crate::device::{DeviceFault, Sink};
use crate::name::Name;
use memchr::memchr;

/// Puts the bytes, and of each doubled quote only one.
fn put_unquoted<W: Sink>(out: &mut W, text: &[u8]) -> Result<(), DeviceFault>
    ensures bytes { OnOk result (Appends (W.put_so_far out.old) (W.put_so_far out.new) (unquoted text.now)) }
    ensures front { PutsFront (W.put_so_far out.old) (W.put_so_far out.new) (unquoted text.now) }
    ensures fails { FailsWith (W.failed out.old) (W.failed out.new) result }
{
    let mut rest = text;
    while let Some(at) = memchr(b'"', rest) {
        let (piece, behind) = rest.split_at(at + 1);
        out.put(piece)?;
        rest = behind.split_at(behind.len().min(1)).1;
    }
    out.put(rest)
}

/// Puts the bytes with `A` to `Z` as `a` to `z`.
fn put_folded<W: Sink>(out: &mut W, text: &[u8]) -> Result<(), DeviceFault>
    ensures bytes { OnOk result (Appends (W.put_so_far out.old) (W.put_so_far out.new) (map to_ascii_lowercase text.now)) }
    ensures front { PutsFront (W.put_so_far out.old) (W.put_so_far out.new) (map to_ascii_lowercase text.now) }
    ensures fails { FailsWith (W.failed out.old) (W.failed out.new) result }
{
    for b in text {
        out.put(&[b.to_ascii_lowercase()])?;
    }
    out.put(&[])
}

/// Writes the bytes that the name stands for.
pub fn write_name<W: Sink>(out: &mut W, name: &Name<'_>) -> Result<(), DeviceFault>
    ensures bytes { OnOk result (Appends (W.put_so_far out.old) (W.put_so_far out.new) (decoded (name_view name.now))) }
    ensures front { PutsFront (W.put_so_far out.old) (W.put_so_far out.new) (decoded (name_view name.now)) }
    ensures fails { FailsWith (W.failed out.old) (W.failed out.new) result }
{
    match *name {
        Name::Plain(text) => out.put(text.as_bytes()),
        Name::Quoted(text) => put_unquoted(out, text.as_bytes()),
        Name::Folded(text) => put_folded(out, text.as_bytes()),
    }
}
