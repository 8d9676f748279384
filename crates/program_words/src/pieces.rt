//! Puts texts that no memory is wanted for.

ghost use Rattle.std.specs.Prelude.{◌≡◌, OnErr, OnOk, map, true};
ghost use Rattle.std.specs.Io.KnownBytes.{Appends};
ghost use Rattle.std.specs.List.{concat};
ghost use Rattle.iso_lexer.specs.Devices.{PutsFront};
ghost use Rattle.program_words.specs.Shell.{Took};

use iso_lexer::{DeviceFault, Sink};

/// Puts a text; of a sink that fails there is no one to tell.
pub(crate) fn put_text<N: Sink>(sink: &mut N, text: &[u8])
    ensures { Took (N.failed sink.new) (N.put_so_far sink.old) (N.put_so_far sink.new) text.now }
{
    let _ = sink.put(text);
}

/// Puts the pieces one after the other.
pub(crate) fn put_pieces<N: Sink>(sink: &mut N, pieces: &[&[u8]]) -> Result<(), DeviceFault>
    ensures bytes { OnOk result (Appends (N.put_so_far sink.old) (N.put_so_far sink.new) (concat (map (λ piece. piece.now) pieces.now))) }
    ensures front { PutsFront (N.put_so_far sink.old) (N.put_so_far sink.new) (concat (map (λ piece. piece.now) pieces.now)) }
    ensures fails { OnErr result (N.failed sink.new ≡ true) }
    ensures stays { N.failed sink.old ≡ true → N.failed sink.new ≡ true }
{
    for piece in pieces {
        sink.put(piece)?;
    }
    Ok(())
}
