//! Writes a permutation's report.

ghost use Rattle.std.specs.Prelude.{map};
ghost use Rattle.spec_parser.specs.Trees.{entry_view, spec_view};
ghost use Rattle.spec_files.specs.Written.{IsWritten};

use crate::fault::RunFault;
use iso_lexer::Sink;
use report_text::{Ended, write_report};
use session_machine::HistItem;
use spec_parser::{Entry, Spec};
use std::alloc::Global;

/// Writes what a permutation with this history prints to `out`, and what its teardowns fail with to `notes`. A setup that
/// fails or waits ends it.
pub fn write_permutation<W: Sink, N: Sink>(
    alloc: Global,
    spec: &Spec<'_>,
    entries: &[Entry],
    items: &[HistItem<'_>],
    out: &mut W,
    notes: &mut N,
) -> Result<Ended, RunFault>
    ensures { IsWritten (spec_view spec.now) (map entry_view entries.now) items.now
        (W.put_so_far out.old) (W.put_so_far out.new) (N.put_so_far notes.old) (N.put_so_far notes.new)
        (W.failed out.old) (W.failed out.new) (N.failed notes.old) (N.failed notes.new) result }
{
    let ended = write_report(alloc, spec, entries, items, out, notes)?;
    Ok(ended)
}
