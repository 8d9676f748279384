//! Writes the text of a free run.

ghost use Rattle.spec_parser.specs.Trees.{spec_view};
ghost use Rattle.spec_files.specs.FreeRuns.{IsFreeWritten};

use crate::fault::RunFault;
use crate::first_line::first_line;
use iso_lexer::Sink;
use report_text::write_free as write_items;
use session_machine::HistItem;
use spec_parser::Spec;
use std::alloc::Global;

/// Writes the text of a free run with this history to `out`, its first line included, and what its teardowns fail with to
/// `notes`. A setup that failed or waits is answered so.
pub fn write_free<W: Sink, N: Sink>(
    alloc: Global,
    spec: &Spec<'_>,
    items: &[HistItem<'_>],
    out: &mut W,
    notes: &mut N,
) -> Result<(), RunFault>
    ensures { IsFreeWritten (spec_view spec.now) items.now
        (W.put_so_far out.old) (W.put_so_far out.new) (N.put_so_far notes.old) (N.put_so_far notes.new)
        (W.failed out.old) (W.failed out.new) (N.failed notes.old) (N.failed notes.new) result }
{
    let line = first_line(alloc, spec)?;
    out.put(line.as_slice())?;
    write_items(alloc, spec, items, out, notes)?;
    Ok(())
}
