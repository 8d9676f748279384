//! Tables of results.

ghost use Rattle.std.specs.Prelude.{◌≡◌, ◌++◌, false, length, map, flat_map, All, OnOk};
ghost use Rattle.std.specs.Io.KnownBytes.{Appends};
ghost use Rattle.result_tables.specs.Printed.{printed};
ghost use Rattle.result_tables.specs.Titles.{title_text};
ghost use Rattle.result_tables.specs.TableText.{table_line, rule_line, foot, table_text};
ghost use Rattle.result_tables.specs.Faults.{TellsFailure};

use crate::column::{ColumnLayout, measured_columns};
use crate::fault::TableFault;
use crate::table_lines::{append_foot, append_line, append_rule};
use iso_lexer::Sink;
use query_results::{ResultSet, Title};
use sql_values::Row;
use std::alloc::Global;

/// Puts the titles and the rule below them.
fn put_head<W: Sink>(
    out: &mut W,
    line: &mut Vec<u8>,
    columns: &[ColumnLayout],
    titles: &[Title<'_>],
) -> Result<(), TableFault>
    requires { length titles.now ≡ length columns.now }
    ensures bytes { OnOk result (Appends (W.put_so_far out.old) (W.put_so_far out.new)
        (table_line columns.now (map title_text titles.now) ++ rule_line columns.now)) }
    ensures fails { TellsFailure (W.failed out.old) (W.failed out.new) result }
{
    line.clear();
    append_line(line, columns, titles)?;
    append_rule(line, columns)?;
    out.put(line.as_slice())?;
    Ok(())
}

/// Puts the line of a row.
fn put_row<W: Sink>(
    out: &mut W,
    line: &mut Vec<u8>,
    columns: &[ColumnLayout],
    row: &Row,
) -> Result<(), TableFault>
    requires { length row.now ≡ length columns.now }
    ensures bytes { OnOk result (Appends (W.put_so_far out.old) (W.put_so_far out.new)
        (table_line columns.now (map printed row.now))) }
    ensures fails { TellsFailure (W.failed out.old) (W.failed out.new) result }
{
    line.clear();
    append_line(line, columns, row.values())?;
    out.put(line.as_slice())?;
    Ok(())
}

/// Puts the lines of the rows.
fn put_rows<W: Sink>(
    out: &mut W,
    line: &mut Vec<u8>,
    columns: &[ColumnLayout],
    rows: &[Row],
) -> Result<(), TableFault>
    requires { All (λ row. length row ≡ length columns.now) rows.now }
    ensures bytes { OnOk result (Appends (W.put_so_far out.old) (W.put_so_far out.new)
        (flat_map (table_line columns.now) (map (map printed) rows.now))) }
    ensures fails { TellsFailure (W.failed out.old) (W.failed out.new) result }
{
    for row in rows {
        put_row(out, line, columns, row)?;
    }
    Ok(())
}

/// Puts the number of rows and the empty line.
fn put_foot<W: Sink>(out: &mut W, line: &mut Vec<u8>, rows: usize) -> Result<(), TableFault>
    ensures bytes { OnOk result
        (Appends (W.put_so_far out.old) (W.put_so_far out.new) (foot rows)) }
    ensures fails { TellsFailure (W.failed out.old) (W.failed out.new) result }
    ensures works { OnOk result (W.failed out.new ≡ false) }
{
    line.clear();
    append_foot(line, rows)?;
    out.put(line.as_slice())?;
    Ok(())
}

/// Writes the table of a result, and nothing else. `Write` is answered exactly where the sink has failed.
pub fn write_table<W: Sink>(
    alloc: Global,
    out: &mut W,
    set: &ResultSet<'_>,
) -> Result<(), TableFault>
    ensures bytes { OnOk result
        (Appends (W.put_so_far out.old) (W.put_so_far out.new) (table_text set.now)) }
    ensures fails { TellsFailure (W.failed out.old) (W.failed out.new) result }
    ensures works { OnOk result (W.failed out.new ≡ false) }
{
    let measured = measured_columns(alloc, set)?;
    let columns = measured.as_slice();
    let mut line = Vec::new(alloc);
    put_head(out, &mut line, columns, set.titles())?;
    put_rows(out, &mut line, columns, set.rows())?;
    put_foot(out, &mut line, set.rows().len())
}
