//! The lines of a table.

ghost use Rattle.std.specs.Prelude.{◌≡◌, ◌≢◌, ◌++◌, [], length, map, replicate, OnOk, OnErr};
ghost use Rattle.result_tables.specs.Inner.Lines.{separator};
ghost use Rattle.result_tables.specs.TableText.{padded, table_line, rule_line, foot};

use crate::column::ColumnLayout;
use crate::shown::Shown;
use itoa::Buffer;
use std::alloc::AllocError;

/// Appends a byte so many times.
fn append_run(line: &mut Vec<u8>, byte: u8, count: usize) -> Result<(), AllocError>
    ensures { OnOk result (line.new.items ≡ line.old.items ++ replicate count byte) }
{
    line.reserve(count)?;
    let len = line.len();
    line.resize(len + count, byte)
}

/// Appends what stands between cells, in front of each cell but the first.
fn append_separator(line: &mut Vec<u8>, byte: u8, place: usize) -> Result<(), AllocError>
    ensures text { OnOk result (line.new.items ≡ line.old.items ++ separator byte place) }
    ensures memory { OnErr result (separator byte place ≢ []) }
{
    match place {
        0 => Ok(()),
        _ => {
            line.push(byte)?;
            Ok(())
        }
    }
}

fn append_cell<C: Shown>(
    line: &mut Vec<u8>,
    column: ColumnLayout,
    cell: &C,
) -> Result<(), AllocError>
    ensures { OnOk result (line.new.items ≡ line.old.items ++ padded column (C.shown cell.now)) }
{
    let blanks = column.width.saturating_sub(cell.shown_len());
    if column.left {
        cell.append_to(line)?;
        append_run(line, b' ', blanks)
    } else {
        append_run(line, b' ', blanks)?;
        cell.append_to(line)
    }
}

/// Appends the line of the titles or of a row.
pub fn append_line<C: Shown>(
    line: &mut Vec<u8>,
    columns: &[ColumnLayout],
    cells: &[C],
) -> Result<(), AllocError>
    requires { length cells.now ≡ length columns.now }
    ensures { OnOk result
        (line.new.items ≡ line.old.items ++ table_line columns.now (map C.shown cells.now)) }
{
    for k in 0..columns.len() {
        append_separator(line, b'|', k)?;
        let column = columns[k];
        let cell = &cells[k];
        append_cell(line, column, cell)?;
    }
    line.push(b'\n')?;
    Ok(())
}

/// Appends the rule below the titles.
pub fn append_rule(line: &mut Vec<u8>, columns: &[ColumnLayout]) -> Result<(), AllocError>
    ensures { OnOk result (line.new.items ≡ line.old.items ++ rule_line columns.now) }
{
    for k in 0..columns.len() {
        append_separator(line, b'+', k)?;
        let width = columns[k].width;
        append_run(line, b'-', width)?;
    }
    line.push(b'\n')?;
    Ok(())
}

/// Appends the number of rows, and the empty line below it.
pub fn append_foot(line: &mut Vec<u8>, rows: usize) -> Result<(), AllocError>
    ensures { OnOk result (line.new.items ≡ line.old.items ++ foot rows) }
{
    line.push(b'(')?;
    line.extend_from_slice(Buffer::new().format(rows).as_bytes())?;
    line.extend_from_slice(if rows == 1 {
        b" row)\n\n"
    } else {
        b" rows)\n\n"
    })
}
