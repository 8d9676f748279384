//! How wide a column is, and how it is aligned.

ghost use Rattle.std.specs.Prelude.{◌≡◌, ◌≢◌, ◌<◌, ◌||◌, [], length, map, max, All, IfOk, OnErr};
ghost use Rattle.result_tables.specs.Printed.{printed};
ghost use Rattle.result_tables.specs.Titles.{title_text};
ghost use Rattle.result_tables.specs.TableText.{layout_of};
ghost use Rattle.result_tables.specs.Inner.Lines.{layouts_of};
ghost use Rattle.result_tables.specs.Inner.Columns.{is_textual, cells};

use crate::shown::{Shown, shows_word};
use query_results::{ResultSet, Title};
use sql_values::{Row, Value};
use std::alloc::{AllocError, Global};

/// A column's width in bytes, and whether it is aligned to the left.
#[derive(Clone, Copy)]
pub struct ColumnLayout {
    pub width: usize,
    pub left: bool,
}

/// The column with one more value.
fn with_value(column: ColumnLayout, value: &Value) -> ColumnLayout
    ensures width { result.width ≡ max column.width (length (printed value.now)) }
    ensures left { result.left ≡ (column.left || is_textual (printed value.now)) }
{
    ColumnLayout {
        width: column.width.max(value.shown_len()),
        left: column.left || shows_word(value),
    }
}

/// Column `k` of a table.
fn measured(title: &Title<'_>, rows: &[Row], k: usize) -> ColumnLayout
    requires { All (λ row. k < length row) rows.now }
    ensures { result ≡ layout_of (title_text title.now) (cells (map (map printed) rows.now) k) }
{
    let mut column = ColumnLayout {
        width: title.shown_len(),
        left: false,
    };
    for row in rows {
        let value = &row.values()[k];
        column = with_value(column, value);
    }
    column
}

/// The columns of a result's table.
pub fn measured_columns(alloc: Global, set: &ResultSet<'_>) -> Result<Vec<ColumnLayout>, AllocError>
    ensures columns { IfOk result (λ columns. columns.items ≡ layouts_of (map title_text set.now.titles) (map (map printed) set.now.rows)) }
    ensures memory { OnErr result (set.now.titles ≢ []) }
{
    let titles = set.titles();
    let rows = set.rows();
    let mut columns = Vec::new(alloc);
    for k in 0..titles.len() {
        let title = &titles[k];
        columns.push(measured(title, rows, k))?;
    }
    Ok(columns)
}
