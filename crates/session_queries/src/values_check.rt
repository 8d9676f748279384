//! What the values of an INSERT are tested for.

ghost use Rattle.std.specs.Prelude.{◌≡◌, ◌&&◌, length, map, nat_lt};
ghost use Rattle.std.specs.List.{list_any};
ghost use Rattle.sql_trees.specs.Statements.{column_of, exprs_of};
ghost use Rattle.sql_values.specs.Values.{is_null};
ghost use Rattle.query_results.specs.Queries.{null_in};

use iso_lexer::Ident;
use sql_trees::{Column, Expr};
use sql_values::{Row, Value};

/// Whether the column doesn't take the value, since it is NULL.
fn is_missing(column: &Column<'_>, value: &Value) -> bool
    ensures { result ≡ (column.now.not_null && is_null value.now) }
{
    column.not_null && matches!(value, Value::Null)
}

/// The first column whose value is NULL and must not be.
#[tactic(auto, using(crate::proofs::Ends::null_in_none))]
pub fn null_in<'a>(columns: &[Column<'a>], values: &Row) -> Option<Ident<'a>>
    ensures { result ≡ null_in (map column_of columns.now) values.now }
{
    let mut rest = values.values();
    for column in columns {
        let [value, behind @ ..] = rest else {
            return None;
        };
        if is_missing(column, value) {
            return Some(Ident::new(column.name));
        }
        rest = behind;
    }
    None
}

/// Whether some row of VALUES has more values than there are columns for them.
pub fn some_too_long(width: usize, rows: &[Vec<Expr<'_>>]) -> bool
    ensures { result ≡ list_any (λ row. nat_lt width (length row)) (map exprs_of rows.now) }
{
    for row in rows {
        if row.len() > width {
            return true;
        }
    }
    false
}
