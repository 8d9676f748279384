//! The row that an UPDATE makes of a row.

ghost use Rattle.std.specs.Prelude.{◌≡◌, IfOk, length, map};
ghost use Rattle.sql_trees.specs.Statements.{SetTree, column_of, set_of};
ghost use Rattle.sql_values.specs.Expressions.{value};
ghost use Rattle.sql_values.specs.Values.{Answers, each};
ghost use Rattle.query_results.specs.Queries.{cols_of};
ghost use Rattle.query_results.specs.Updates.{updated};

use crate::assigned::AssignedColumns;
use crate::known::known;
use crate::new_row::filled;
use iso_lexer::Name;
use sql_trees::{Column, Expr};
use sql_values::{Columns, Row, Value, ValueFault, eval};
use std::alloc::{AllocError, Global};

/// The new values on the row, from the left.
fn set_values<'a>(
    alloc: Global,
    sets: &[(Name<'a>, Expr<'a>)],
    columns: &Columns<'_>,
    row: &Row,
) -> Result<Row, ValueFault<'a>>
    requires { length row.now ≡ length columns.now }
    ensures { Answers result (each (λ (s : SetTree). value s.value columns.now row.now) (map set_of sets.now)) }
{
    let mut values = Vec::with_capacity(alloc, sets.len())?;
    for (_, expr) in sets {
        values.push(eval(alloc, expr, columns, row)?)?;
    }
    Ok(Row::from_vec(values))
}

fn values_of(alloc: Global, row: &Row) -> Result<Vec<Value>, AllocError>
    ensures { IfOk result (λ values. values.items ≡ row.now) }
{
    let mut values = Vec::with_capacity(alloc, row.values().len())?;
    for value in row.values() {
        values.push(value.copied(alloc)?)?;
    }
    Ok(values)
}

/// The row as an UPDATE leaves it. All new values are evaluated on the old row, from the left, and then each is taken as its column does.
pub fn updated_values<'a>(
    alloc: Global,
    columns: &[Column<'_>],
    to: &AssignedColumns,
    sets: &[(Name<'a>, Expr<'a>)],
    row: &Row,
) -> Result<Row, ValueFault<'a>>
    requires { length row.now ≡ length columns.now }
    ensures values { Answers result (updated (cols_of (map column_of columns.now)) to.now (map set_of sets.now) row.now) }
    ensures long { IfOk result (λ updated. length updated ≡ length row.now) }
{
    let columns = known(columns);
    let values = set_values(alloc, sets, &columns, row)?;
    let old = values_of(alloc, row)?;
    filled(alloc, to.as_slice(), values.values(), old)
}
