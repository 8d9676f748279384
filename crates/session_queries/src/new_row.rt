//! The row that an INSERT makes of its values.

ghost use Rattle.std.specs.Prelude.{◌≡◌, IfOk, [], length, map, replicate, slice_set};
ghost use Rattle.sql_trees.specs.Trees.{tree_of};
ghost use Rattle.sql_values.specs.declared.value.Value.TheVariants.{Null as SqlNull};
ghost use Rattle.sql_values.specs.Values.{Answers, each};
ghost use Rattle.sql_values.specs.Expressions.{value};
ghost use Rattle.query_results.specs.Queries.{filled, new_values};

use crate::assigned::{AssignedColumn, AssignedColumns};
use sql_trees::Expr;
use sql_values::{Columns, Row, Value, ValueFault, assign, eval};
use std::alloc::{AllocError, Global};

/// The value of an expression that names no column.
fn constant<'a>(alloc: Global, expr: &Expr<'a>) -> Result<Value, ValueFault<'a>>
    ensures { Answers result (value (tree_of expr.now) [] []) }
{
    let columns = Columns::of(&[]);
    let row = Row::from_vec(Vec::new(alloc));
    eval(alloc, expr, &columns, &row)
}

fn constants<'a>(alloc: Global, exprs: &[Expr<'a>]) -> Result<Row, ValueFault<'a>>
    ensures { Answers result (each (λ e. value e [] []) (map tree_of exprs.now)) }
{
    let mut values = Vec::with_capacity(alloc, exprs.len())?;
    for expr in exprs {
        values.push(constant(alloc, expr)?)?;
    }
    Ok(Row::from_vec(values))
}

fn nulls(alloc: Global, width: usize) -> Result<Vec<Value>, AllocError>
    ensures { IfOk result (λ row. row.items ≡ replicate width SqlNull) }
{
    let mut row = Vec::with_capacity(alloc, width)?;
    for _ in 0..width {
        row.push(Value::Null)?;
    }
    Ok(row)
}

/// Puts the value at that place of the row, if it has the place.
fn put(row: &mut Vec<Value>, place: usize, value: Value)
    ensures { row.new.items ≡ slice_set row.old.items place value }
{
    if place < row.len() {
        row[place] = value;
    }
}

/// The row with the values at their columns' places, as these take them.
#[tactic(auto, using(crate::proofs::Filling::filled_step, crate::proofs::Filling::filled_short))]
pub fn filled<'a>(
    alloc: Global,
    to: &[AssignedColumn],
    values: &[Value],
    row: Vec<Value>,
) -> Result<Row, ValueFault<'a>>
    ensures values { Answers result (filled to.now values.now row.items) }
    ensures long { IfOk result (λ filled. length filled ≡ length row.items) }
{
    let mut row = row;
    let mut rest = values;
    for column in to {
        let [value, behind @ ..] = rest else {
            return Ok(Row::from_vec(row));
        };
        let value = assign(value.copied(alloc)?, column.kind())?;
        put(&mut row, column.place(), value);
        rest = behind;
    }
    Ok(Row::from_vec(row))
}

/// The row, as wide as its table, that an INSERT makes of these expressions: each is evaluated, then each value is taken as its column does, and where there is none the row is NULL.
pub fn new_values<'a>(
    alloc: Global,
    width: usize,
    to: &AssignedColumns,
    row: &[Expr<'a>],
) -> Result<Row, ValueFault<'a>>
    ensures { Answers result (new_values width to.now (map tree_of row.now)) }
{
    let values = constants(alloc, row)?;
    let empty = nulls(alloc, width)?;
    filled(alloc, to.as_slice(), values.values(), empty)
}
