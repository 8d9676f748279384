//! Aggregates over rows.

ghost use Rattle.std.specs.Prelude.{◌≡◌, ◌≢◌, ◌^◌, pos, neg_ℤ, ◌+ℤ◌, ◌≤ℤ◌, ◌∷◌, All, length, map, Ok, Err, Some, MatchResult, if◌then◌else◌};
ghost use Rattle.std.specs.List.{list_all};
ghost use Rattle.sql_trees.specs.Trees.{tree_of, agg_of, CountRows};
ghost use Rattle.sql_values.specs.Values.{Answers, bigint};
ghost use Rattle.sql_values.specs.Aggregates.{total, summary, aggregate};
ghost use Rattle.sql_values.specs.Inner.Extremes.{values, is_number, is_text, beats, best, extreme};

use crate::arithmetic::bigint;
use crate::bound::Bound;
use crate::columns::Columns;
use crate::fault::ValueFault;
use crate::operation::is_null;
use crate::row::Row;
use crate::sorting::full_order;
use crate::value::Value;
use sql_trees::{Agg, AggKind, Expr};
use std::alloc::Global;

/// The values of the bound expression on the rows, in order, without NULLs.
fn values_of<'a>(
    alloc: Global,
    bound: &Bound<'_, 'a>,
    rows: &[&Row],
) -> Result<Vec<Value>, ValueFault<'a>>
    requires { All (λ row. length row.now ≡ length bound.now.columns) rows.now }
    ensures { MatchResult result (λ found. values (tree_of bound.now.expr) bound.now.columns (map (λ row. row.now) rows.now) ≡ Ok found.items)
        (λ fault. fault ≢ ValueFault.Memory → values (tree_of bound.now.expr) bound.now.columns (map (λ row. row.now) rows.now) ≡ Err fault) }
{
    let mut found = Vec::with_capacity(alloc, rows.len())?;
    for row in rows {
        let value = bound.value(alloc, row)?;
        if !is_null(&value) {
            found.push(value)?;
        }
    }
    Ok(found)
}

/// The same of an expression, whose columns are looked up once.
fn values<'a>(
    alloc: Global,
    expr: &Expr<'a>,
    cols: &Columns<'_>,
    rows: &[&Row],
) -> Result<Vec<Value>, ValueFault<'a>>
    requires { All (λ row. length row.now ≡ length cols.now) rows.now }
    ensures { MatchResult result (λ found. values (tree_of expr.now) cols.now (map (λ row. row.now) rows.now) ≡ Ok found.items)
        (λ fault. fault ≢ ValueFault.Memory → values (tree_of expr.now) cols.now (map (λ row. row.now) rows.now) ≡ Err fault) }
{
    let bound = Bound::of(alloc, expr, cols)?;
    values_of(alloc, &bound, rows)
}

/// The sum of two numbers, of which the first is far from the ends of its type.
fn added(total: i128, n: i32) -> i128
    requires low { neg_ℤ (pos (2 ^ 100)) ≤ℤ total }
    requires high { total ≤ℤ pos (2 ^ 100) }
    ensures { result ≡ total +ℤ n }
{
    total + n as i128
}

/// The sum of integers.
fn sum<'a>(values: &[Value]) -> Result<Value, ValueFault<'a>>
    ensures { result ≡ summary AggKind.Sum values.now }
{
    if values.is_empty() {
        return Ok(Value::Null);
    }
    let mut total = 0i128;
    for value in values {
        match value {
            Value::Int(n) => total = added(total, *n),
            _ => return Err(ValueFault::TypeMismatch),
        }
    }
    bigint(total)
}

fn is_number(value: &Value) -> bool
    ensures { result ≡ is_number value.now }
{
    matches!(value, Value::Int(_) | Value::Big(_))
}

fn is_text(value: &Value) -> bool
    ensures { result ≡ is_text value.now }
{
    matches!(value, Value::Text(_))
}

fn are_numbers(values: &[Value]) -> bool
    ensures { result ≡ list_all is_number values.now }
{
    for value in values {
        if !is_number(value) {
            return false;
        }
    }
    true
}

fn are_texts(values: &[Value]) -> bool
    ensures { result ≡ list_all is_text values.now }
{
    for value in values {
        if !is_text(value) {
            return false;
        }
    }
    true
}

/// Whether the one is a better answer than the other: less, or greater where the greatest is asked for.
fn beats(greatest: bool, one: &Value, other: &Value) -> bool
    ensures { result ≡ beats greatest one.now other.now }
{
    if greatest {
        full_order(other, one).is_lt()
    } else {
        full_order(one, other).is_lt()
    }
}

/// The one value where it beats the other one, and otherwise the other one.
fn better<'a>(greatest: bool, one: &'a Value, other: &'a Value) -> &'a Value
    ensures { result.now ≡ (if beats greatest one.now other.now then one.now else other.now) }
{
    if beats(greatest, one, other) {
        one
    } else {
        other
    }
}

/// The first of the values that none of them beats.
fn best<'a>(greatest: bool, first: &'a Value, others: &'a [Value]) -> &'a Value
    ensures { best greatest (first.now ∷ others.now) ≡ Some result.now }
{
    let mut best = first;
    for value in others {
        best = better(greatest, value, best);
    }
    best
}

/// The least or the greatest of the values, where they are numbers alone or texts alone.
fn extreme<'a>(alloc: Global, greatest: bool, values: &[Value]) -> Result<Value, ValueFault<'a>>
    ensures { Answers result (extreme greatest values.now) }
{
    if !are_numbers(values) {
        if !are_texts(values) {
            return Err(ValueFault::TypeMismatch);
        }
    }
    match values.split_first() {
        None => Ok(Value::Null),
        Some((first, others)) => Ok(best(greatest, first, others).copied(alloc)?),
    }
}

/// The value of an aggregate over rows, which have the columns. Its expression is evaluated on all rows before its values are tested.
#[tactic(auto, using(crate::proofs::Extremes::least_is, crate::proofs::Extremes::greatest_is, crate::proofs::Extremes::through))]
pub fn aggregate<'a>(
    alloc: Global,
    agg: &Agg<'a>,
    cols: &Columns<'_>,
    rows: &[&Row],
) -> Result<Value, ValueFault<'a>>
    requires { All (λ row. length row.now ≡ length cols.now) rows.now }
    ensures exact { Answers result (aggregate (agg_of agg.now) cols.now (map (λ row. row.now) rows.now)) }
    // Rows are counted without growing anything.
    ensures rows_counted { agg_of agg.now ≡ CountRows → result ≡ bigint (pos (length rows.now)) }
{
    let (kind, expr) = match agg {
        Agg::CountRows => return bigint(rows.len() as i128),
        Agg::Of(kind, expr) => (*kind, expr),
    };
    let values = values(alloc, expr, cols, rows)?;
    match kind {
        AggKind::Count => bigint(values.len() as i128),
        AggKind::Sum => sum(&values),
        AggKind::Min => extreme(alloc, false, &values),
        AggKind::Max => extreme(alloc, true, &values),
    }
}
