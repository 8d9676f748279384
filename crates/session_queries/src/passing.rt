//! The rows that pass WHERE.

ghost use Rattle.std.specs.Prelude.{◌≡◌, ◌<◌, ◌⊎◌, [], All, Any, IfOk, IsErrOf, IsSomeAnd, OnErr, Ok, Some, None, length, map, option_map, true};
ghost use Rattle.sql_trees.specs.Statements.{column_of};
ghost use Rattle.sql_trees.specs.Trees.{tree_of};
ghost use Rattle.sql_values.specs.Expressions.{passes};
ghost use Rattle.sql_values.specs.Growing.{may_grow};
ghost use Rattle.sql_values.specs.Values.{Answers};
ghost use Rattle.session_queries.specs.Code.Fronts.{AnswersList};
ghost use Rattle.query_results.specs.Queries.{cols_of, passing};

use crate::known::known;
use sql_trees::{Column, Expr};
use sql_values::{Bound, Columns, Row, ValueFault};
use std::alloc::{AllocError, Global};

/// The places of all rows, for a statement without WHERE.
fn all_places(alloc: Global, rows: &[&Row]) -> Result<Vec<usize>, AllocError>
    ensures places { IfOk result (λ places. passing [] None (map (λ row. row.now) rows.now) ≡ Ok places.items) }
    ensures within { IfOk result (λ places. All (λ p. p < length rows.now) places.items) }
    // Without rows there is nothing to grow.
    ensures memory { OnErr result (0 < length rows.now) }
{
    let mut places = Vec::new(alloc);
    for place in 0..rows.len() {
        places.push(place)?;
    }
    Ok(places)
}

/// The places of the rows that pass the condition.
fn places_passing<'a>(
    alloc: Global,
    condition: &Bound<'_, 'a>,
    rows: &[&Row],
) -> Result<Vec<usize>, ValueFault<'a>>
    requires { All (λ row. length row.now ≡ length condition.now.columns) rows.now }
    ensures places { AnswersList result (passing condition.now.columns (Some (tree_of condition.now.expr)) (map (λ row. row.now) rows.now)) }
    // The condition may grow, and so does the list with each row that passes.
    ensures memory { IsErrOf result ValueFault.Memory → (may_grow (tree_of condition.now.expr) ≡ true) ⊎ Any (λ row. passes (Some (tree_of condition.now.expr)) condition.now.columns row.now ≡ Ok true) rows.now }
    ensures within { IfOk result (λ places. All (λ p. p < length rows.now) places.items) }
{
    let mut places = Vec::new(alloc);
    for place in 0..rows.len() {
        if condition.passes(alloc, rows[place])? {
            places.push(place)?;
        }
    }
    Ok(places)
}

/// The places of the rows that pass WHERE, for columns as expressions know them.
pub fn passing<'a>(
    alloc: Global,
    filter: &Option<Expr<'a>>,
    columns: &Columns<'_>,
    rows: &[&Row],
) -> Result<Vec<usize>, ValueFault<'a>>
    requires { All (λ row. length row.now ≡ length columns.now) rows.now }
    ensures places { AnswersList result (passing columns.now (option_map tree_of filter.now) (map (λ row. row.now) rows.now)) }
    // A condition may grow, and so does the list with each row that passes.
    ensures memory { IsErrOf result ValueFault.Memory → IsSomeAnd filter.now (λ expr. may_grow (tree_of expr) ≡ true) ⊎ Any (λ row. passes (option_map tree_of filter.now) columns.now row.now ≡ Ok true) rows.now }
    ensures within { IfOk result (λ places. All (λ p. p < length rows.now) places.items) }
{
    match filter {
        Some(expr) => {
            let condition = Bound::of(alloc, expr, columns)?;
            places_passing(alloc, &condition, rows)
        }
        None => Ok(all_places(alloc, rows)?),
    }
}

/// The places of the rows that pass WHERE.
pub fn passing_places<'a>(
    alloc: Global,
    filter: &Option<Expr<'a>>,
    columns: &[Column<'_>],
    rows: &[&Row],
) -> Result<Vec<usize>, ValueFault<'a>>
    requires { All (λ row. length row.now ≡ length columns.now) rows.now }
    ensures places { AnswersList result (passing (cols_of (map column_of columns.now)) (option_map tree_of filter.now) (map (λ row. row.now) rows.now)) }
    ensures memory { IsErrOf result ValueFault.Memory → IsSomeAnd filter.now (λ expr. may_grow (tree_of expr) ≡ true) ⊎ Any (λ row. passes (option_map tree_of filter.now) (cols_of (map column_of columns.now)) row.now ≡ Ok true) rows.now }
    ensures within { IfOk result (λ places. All (λ p. p < length rows.now) places.items) }
{
    let columns = known(columns);
    passing(alloc, filter, &columns, rows)
}
