//! The rows that a SELECT takes, in the order in which it shows them.

ghost use Rattle.std.specs.Prelude.{◌≡◌, ◌<◌, ◌⊎◌, All, Any, IfOk, IsErrOf, IsSomeAnd, Ok, length, map, option_map, slice_index_or, true, vec_len};
ghost use Rattle.sql_trees.specs.Statements.{column_of, item_of, order_of, select_of};
ghost use Rattle.sql_trees.specs.Statements.{OrderTree};
ghost use Rattle.sql_trees.specs.Trees.{tree_of};
ghost use Rattle.sql_values.specs.Expressions.{passes};
ghost use Rattle.sql_values.specs.Growing.{may_grow};
ghost use Rattle.sql_values.specs.Sorting.{can_sort};
ghost use Rattle.session_queries.specs.Code.Fronts.{AnswersList};
ghost use Rattle.query_results.specs.Ordering.{rows_at};
ghost use Rattle.query_results.specs.Queries.{by_keys, cols_of, taken};
ghost use Rattle.session_queries.specs.Inner.Ordering.{ordered};

use crate::keys::keys_at;
use crate::known::known;
use crate::passing::passing;
use query_results::laws::one_order_by_insertion;
use sql_trees::{Column, Item, OrderKey, Select};
use sql_values::{Columns, Dir, Row, ValueFault, order};
use std::alloc::{AllocError, Global};

fn directions(alloc: Global, order: &[OrderKey<'_>]) -> Result<Vec<Dir>, AllocError>
    ensures { IfOk result (λ by. by.items ≡ map (λ (k : OrderTree). k.dir) (map order_of order.now)) }
{
    let mut by = Vec::with_capacity(alloc, order.len())?;
    for key in order {
        by.push(key.dir)?;
    }
    Ok(by)
}

/// The places that stand at these indices.
fn picked(alloc: Global, places: &[usize], indices: &[usize]) -> Result<Vec<usize>, AllocError>
    requires { All (λ i. i < length places.now) indices.now }
    ensures { IfOk result (λ picked. picked.items ≡ map (λ i. slice_index_or places.now i 0) indices.now) }
{
    let mut picked = Vec::with_capacity(alloc, indices.len())?;
    for i in indices {
        picked.push(places[*i])?;
    }
    Ok(picked)
}

/// The places in the order of their rows' keys.
fn by_keys<'a>(
    alloc: Global,
    by: &[Dir],
    places: &[usize],
    keys: &[Row],
) -> Result<Vec<usize>, ValueFault<'a>>
    requires width { All (λ row. length row ≡ length by.now) keys.now }
    requires long { length keys.now ≡ length places.now }
    ensures places { AnswersList result (by_keys by.now places.now keys.now) }
    ensures memory { IsErrOf result ValueFault.Memory → can_sort by.now keys.now ≡ true }
{
    let sorted = order(alloc, keys, by)?;
    one_order_by_insertion();
    Ok(picked(alloc, places, &sorted)?)
}

/// The rows at these places.
pub fn rows_at<'r>(
    alloc: Global,
    rows: &[&'r Row],
    places: &[usize],
) -> Result<Vec<&'r Row>, AllocError>
    requires { All (λ p. p < length rows.now) places.now }
    ensures { IfOk result (λ taken. map (λ row. row.now) taken.items ≡ rows_at (map (λ row. row.now) rows.now) places.now) }
{
    let mut taken = Vec::with_capacity(alloc, places.len())?;
    for place in places {
        taken.push(rows[*place])?;
    }
    Ok(taken)
}

/// The places as ORDER BY sorts them. The keys of all their rows are evaluated before any are compared.
fn ordered<'a>(
    alloc: Global,
    select: &Select<'a>,
    columns: &Columns<'_>,
    rows: &[&Row],
    places: Vec<usize>,
) -> Result<Vec<usize>, ValueFault<'a>>
    requires width { All (λ row. length row.now ≡ length columns.now) rows.now }
    requires within { All (λ p. p < length rows.now) places.items }
    ensures places { AnswersList result (ordered columns.now (map item_of select.now.items.items) (map order_of select.now.order.items) (map (λ row. row.now) rows.now) places.items) }
    ensures memory { IsErrOf result ValueFault.Memory → 0 < vec_len select.now.order }
    ensures within { IfOk result (λ places. All (λ p. p < length rows.now) places.items) }
{
    if select.order.is_empty() {
        return Ok(places);
    }
    let by = directions(alloc, &select.order)?;
    let keys = keys_at(alloc, &select.order, &select.items, columns, rows, &places)?;
    by_keys(alloc, &by, &places, &keys)
}

/// The places of the rows that pass WHERE, as ORDER BY sorts them. WHERE is tested at all rows before a key is evaluated.
pub fn taken_places<'a>(
    alloc: Global,
    select: &Select<'a>,
    columns: &[Column<'_>],
    rows: &[&Row],
) -> Result<Vec<usize>, ValueFault<'a>>
    requires { All (λ row. length row.now ≡ length columns.now) rows.now }
    ensures places { AnswersList result (taken (select_of select.now) (map column_of columns.now) (map (λ row. row.now) rows.now)) }
    // A condition may grow, and so does the list with each row that passes; keys are kept until the rows are sorted.
    ensures memory { IsErrOf result ValueFault.Memory → IsSomeAnd select.now.filter (λ expr. may_grow (tree_of expr) ≡ true)
        ⊎ (Any (λ row. passes (option_map tree_of select.now.filter) (cols_of (map column_of columns.now)) row.now ≡ Ok true) rows.now ⊎ 0 < vec_len select.now.order) }
    ensures within { IfOk result (λ places. All (λ p. p < length rows.now) places.items) }
{
    let columns = known(columns);
    let places = passing(alloc, &select.filter, &columns, rows)?;
    ordered(alloc, select, &columns, rows, places)
}
