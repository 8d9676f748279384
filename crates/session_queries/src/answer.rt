//! What a query answers.

ghost use Rattle.std.specs.Prelude.{◌≡◌, ◌≢◌, ◌∷◌, ◌++◌, All, IfOk, OnOk, IsErrOf, MatchResult, Ok, Err, None, [], length, map, not, option_map};
ghost use Rattle.sql_trees.specs.Statements.{column_of, item_of, select_of};
ghost use Rattle.sql_values.specs.Bound.{bound_tree};
ghost use Rattle.sql_values.specs.Values.{Answers, each};
ghost use Rattle.sql_values.specs.Aggregates.{aggregate};
ghost use Rattle.query_results.specs.Queries.{cols_of, result_of, row_values, select_exprs, titles_of, undefined_among};
ghost use Rattle.session_queries.specs.Code.Fronts.{AnswersList};
ghost use Rattle.session_queries.specs.Inner.Answers.{agg_results, items_answered, has_none, item_bound, item_row, row_results, selected, counted};
ghost use Rattle.session_queries.specs.Inner.Fronts.{in_front};

use crate::known::known;
use crate::ordering::{rows_at, taken_places};
use crate::titles::{agg_titles, titles_of};
use crate::undefined::undefined_in_select;
use query_results::ResultSet;
use sql_trees::{Column, Item, Select};
use sql_values::{Bound, Columns, Row, Value, ValueFault, aggregate, eval};
use std::alloc::{AllocError, Global};

/// Appends the row's values.
fn append_values(alloc: Global, values: &mut Vec<Value>, row: &Row) -> Result<(), AllocError>
    ensures { OnOk result (values.new.items ≡ values.old.items ++ row.now) }
{
    for value in row.values() {
        values.push(value.copied(alloc)?)?;
    }
    Ok(())
}

/// Appends what the item answers at the row.
fn append_item<'a>(
    alloc: Global,
    values: &mut Vec<Value>,
    item: &Item<'a>,
    columns: &Columns<'_>,
    row: &Row,
) -> Result<(), ValueFault<'a>>
    requires { length row.now ≡ length columns.now }
    ensures { MatchResult result
        (λ _. in_front values.old.items (item_row columns.now row.now (item_of item.now)) ≡ Ok values.new.items)
        (λ fault. fault ≢ ValueFault.Memory → item_row columns.now row.now (item_of item.now) ≡ Err fault) }
{
    match item {
        Item::All => append_values(alloc, values, row)?,
        Item::Expr(expr, _) => values.push(eval(alloc, expr, columns, row)?)?,
        Item::Agg(_, _) => {}
    }
    Ok(())
}

/// What the items answer at the row, for columns as expressions know them.
#[tactic(auto, using(crate::proofs::Fronts::longer))]
fn values_at<'a>(
    alloc: Global,
    items: &[Item<'a>],
    columns: &Columns<'_>,
    row: &Row,
) -> Result<Row, ValueFault<'a>>
    requires { length row.now ≡ length columns.now }
    ensures { Answers result (row_values columns.now (map item_of items.now) row.now) }
{
    let mut values = Vec::new(alloc);
    for item in items {
        append_item(alloc, &mut values, item, columns, row)?;
    }
    Ok(Row::from_vec(values))
}

/// What the items answer at the row, which is as long as their titles.
pub fn row_values<'a>(
    alloc: Global,
    items: &[Item<'a>],
    columns: &[Column<'_>],
    row: &Row,
) -> Result<Row, ValueFault<'a>>
    requires { length row.now ≡ length columns.now }
    ensures values { Answers result (row_values (cols_of (map column_of columns.now)) (map item_of items.now) row.now) }
    ensures long { IfOk result (λ values. length values ≡ length (titles_of (map column_of columns.now) (map item_of items.now))) }
{
    let columns = known(columns);
    values_at(alloc, items, &columns, row)
}

/// The expression of an item, bound to the columns, if it has one for each row.
fn bound_item<'e, 'a>(
    alloc: Global,
    item: &'e Item<'a>,
    columns: &'e Columns<'e>,
) -> Result<Option<Bound<'e, 'a>>, AllocError>
    ensures { IfOk result (λ bound. option_map bound_tree bound ≡ item_bound columns.now (item_of item.now)) }
{
    match item {
        Item::Expr(expr, _) => Ok(Some(Bound::of(alloc, expr, columns)?)),
        _ => Ok(None),
    }
}

/// The same of each item.
fn bound_items<'e, 'a>(
    alloc: Global,
    items: &'e [Item<'a>],
    columns: &'e Columns<'e>,
) -> Result<Vec<Option<Bound<'e, 'a>>>, AllocError>
    ensures { IfOk result (λ bound. map (option_map bound_tree) bound.items ≡ map (item_bound columns.now) (map item_of items.now)) }
{
    let mut bound = Vec::with_capacity(alloc, items.len())?;
    for item in items {
        bound.push(bound_item(alloc, item, columns)?)?;
    }
    Ok(bound)
}

/// Appends what the item answers at the row, by its bound expression, if it has one.
#[tactic(auto, using(crate::proofs::Bindings::item_meant))]
fn append_bound<'a>(
    alloc: Global,
    values: &mut Vec<Value>,
    item: &Item<'a>,
    bound: &Option<Bound<'_, 'a>>,
    columns: &Columns<'_>,
    row: &Row,
) -> Result<(), ValueFault<'a>>
    requires width { length row.now ≡ length columns.now }
    requires bound { option_map bound_tree bound.now ≡ item_bound columns.now (item_of item.now) }
    ensures { MatchResult result
        (λ _. in_front values.old.items (item_row columns.now row.now (item_of item.now)) ≡ Ok values.new.items)
        (λ fault. fault ≢ ValueFault.Memory → item_row columns.now row.now (item_of item.now) ≡ Err fault) }
{
    match bound {
        Some(bound) => {
            values.push(bound.value(alloc, row)?)?;
            Ok(())
        }
        None => append_item(alloc, values, item, columns, row),
    }
}

/// As many values as the items have at the row, or fewer, where `*` is among them.
fn room(items: &[Item<'_>], row: &Row) -> usize {
    match items.first() {
        Some(Item::All) => row.values().len(),
        _ => items.len(),
    }
}

/// What the items answer at the row, by their bound expressions.
#[tactic(auto, using(crate::proofs::Fronts::longer, crate::proofs::Shown::from_items))]
fn bound_values<'a>(
    alloc: Global,
    items: &[Item<'a>],
    bound: &[Option<Bound<'_, 'a>>],
    columns: &Columns<'_>,
    row: &Row,
) -> Result<Row, ValueFault<'a>>
    requires width { length row.now ≡ length columns.now }
    requires bound { map (option_map bound_tree) bound.now ≡ map (item_bound columns.now) (map item_of items.now) }
    ensures { Answers result (row_values columns.now (map item_of items.now) row.now) }
{
    let mut values = Vec::with_capacity(alloc, room(items, row))?;
    for i in 0..items.len() {
        append_bound(alloc, &mut values, &items[i], &bound[i], columns, row)?;
    }
    Ok(Row::from_vec(values))
}

/// What the items answer at each row, by their bound expressions.
fn shown_by<'a>(
    alloc: Global,
    items: &[Item<'a>],
    bound: &[Option<Bound<'_, 'a>>],
    columns: &Columns<'_>,
    rows: &[&Row],
) -> Result<Vec<Row>, ValueFault<'a>>
    requires width { All (λ row. length row.now ≡ length columns.now) rows.now }
    requires bound { map (option_map bound_tree) bound.now ≡ map (item_bound columns.now) (map item_of items.now) }
    ensures { AnswersList result (each (row_values columns.now (map item_of items.now)) (map (λ row. row.now) rows.now)) }
{
    let mut shown = Vec::with_capacity(alloc, rows.len())?;
    for row in rows {
        shown.push(bound_values(alloc, items, bound, columns, row)?)?;
    }
    Ok(shown)
}

/// What the items answer at each row. Their columns are looked up once.
fn shown<'a>(
    alloc: Global,
    items: &[Item<'a>],
    columns: &Columns<'_>,
    rows: &[&Row],
) -> Result<Vec<Row>, ValueFault<'a>>
    requires { All (λ row. length row.now ≡ length columns.now) rows.now }
    ensures { AnswersList result (each (row_values columns.now (map item_of items.now)) (map (λ row. row.now) rows.now)) }
{
    let bound = bound_items(alloc, items, columns)?;
    shown_by(alloc, items, &bound, columns, rows)
}

/// The items at each of the rows.
fn row_results<'a>(
    alloc: Global,
    items: &[Item<'a>],
    columns: &[Column<'a>],
    taken: &[&Row],
) -> Result<ResultSet<'a>, ValueFault<'a>>
    requires { All (λ row. length row.now ≡ length columns.now) taken.now }
    ensures { Answers result (row_results (map column_of columns.now) (map item_of items.now) (map (λ row. row.now) taken.now)) }
{
    let cols = known(&*columns);
    let rows = shown(alloc, items, &cols, taken)?;
    let titles = titles_of(alloc, columns, items)?;
    Ok(ResultSet::new(titles, rows))
}

fn is_counted(items: &[Item<'_>]) -> bool
    ensures { result ≡ not (has_none (counted (map item_of items.now))) }
{
    for item in items {
        if let Item::Agg(_, _) = item {
            return true;
        }
    }
    false
}

/// The values of the aggregates among the items, one after the other.
fn agg_values<'a>(
    alloc: Global,
    items: &[Item<'a>],
    columns: &Columns<'_>,
    taken: &[&Row],
) -> Result<Vec<Value>, ValueFault<'a>>
    requires { All (λ row. length row.now ≡ length columns.now) taken.now }
    ensures values { AnswersList result (each (λ a. aggregate a.0 columns.now (map (λ row. row.now) taken.now)) (counted (map item_of items.now))) }
    ensures long { IfOk result (λ values. length values.items ≡ length (counted (map item_of items.now))) }
{
    let mut values = Vec::new(alloc);
    for item in items {
        if let Item::Agg(agg, _) = item {
            values.push(aggregate(alloc, agg, columns, taken)?)?;
        }
    }
    Ok(values)
}

fn one_row(alloc: Global, values: Vec<Value>) -> Result<Vec<Row>, AllocError>
    ensures { IfOk result (λ rows. rows.items ≡ values.items ∷ []) }
{
    let mut rows = Vec::with_capacity(alloc, 1)?;
    rows.push(Row::from_vec(values))?;
    Ok(rows)
}

/// The aggregates over all of the rows, as one row.
#[tactic(auto, using(crate::proofs::Counting::one_even))]
fn agg_results<'a>(
    alloc: Global,
    items: &[Item<'a>],
    columns: &[Column<'a>],
    taken: &[&Row],
) -> Result<ResultSet<'a>, ValueFault<'a>>
    requires { All (λ row. length row.now ≡ length columns.now) taken.now }
    ensures { Answers result (agg_results (map column_of columns.now) (counted (map item_of items.now)) (map (λ row. row.now) taken.now)) }
{
    let cols = known(&*columns);
    let values = agg_values(alloc, items, &cols, taken)?;
    let titles = agg_titles(alloc, items)?;
    let rows = one_row(alloc, values)?;
    Ok(ResultSet::new(titles, rows))
}

/// The result of a SELECT whose WHERE passes these rows.
#[tactic(auto, using(crate::proofs::Counting::by_rows, crate::proofs::Counting::by_aggregates))]
fn answered<'a>(
    alloc: Global,
    items: &[Item<'a>],
    columns: &[Column<'a>],
    taken: &[&Row],
) -> Result<ResultSet<'a>, ValueFault<'a>>
    requires { All (λ row. length row.now ≡ length columns.now) taken.now }
    ensures { Answers result (items_answered (map column_of columns.now) (map item_of items.now) (map (λ row. row.now) taken.now)) }
{
    if is_counted(items) {
        agg_results(alloc, items, columns, taken)
    } else {
        row_results(alloc, items, columns, taken)
    }
}

/// The result of a SELECT that names no column beside these.
fn selected<'a>(
    alloc: Global,
    select: &Select<'a>,
    columns: &[Column<'a>],
    rows: &[&Row],
) -> Result<ResultSet<'a>, ValueFault<'a>>
    requires { All (λ row. length row.now ≡ length columns.now) rows.now }
    ensures { Answers result (selected (select_of select.now) (map column_of columns.now) (map (λ row. row.now) rows.now)) }
{
    let places = taken_places(alloc, select, columns, rows)?;
    let taken = rows_at(alloc, rows, &places)?;
    answered(alloc, &select.items, columns, &taken)
}

/// The result of a SELECT whose table has these columns and shows these rows. A column that isn't there is a fault, whatever the rows are; WHERE is tested at all of them, then they are sorted, and then the items are evaluated.
pub fn result_of<'a>(
    alloc: Global,
    select: &Select<'a>,
    columns: &[Column<'a>],
    rows: &[&Row],
) -> Result<ResultSet<'a>, ValueFault<'a>>
    requires { All (λ row. length row.now ≡ length columns.now) rows.now }
    ensures answer { Answers result (result_of (select_of select.now) (map column_of columns.now) (map (λ row. row.now) rows.now)) }
    ensures memory { IsErrOf result ValueFault.Memory → undefined_among (cols_of (map column_of columns.now)) (select_exprs (select_of select.now)) ≡ None }
{
    match undefined_in_select(columns, select) {
        Some(name) => Err(ValueFault::NoColumn(name)),
        None => selected(alloc, select, columns, rows),
    }
}
