//! The values that rows are sorted by.

ghost use Rattle.std.specs.Prelude.{◌≡◌, ◌<◌, All, IfOk, Ok, length, map, option_map, slice_index_or};
ghost use Rattle.iso_lexer.specs.Names.{name_view, decoded};
ghost use Rattle.sql_trees.specs.Statements.{OrderTree, item_of, name_of, order_of};
ghost use Rattle.sql_trees.specs.Trees.{tree_of, Number};
ghost use Rattle.sql_values.specs.declared.value.Value.TheVariants.{Null as SqlNull};
ghost use Rattle.sql_values.specs.Bound.{bound_tree};
ghost use Rattle.sql_values.specs.Values.{Answers, each};
ghost use Rattle.session_queries.specs.Code.Fronts.{AnswersList};
ghost use Rattle.query_results.specs.Ordering.{rows_at};
ghost use Rattle.query_results.specs.Inner.Pieces.{keys_of, shown};
ghost use Rattle.session_queries.specs.Inner.Ordering.{key_answer, key_bound};
ghost use Rattle.session_queries.specs.Inner.Undefined.{aliased};

use iso_lexer::{Name, same_name};
use sql_trees::{Expr, Item, OrderKey};
use sql_values::{Bound, Columns, Row, Value, ValueFault, eval};
use std::alloc::{AllocError, Global};

/// The expression of the first item that has this alias.
pub fn aliased<'e, 'a>(items: &'e [Item<'a>], name: &Name<'_>) -> Option<&'e Expr<'a>>
    ensures { option_map (λ expr. tree_of expr.now) result ≡ aliased (map item_of items.now) (name_of name.now) }
{
    for item in items {
        if let Item::Expr(expr, Some(alias)) = item {
            if same_name(name, alias) {
                return Some(expr);
            }
        }
    }
    None
}

/// The value that the result has at the row in that column, counted from 0, or NULL where it has no such column.
#[tactic(auto, using(crate::proofs::Picking::key_read))]
fn shown_at<'a>(
    alloc: Global,
    place: u64,
    items: &[Item<'a>],
    columns: &Columns<'_>,
    row: &Row,
) -> Result<Value, ValueFault<'a>>
    requires { length row.now ≡ length columns.now }
    ensures { Answers result (slice_index_or (shown columns.now (map item_of items.now) row.now) place (Ok SqlNull)) }
{
    let mut place = place;
    let values = row.values();
    for item in items {
        match item {
            Item::All if place < values.len() as u64 => {
                return Ok(values[place as usize].copied(alloc)?);
            }
            Item::All => place -= values.len() as u64,
            Item::Expr(expr, _) if place == 0 => return eval(alloc, expr, columns, row),
            Item::Expr(_, _) => place -= 1,
            Item::Agg(_, _) => {}
        }
    }
    Ok(Value::Null)
}

/// The value of a key of ORDER BY that is a number literal: the row's value in that column of the result, counted from 1.
fn position_value<'a>(
    alloc: Global,
    negative: bool,
    digits: u64,
    items: &[Item<'a>],
    columns: &Columns<'_>,
    row: &Row,
) -> Result<Value, ValueFault<'a>>
    requires { length row.now ≡ length columns.now }
    ensures { Answers result (key_answer columns.now (map item_of items.now) row.now (Number negative digits)) }
{
    if negative || digits == 0 {
        return Ok(Value::Null);
    }
    shown_at(alloc, digits - 1, items, columns, row)
}

/// The expression that a key means, bound to the columns: a bare name means the item with that alias, if there is one, and a number literal no expression.
fn bound_key<'e, 'a>(
    alloc: Global,
    key: &'e Expr<'a>,
    items: &'e [Item<'a>],
    columns: &'e Columns<'e>,
) -> Result<Option<Bound<'e, 'a>>, AllocError>
    ensures { IfOk result (λ bound. option_map bound_tree bound ≡ key_bound columns.now (map item_of items.now) (tree_of key.now)) }
{
    match key {
        Expr::Number { .. } => Ok(None),
        Expr::Column(name) => match aliased(items, name) {
            Some(expr) => Ok(Some(Bound::of(alloc, expr, columns)?)),
            None => Ok(Some(Bound::of(alloc, key, columns)?)),
        },
        _ => Ok(Some(Bound::of(alloc, key, columns)?)),
    }
}

/// The same of each key.
fn bound_keys<'e, 'a>(
    alloc: Global,
    order: &'e [OrderKey<'a>],
    items: &'e [Item<'a>],
    columns: &'e Columns<'e>,
) -> Result<Vec<Option<Bound<'e, 'a>>>, AllocError>
    ensures { IfOk result (λ bound. map (option_map bound_tree) bound.items ≡ map (λ (k : OrderTree). key_bound columns.now (map item_of items.now) k.expr) (map order_of order.now)) }
{
    let mut bound = Vec::with_capacity(alloc, order.len())?;
    for key in order {
        bound.push(bound_key(alloc, &key.expr, items, columns)?)?;
    }
    Ok(bound)
}

/// The value of a key at the row, by the expression that is bound for it; a number literal has none.
#[tactic(auto, using(crate::proofs::Bindings::key_meant))]
fn key_at<'a>(
    alloc: Global,
    key: &Expr<'a>,
    bound: &Option<Bound<'_, 'a>>,
    items: &[Item<'a>],
    columns: &Columns<'_>,
    row: &Row,
) -> Result<Value, ValueFault<'a>>
    requires width { length row.now ≡ length columns.now }
    requires bound { option_map bound_tree bound.now ≡ key_bound columns.now (map item_of items.now) (tree_of key.now) }
    ensures { Answers result (key_answer columns.now (map item_of items.now) row.now (tree_of key.now)) }
{
    match bound {
        Some(bound) => bound.value(alloc, row),
        None => match key {
            Expr::Number { negative, digits } => {
                position_value(alloc, *negative, *digits, items, columns, row)
            }
            _ => unreachable!(),
        },
    }
}

/// The keys of the row, from the left.
#[tactic(auto, using(crate::proofs::Meant::keys_front))]
fn keys_of<'a>(
    alloc: Global,
    order: &[OrderKey<'a>],
    bound: &[Option<Bound<'_, 'a>>],
    items: &[Item<'a>],
    columns: &Columns<'_>,
    row: &Row,
) -> Result<Row, ValueFault<'a>>
    requires width { length row.now ≡ length columns.now }
    requires bound { map (option_map bound_tree) bound.now ≡ map (λ (k : OrderTree). key_bound columns.now (map item_of items.now) k.expr) (map order_of order.now) }
    ensures keys { Answers result (keys_of columns.now (map item_of items.now) (map order_of order.now) row.now) }
    ensures long { IfOk result (λ keys. length keys ≡ length order.now) }
{
    let mut keys = Vec::with_capacity(alloc, order.len())?;
    for i in 0..order.len() {
        keys.push(key_at(alloc, &order[i].expr, &bound[i], items, columns, row)?)?;
    }
    Ok(Row::from_vec(keys))
}

/// The keys of the rows at these places, row by row, by what is bound for them.
fn keys_by<'a>(
    alloc: Global,
    order: &[OrderKey<'a>],
    bound: &[Option<Bound<'_, 'a>>],
    items: &[Item<'a>],
    columns: &Columns<'_>,
    rows: &[&Row],
    places: &[usize],
) -> Result<Vec<Row>, ValueFault<'a>>
    requires width { All (λ row. length row.now ≡ length columns.now) rows.now }
    requires within { All (λ p. p < length rows.now) places.now }
    requires bound { map (option_map bound_tree) bound.now ≡ map (λ (k : OrderTree). key_bound columns.now (map item_of items.now) k.expr) (map order_of order.now) }
    ensures keys { AnswersList result (each (keys_of columns.now (map item_of items.now) (map order_of order.now)) (rows_at (map (λ row. row.now) rows.now) places.now)) }
    ensures each_long { IfOk result (λ keys. All (λ row. length row ≡ length order.now) keys.items) }
    ensures long { IfOk result (λ keys. length keys.items ≡ length places.now) }
{
    let mut keys = Vec::with_capacity(alloc, places.len())?;
    for place in places {
        keys.push(keys_of(alloc, order, bound, items, columns, rows[*place])?)?;
    }
    Ok(keys)
}

/// The keys of the rows at these places, row by row. What they mean is looked up once.
pub fn keys_at<'a>(
    alloc: Global,
    order: &[OrderKey<'a>],
    items: &[Item<'a>],
    columns: &Columns<'_>,
    rows: &[&Row],
    places: &[usize],
) -> Result<Vec<Row>, ValueFault<'a>>
    requires width { All (λ row. length row.now ≡ length columns.now) rows.now }
    requires within { All (λ p. p < length rows.now) places.now }
    ensures keys { AnswersList result (each (keys_of columns.now (map item_of items.now) (map order_of order.now)) (rows_at (map (λ row. row.now) rows.now) places.now)) }
    ensures each_long { IfOk result (λ keys. All (λ row. length row ≡ length order.now) keys.items) }
    ensures long { IfOk result (λ keys. length keys.items ≡ length places.now) }
{
    let bound = bound_keys(alloc, order, items, columns)?;
    keys_by(alloc, order, &bound, items, columns, rows, places)
}
