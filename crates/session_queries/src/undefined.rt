//! Columns that are named and aren't there.

ghost use Rattle.std.specs.Prelude.{◌≡◌, [], flat_map, map, option_map};
ghost use Rattle.sql_trees.specs.Trees.{agg_of, tree_of, trees, Column as NamedColumn};
ghost use Rattle.sql_trees.specs.Statements.{OrderTree, SetTree, column_of, delete_of, exprs_of, item_of, items_of, name_of, order_of, select_of, set_of, update_of};
ghost use Rattle.query_results.specs.Queries.{cols_of, returned_exprs, select_exprs, undefined_among};
ghost use Rattle.query_results.specs.Updates.{delete_exprs, update_exprs};
ghost use Rattle.session_queries.specs.Inner.Undefined.{first_of, undefined_column, undefined_in_list, undefined_in_changes, undefined_in_condition, undefined_in_item, undefined_in_agg, undefined_in_key, undefined_in_returned};

use crate::keys::aliased;
use iso_lexer::{Ident, Name};
use sql_trees::{Agg, Column, Delete, Expr, Item, OrderKey, Select, Update};
use sql_values::Columns;

/// The name, if no column has it.
fn undefined_name<'a>(columns: &Columns<'_>, name: &Name<'a>) -> Option<Ident<'a>>
    ensures { result ≡ undefined_column columns.now (NamedColumn (name_of name.now)) }
{
    match columns.place(name) {
        Some(_) => None,
        None => Some(Ident::new(*name)),
    }
}

/// The first column that the expression names and that isn't there, in the order of the text.
#[cycle(undefined)]
fn undefined_column<'a>(columns: &Columns<'_>, expr: &Expr<'a>) -> Option<Ident<'a>>
    ensures { result ≡ undefined_column columns.now (tree_of expr.now) }
{
    match expr {
        Expr::Null => None,
        Expr::Bool(_) => None,
        Expr::Number { .. } => None,
        Expr::Text(_) => None,
        Expr::Column(name) => undefined_name(columns, name),
        Expr::Plus(a) => undefined_column(columns, a),
        Expr::Minus(a) => undefined_column(columns, a),
        Expr::Not(a) => undefined_column(columns, a),
        Expr::Binary(_, a, b) => match undefined_column(columns, a) {
            Some(name) => Some(name),
            None => undefined_column(columns, b),
        },
        Expr::Is(a, _, _) => undefined_column(columns, a),
        Expr::In(a, _, items) => match undefined_column(columns, a) {
            Some(name) => Some(name),
            None => undefined_in_list(columns, items),
        },
        Expr::Between(a, _, low, high) => match undefined_column(columns, a) {
            Some(name) => Some(name),
            None => match undefined_column(columns, low) {
                Some(name) => Some(name),
                None => undefined_column(columns, high),
            },
        },
    }
}

#[cycle(undefined)]
fn undefined_in_list<'a>(columns: &Columns<'_>, items: &[Expr<'a>]) -> Option<Ident<'a>>
    ensures { result ≡ undefined_in_list columns.now (trees items.now) }
{
    for item in items {
        if let Some(name) = undefined_column(columns, item) {
            return Some(name);
        }
    }
    None
}

/// The first column that one of the values names: none is there for them.
fn undefined_in_values<'a>(row: &[Expr<'a>]) -> Option<Ident<'a>>
    ensures { result ≡ first_of (undefined_column []) (map tree_of row.now) }
{
    let columns = Columns::of(&[]);
    for expr in row {
        if let Some(name) = undefined_column(&columns, expr) {
            return Some(name);
        }
    }
    None
}

/// The first column that the rows of VALUES name: they have none.
pub fn undefined_in_rows<'a>(rows: &[Vec<Expr<'a>>]) -> Option<Ident<'a>>
    ensures { result ≡ undefined_among [] (flat_map (λ row. row) (map exprs_of rows.now)) }
{
    for row in rows {
        if let Some(name) = undefined_in_values(row) {
            return Some(name);
        }
    }
    None
}

fn undefined_in_agg<'a>(columns: &Columns<'_>, agg: &Agg<'a>) -> Option<Ident<'a>>
    ensures { result ≡ undefined_in_agg columns.now (agg_of agg.now) }
{
    match agg {
        Agg::CountRows => None,
        Agg::Of(_, expr) => undefined_column(columns, expr),
    }
}

#[tactic(auto, using(crate::proofs::Parts::item_lacks))]
fn undefined_in_item<'a>(columns: &Columns<'_>, item: &Item<'a>) -> Option<Ident<'a>>
    ensures { result ≡ undefined_in_item columns.now (item_of item.now) }
{
    match item {
        Item::All => None,
        Item::Expr(expr, _) => undefined_column(columns, expr),
        Item::Agg(agg, _) => undefined_in_agg(columns, agg),
    }
}

fn undefined_in_items<'a>(columns: &Columns<'_>, items: &[Item<'a>]) -> Option<Ident<'a>>
    ensures { result ≡ first_of (undefined_in_item columns.now) (map item_of items.now) }
{
    for item in items {
        if let Some(name) = undefined_in_item(columns, item) {
            return Some(name);
        }
    }
    None
}

fn undefined_in_condition<'a>(columns: &Columns<'_>, filter: &Option<Expr<'a>>) -> Option<Ident<'a>>
    ensures { result ≡ undefined_in_condition columns.now (option_map tree_of filter.now) }
{
    match filter {
        Some(expr) => undefined_column(columns, expr),
        None => None,
    }
}

/// The column that a key of ORDER BY names and that isn't there: a bare name means the item with that alias, if there is one.
fn undefined_in_key<'a>(
    columns: &Columns<'_>,
    items: &[Item<'a>],
    key: &Expr<'a>,
) -> Option<Ident<'a>>
    ensures { result ≡ undefined_in_key columns.now (map item_of items.now) (tree_of key.now) }
{
    match key {
        Expr::Column(name) if aliased(items, name).is_some() => None,
        _ => undefined_column(columns, key),
    }
}

fn undefined_in_keys<'a>(
    columns: &Columns<'_>,
    items: &[Item<'a>],
    order: &[OrderKey<'a>],
) -> Option<Ident<'a>>
    ensures { result ≡ first_of (λ (k : OrderTree). undefined_in_key columns.now (map item_of items.now) k.expr) (map order_of order.now) }
{
    for key in order {
        if let Some(name) = undefined_in_key(columns, items, &key.expr) {
            return Some(name);
        }
    }
    None
}

/// The first column that the SELECT names and that isn't among these: of its items, then of its WHERE, then of its ORDER BY.
#[tactic(auto, using(crate::proofs::ColumnLists::known_columns))]
pub fn undefined_in_select<'a>(columns: &[Column<'_>], select: &Select<'a>) -> Option<Ident<'a>>
    ensures { result ≡ undefined_among (cols_of (map column_of columns.now)) (select_exprs (select_of select.now)) }
{
    let columns = Columns::of(columns);
    if let Some(name) = undefined_in_items(&columns, &select.items) {
        return Some(name);
    }
    match undefined_in_condition(&columns, &select.filter) {
        Some(name) => Some(name),
        None => undefined_in_keys(&columns, &select.items, &select.order),
    }
}

fn undefined_in_sets<'a>(columns: &Columns<'_>, sets: &[(Name<'a>, Expr<'a>)]) -> Option<Ident<'a>>
    ensures { result ≡ first_of (λ (s : SetTree). undefined_column columns.now s.value) (map set_of sets.now) }
{
    for (_, expr) in sets {
        if let Some(name) = undefined_column(columns, expr) {
            return Some(name);
        }
    }
    None
}

fn undefined_in_returned<'a>(
    columns: &Columns<'_>,
    items: &Option<Vec<Item<'a>>>,
) -> Option<Ident<'a>>
    ensures { result ≡ undefined_in_returned columns.now (option_map items_of items.now) }
{
    match items {
        Some(items) => undefined_in_items(columns, items),
        None => None,
    }
}

/// The first column that RETURNING names and that isn't among these.
#[tactic(auto, using(crate::proofs::ColumnLists::known_columns, crate::proofs::ColumnsNamed::of_returned))]
pub fn undefined_in_returning<'a>(
    columns: &[Column<'_>],
    items: &Option<Vec<Item<'a>>>,
) -> Option<Ident<'a>>
    ensures { result ≡ undefined_among (cols_of (map column_of columns.now)) (returned_exprs (option_map items_of items.now)) }
{
    let columns = Columns::of(columns);
    undefined_in_returned(&columns, items)
}

fn undefined_in_changes<'a>(columns: &Columns<'_>, update: &Update<'a>) -> Option<Ident<'a>>
    ensures { result ≡ undefined_in_changes columns.now (update_of update.now) }
{
    match undefined_in_sets(columns, &update.sets) {
        Some(name) => Some(name),
        None => undefined_in_condition(columns, &update.filter),
    }
}

/// The first column that the UPDATE names and that isn't among these: of its new values, of its WHERE, then of RETURNING. It looks at no column that is assigned to.
#[tactic(auto, using(crate::proofs::ColumnLists::known_columns))]
pub fn undefined_in_update<'a>(columns: &[Column<'_>], update: &Update<'a>) -> Option<Ident<'a>>
    ensures { result ≡ undefined_among (cols_of (map column_of columns.now)) (update_exprs (update_of update.now)) }
{
    let columns = Columns::of(columns);
    match undefined_in_changes(&columns, update) {
        Some(name) => Some(name),
        None => undefined_in_returned(&columns, &update.returning),
    }
}

/// The first column that the DELETE names and that isn't among these: of its WHERE, then of RETURNING.
#[tactic(auto, using(crate::proofs::ColumnLists::known_columns))]
pub fn undefined_in_delete<'a>(columns: &[Column<'_>], delete: &Delete<'a>) -> Option<Ident<'a>>
    ensures { result ≡ undefined_among (cols_of (map column_of columns.now)) (delete_exprs (delete_of delete.now)) }
{
    let columns = Columns::of(columns);
    match undefined_in_condition(&columns, &delete.filter) {
        Some(name) => Some(name),
        None => undefined_in_returned(&columns, &delete.returning),
    }
}
