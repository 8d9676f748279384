//! Keys of ORDER BY that are numbers.

ghost use Rattle.std.specs.Prelude.{◌≡◌, ◌&&◌, length, map, nat_le, nat_lt};
ghost use Rattle.sql_trees.specs.Statements.{column_of, item_of, select_of};
ghost use Rattle.sql_trees.specs.Trees.{tree_of};
ghost use Rattle.sql_values.specs.Arithmetic.{signed};
ghost use Rattle.query_results.specs.Queries.{titles_of, wrong_position};
ghost use Rattle.session_queries.specs.Inner.Undefined.{unlisted};

use sql_trees::{Column, Expr, Item, Select};

/// Whether the result has a column at that place, counted from 0.
#[tactic(auto, using(crate::proofs::Parts::titled))]
fn is_shown(place: u64, columns: &[Column<'_>], items: &[Item<'_>]) -> bool
    ensures { result ≡ nat_lt place (length (titles_of (map column_of columns.now) (map item_of items.now))) }
{
    let mut place = place;
    for item in items {
        let width = match item {
            Item::All => columns.len() as u64,
            Item::Expr(_, _) => 1,
            Item::Agg(_, _) => 0,
        };
        if place < width {
            return true;
        }
        place -= width;
    }
    false
}

/// The number that a key is, if it is one and no column of the result, which are counted from 1.
fn unlisted(key: &Expr<'_>, columns: &[Column<'_>], items: &[Item<'_>]) -> Option<i128>
    ensures { result ≡ unlisted (length (titles_of (map column_of columns.now) (map item_of items.now))) (tree_of key.now) }
{
    match key {
        Expr::Number {
            negative: true,
            digits,
        } => Some(-(*digits as i128)),
        Expr::Number { digits: 0, .. } => Some(0),
        Expr::Number { digits, .. } if is_shown(*digits - 1, columns, items) => None,
        Expr::Number { digits, .. } => Some(*digits as i128),
        _ => None,
    }
}

/// The first key of ORDER BY that is a number and no position in the select list.
pub fn wrong_position(columns: &[Column<'_>], select: &Select<'_>) -> Option<i128>
    ensures { result ≡ wrong_position (map column_of columns.now) (select_of select.now) }
{
    for key in &select.order {
        if let Some(position) = unlisted(&key.expr, columns, &select.items) {
            return Some(position);
        }
    }
    None
}
