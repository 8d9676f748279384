//! Whether an UPDATE leaves the keys of a row as they are.

ghost use Rattle.std.specs.Prelude.{◌≡◌, ◌==◌, ◌||◌, ◌&&◌, true, not, IfOk, OnErr, flat_map, length, map};
ghost use Rattle.std.specs.List.{list_any};
ghost use Rattle.sql_trees.specs.Statements.{column_of, key_of, set_of};
ghost use Rattle.sql_trees.specs.Trees.{tree_of};
ghost use Rattle.sql_values.specs.Growing.{may_grow};
ghost use Rattle.query_results.specs.Queries.{cols_of};
ghost use Rattle.query_results.specs.Updates.{stays, leaves_all};
ghost use Rattle.session_queries.specs.Leaving.{some_may_grow};
ghost use Rattle.session_queries.specs.Inner.Leaving.{is_key_column, leaves_as, leaves_each, leaves_with, one_may_grow};

use crate::assigned::{AssignedColumn, AssignedColumns};
use crate::known::known;
use iso_lexer::Name;
use sql_trees::{Column, Expr, Key};
use sql_values::{Columns, Row, Value, ValueFault, assign, compare, eval};
use std::alloc::{AllocError, Global};

/// Whether a column that has the one value still has it with the other.
fn stays(old: &Value, new: &Value) -> bool
    ensures { result ≡ stays old.now new.now }
{
    match (old, new) {
        (Value::Null, Value::Null) => true,
        _ => match compare(old, new) {
            Some(order) => order.is_eq(),
            None => false,
        },
    }
}

/// Whether the column takes the value as the one that the row has.
fn takes_its_own(to: &AssignedColumn, value: Value, row: &Row) -> bool
    ensures { result ≡ leaves_as row.now to.now value }
{
    let Ok(new) = assign(value, to.kind()) else {
        return false;
    };
    match row.values().get(to.place()) {
        Some(old) => stays(old, &new),
        None => stays(&Value::Null, &new),
    }
}

/// Whether the column stays as it is when the expression is assigned to it. A fault leaves no column as it is.
fn leaves<'a>(
    alloc: Global,
    columns: &Columns<'_>,
    to: &AssignedColumn,
    expr: &Expr<'a>,
    row: &Row,
) -> Result<bool, AllocError>
    requires { length row.now ≡ length columns.now }
    ensures exact { IfOk result (λ yes. yes ≡ leaves_with columns.now row.now to.now (tree_of expr.now)) }
    ensures memory { OnErr result (may_grow (tree_of expr.now) ≡ true) }
{
    match eval(alloc, expr, columns, row) {
        Ok(value) => Ok(takes_its_own(to, value, row)),
        Err(ValueFault::Memory) => Err(AllocError),
        Err(_) => Ok(false),
    }
}

/// Whether the key has the column.
fn has_column(key: &Key, place: usize) -> bool
    ensures { result ≡ list_any (λ column. column == place) (key_of key.now).columns }
{
    for column in &key.columns {
        if *column as usize == place {
            return true;
        }
    }
    false
}

/// Whether a key has the column.
#[tactic(auto, using(crate::proofs::KeysLeft::key_step))]
fn is_key_column(keys: &[Key], place: usize) -> bool
    ensures { result ≡ is_key_column (flat_map (λ k. k.columns) (map key_of keys.now)) place }
{
    for key in keys {
        if has_column(key, place) {
            return true;
        }
    }
    false
}

/// Whether the column is in no key, or stays as it is.
fn leaves_key<'a>(
    alloc: Global,
    columns: &Columns<'_>,
    keys: &[Key],
    to: &AssignedColumn,
    expr: &Expr<'a>,
    row: &Row,
) -> Result<bool, AllocError>
    requires { length row.now ≡ length columns.now }
    ensures exact { IfOk result (λ yes. yes ≡ (not (is_key_column (flat_map (λ k. k.columns) (map key_of keys.now)) to.now.place) || leaves_with columns.now row.now to.now (tree_of expr.now))) }
    ensures memory { OnErr result ((is_key_column (flat_map (λ k. k.columns) (map key_of keys.now)) to.now.place && may_grow (tree_of expr.now)) ≡ true) }
{
    if !is_key_column(keys, to.place()) {
        return Ok(true);
    }
    leaves(alloc, columns, to, expr, row)
}

/// Whether each column of the keys that is assigned to stays as it is.
fn leaves_each<'a>(
    alloc: Global,
    columns: &Columns<'_>,
    to: &[AssignedColumn],
    sets: &[(Name<'a>, Expr<'a>)],
    keys: &[Key],
    row: &Row,
) -> Result<bool, AllocError>
    requires { length row.now ≡ length columns.now }
    ensures exact { IfOk result (λ yes. yes ≡ leaves_each columns.now to.now (map set_of sets.now) (flat_map (λ k. k.columns) (map key_of keys.now)) row.now) }
    ensures memory { OnErr result (one_may_grow to.now (map set_of sets.now) (flat_map (λ k. k.columns) (map key_of keys.now)) ≡ true) }
{
    let mut rest = sets;
    for column in to {
        let [(_, expr), behind @ ..] = rest else {
            return Ok(true);
        };
        if !leaves_key(alloc, columns, keys, column, expr, row)? {
            return Ok(false);
        }
        rest = behind;
    }
    Ok(true)
}

/// Whether an UPDATE leaves each column of the keys as the row has it. A column whose expression has no value isn't left as it is; those that no key has aren't evaluated.
#[tactic(auto, using(crate::proofs::KeysLeft::each_left, crate::proofs::KeysLeft::one_grows))]
pub fn leaves_all<'a>(
    alloc: Global,
    columns: &[Column<'_>],
    to: &AssignedColumns,
    sets: &[(Name<'a>, Expr<'a>)],
    keys: &[Key],
    row: &Row,
) -> Result<bool, AllocError>
    requires { length row.now ≡ length columns.now }
    ensures exact { IfOk result (λ yes. yes ≡ leaves_all (cols_of (map column_of columns.now)) to.now (map set_of sets.now) (flat_map (λ k. k.columns) (map key_of keys.now)) row.now) }
    // Memory is asked for to evaluate what is assigned to the keys.
    ensures memory { OnErr result (some_may_grow to.now (map set_of sets.now) (flat_map (λ k. k.columns) (map key_of keys.now)) ≡ true) }
{
    let columns = known(columns);
    leaves_each(alloc, &columns, to.as_slice(), sets, keys, row)
}
