//! Which UPDATEs leave the keys of a row.

use crate::told::{at_last, expression, holds};
use iso_lexer::Name;
use session_queries::{columns_set, leaves_all};
use sql_trees::{Column, Expr, Key, Kind};
use sql_values::{Row, Value};
use std::alloc::{AllocError, Global};

const COLUMNS: [Column<'static>; 4] = [
    Column {
        name: Name::Plain("a"),
        kind: Kind::Int,
        not_null: false,
    },
    Column {
        name: Name::Plain("b"),
        kind: Kind::Big,
        not_null: false,
    },
    Column {
        name: Name::Plain("c"),
        kind: Kind::Text,
        not_null: false,
    },
    Column {
        name: Name::Plain("d"),
        kind: Kind::Int,
        not_null: false,
    },
];

/// A row of `a`, which is 7, `b`, which is 8, `c`, which is NULL, and `d`, which is 9.
fn row_of(alloc: Global) -> Result<Row, AllocError> {
    let mut values = Vec::new(alloc);
    values.push(Value::Int(7))?;
    values.push(Value::Big(8))?;
    values.push(Value::Null)?;
    values.push(Value::Int(9))?;
    Ok(Row::from_vec(values))
}

fn key_of(alloc: Global, primary: bool, places: &[u32]) -> Result<Key, AllocError> {
    let mut columns = Vec::new(alloc);
    columns.extend_from_slice(places)?;
    Ok(Key { primary, columns })
}

/// The primary key is `a`, another key `b` and `c`.
fn keys_of(alloc: Global) -> Result<Vec<Key>, AllocError> {
    let mut keys = Vec::new(alloc);
    keys.push(key_of(alloc, true, &[0])?)?;
    keys.push(key_of(alloc, false, &[1, 2])?)?;
    Ok(keys)
}

/// A column, and what is assigned to it.
type Set = (&'static str, &'static str);

fn sets_of(
    alloc: Global,
    words: &[Set],
) -> Result<Option<Vec<(Name<'static>, Expr<'static>)>>, AllocError> {
    let mut sets = Vec::new(alloc);
    for (name, text) in words {
        match expression(alloc, *text)? {
            Some(expr) => sets.push((Name::Plain(*name), expr))?,
            None => return Ok(None),
        }
    }
    Ok(Some(sets))
}

fn leaves(
    alloc: Global,
    sets: &[(Name<'static>, Expr<'static>)],
    keys: &[Key],
    row: &Row,
) -> Result<Option<bool>, AllocError> {
    if row.values().len() != COLUMNS.len() {
        return Ok(None);
    }
    match columns_set(alloc, &COLUMNS, sets)? {
        Ok(to) => Ok(Some(leaves_all(alloc, &COLUMNS, &to, sets, keys, row)?)),
        Err(_) => Ok(None),
    }
}

fn is_so(alloc: Global, words: &[Set], wanted: bool) -> Result<bool, AllocError> {
    let Some(sets) = sets_of(alloc, words)? else {
        return Ok(false);
    };
    let keys = keys_of(alloc)?;
    let row = row_of(alloc)?;
    Ok(leaves(alloc, &sets, &keys, &row)? == Some(wanted))
}

/// What an UPDATE assigns, whether it leaves both keys, and what that shows.
const CASES: [(&'static [Set], bool, &'static str); 17] = [
    (&[("d", "1")], true, "a column of no key"),
    (&[("d", "1 / 0")], true, "a fault in a column of no key"),
    (&[("a", "7")], true, "the same number"),
    (&[("a", "a")], true, "the column itself"),
    (&[("a", "d - 2")], true, "an expression"),
    (&[("a", "8")], false, "another number"),
    (&[("a", "NULL")], false, "NULL in place of a number"),
    (&[("a", "a / 0")], false, "no value"),
    (
        &[("a", "7 + 2147483648")],
        false,
        "a value that the column doesn't take",
    ),
    (&[("b", "8")], true, "the same number of another kind"),
    (&[("b", "a")], false, "another column"),
    (&[("c", "NULL")], true, "NULL in place of NULL"),
    (&[("c", "'x'")], false, "a text in place of NULL"),
    (
        &[("a", "7"), ("b", "9")],
        false,
        "two keys, of which one stays",
    ),
    (
        &[("b", "9"), ("a", "7")],
        false,
        "the same in the other order",
    ),
    (&[("c", "c"), ("b", "b")], true, "both columns of a key"),
    (
        &[("a", "7"), ("d", "a"), ("c", "NULL")],
        true,
        "two keys and another column",
    ),
];

#[test]
fn keys_are_left(rt: HostRuntime) {
    for (words, wanted, of) in &CASES {
        holds(&rt, at_last!(is_so(rt.alloc(), *words, *wanted)), *of);
    }
}
