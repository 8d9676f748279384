//! What INSERT, UPDATE and DELETE return, and what INSERT does where a key is taken.

use crate::asked::{block_of, holds};
use sql_parser::Role;
use sql_trees::{Item, Stmt};
use std::alloc::{AllocError, Global};

// What kind of item it is.
fn kind(item: &Item<'_>) -> &'static str {
    match item {
        Item::All => "star",
        Item::Expr(_, None) => "value",
        Item::Expr(_, Some(_)) => "named",
        Item::Agg(..) => "aggregate",
    }
}

// Whether the items are of these kinds: the second may be missing, and both where nothing is returned.
fn are_returned(returning: &Option<Vec<Item<'_>>>, kinds: [&str; 2]) -> bool {
    let [first, second] = kinds;
    let Some(items) = returning else {
        return first.is_empty() && second.is_empty();
    };
    match items.as_slice() {
        [item] => kind(item) == first && second.is_empty(),
        [item, other] => kind(item) == first && kind(other) == second,
        _ => false,
    }
}

// Whether a change passes over taken keys, and returns items of these kinds.
fn is_change(stmt: &Stmt<'_>, passes: bool, kinds: [&str; 2]) -> bool {
    match stmt {
        Stmt::Insert(insert) => {
            insert.do_nothing == passes && are_returned(&insert.returning, kinds)
        }
        Stmt::Update(update) => !passes && are_returned(&update.returning, kinds),
        Stmt::Delete(delete) => !passes && are_returned(&delete.returning, kinds),
        _ => false,
    }
}

// Whether a session's text is one such change.
fn is_read_so(
    alloc: Global,
    text: &str,
    passes: bool,
    kinds: [&str; 2],
) -> Result<bool, AllocError> {
    let Some(block) = block_of(alloc, Role::Session, text)? else {
        return Ok(false);
    };
    Ok(match block.stmts() {
        [stmt] => is_change(stmt, passes, kinds),
        _ => false,
    })
}

// Changes, whether they pass over taken keys, and the kinds of what they return.
const CHANGES: [(&str, bool, [&str; 2]); 13] = [
    ("INSERT INTO t VALUES (1)", false, ["", ""]),
    (
        "INSERT INTO t VALUES (1), (2) ON CONFLICT DO NOTHING;",
        true,
        ["", ""],
    ),
    (
        "INSERT INTO t (a) VALUES (1) RETURNING *",
        false,
        ["star", ""],
    ),
    (
        "insert into t values (1) on conflict do nothing returning a, a + 1 b",
        true,
        ["value", "named"],
    ),
    (
        "INSERT INTO t VALUES (1)ON/**/CONFLICT/**/DO/**/NOTHING/**/RETURNING*,*",
        true,
        ["star", "star"],
    ),
    (
        "INSERT INTO nothing (conflict) VALUES (1) RETURNING conflict nothing",
        false,
        ["named", ""],
    ),
    ("UPDATE t SET a = 1", false, ["", ""]),
    (
        "UPDATE t SET a = 1, b = 2 RETURNING a \"returning\", b",
        false,
        ["named", "value"],
    ),
    (
        "UPDATE t SET a = 1 WHERE a > 1 RETURNING *, a;",
        false,
        ["star", "value"],
    ),
    ("DELETE FROM t", false, ["", ""]),
    ("DELETE FROM t RETURNING 'gone'", false, ["value", ""]),
    (
        "DELETE FROM t WHERE a IN (1, 2) RETURNING a AS a, *",
        false,
        ["named", "star"],
    ),
    (
        "DELETE FROM t WHERE a IS NULL RETURNING count, (sum)",
        false,
        ["value", "value"],
    ),
];

#[test]
fn changes_and_what_they_return(rt: HostRuntime) -> Result<(), AllocError> {
    for (text, passes, kinds) in CHANGES {
        holds(&rt, is_read_so(rt.alloc(), text, passes, kinds)?, text);
    }
    Ok(())
}
