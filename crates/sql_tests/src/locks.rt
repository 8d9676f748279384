//! How a SELECT locks its rows: each strength with each policy.

use crate::asked::{block_of, holds};
use sql_parser::Role;
use sql_trees::{Lock, Policy, Stmt, Strength};
use std::alloc::{AllocError, Global};

// SELECTs of a table by a condition, with one sort key, and what they lock their rows with.
const LOCKS: [(&str, Strength, Policy); 12] = [
    (
        "SELECT a FROM t WHERE a > 1 ORDER BY a FOR UPDATE",
        Strength::Update,
        Policy::Wait,
    ),
    (
        "SELECT a FROM t WHERE a > 1 ORDER BY a FOR UPDATE NOWAIT",
        Strength::Update,
        Policy::NoWait,
    ),
    (
        "SELECT a FROM t WHERE a > 1 ORDER BY a FOR UPDATE SKIP LOCKED;",
        Strength::Update,
        Policy::SkipLocked,
    ),
    (
        "SELECT a FROM t WHERE a > 1 ORDER BY a FOR NO KEY UPDATE",
        Strength::NoKeyUpdate,
        Policy::Wait,
    ),
    (
        "SELECT a FROM t WHERE a > 1 ORDER BY a DESC FOR NO KEY UPDATE NOWAIT;",
        Strength::NoKeyUpdate,
        Policy::NoWait,
    ),
    (
        "select a from t where a > 1 order by a for no key update skip locked",
        Strength::NoKeyUpdate,
        Policy::SkipLocked,
    ),
    (
        "SELECT a FROM t WHERE a > 1 ORDER BY a FOR SHARE",
        Strength::Share,
        Policy::Wait,
    ),
    (
        "SELECT a FROM t WHERE NOWAIT ORDER BY a For Share NoWait",
        Strength::Share,
        Policy::NoWait,
    ),
    (
        "SELECT a FROM t WHERE a > 1 ORDER BY skip FOR SHARE SKIP LOCKED",
        Strength::Share,
        Policy::SkipLocked,
    ),
    (
        "SELECT a FROM t WHERE a > 1 ORDER BY a NULLS FIRST FOR KEY SHARE",
        Strength::KeyShare,
        Policy::Wait,
    ),
    (
        "SELECT a FROM t WHERE a > 1 ORDER BY a FOR KEY SHARE NOWAIT",
        Strength::KeyShare,
        Policy::NoWait,
    ),
    (
        "SELECT key FROM no WHERE skip > 1 ORDER BY locked FOR/**/KEY/**/SHARE/**/SKIP/**/LOCKED",
        Strength::KeyShare,
        Policy::SkipLocked,
    ),
];

// Whether a SELECT of one item has a table, a condition, one sort key and this lock, if any.
fn has_lock(stmt: &Stmt<'_>, lock: Option<Lock>) -> bool {
    match stmt {
        Stmt::Select(select) => {
            select.items.len() == 1
                && select.table.is_some()
                && select.filter.is_some()
                && select.order.len() == 1
                && select.lock == lock
        }
        _ => false,
    }
}

// Whether the text is one such SELECT.
fn is_read_with(alloc: Global, text: &str, lock: Option<Lock>) -> Result<bool, AllocError> {
    let Some(block) = block_of(alloc, Role::Session, text)? else {
        return Ok(false);
    };
    Ok(match block.stmts() {
        [stmt] => has_lock(stmt, lock),
        _ => false,
    })
}

#[test]
fn strengths_and_policies(rt: HostRuntime) -> Result<(), AllocError> {
    for (text, strength, policy) in LOCKS {
        let lock = Lock { strength, policy };
        holds(&rt, is_read_with(rt.alloc(), text, Some(lock))?, text);
    }
    let text = "SELECT share nowait FROM no WHERE skip ORDER BY key";
    holds(&rt, is_read_with(rt.alloc(), text, None)?, text);
    Ok(())
}
