//! Rows that are held at one of four strengths, and what becomes of those who want them (PostgreSQL manual, 13.3.2, and SELECT, "The Locking Clause").

use crate::tables::check;
use crate::trial::Line;

const FOUR_LOCK_STRENGTHS: [Line; 9] = [
    (
        0,
        "CREATE TABLE acct (id int PRIMARY KEY, bal int); INSERT INTO acct VALUES (1, 100), (2, 200)",
        "",
    ),
    (
        1,
        "BEGIN; SELECT id FROM acct WHERE id = 1 FOR KEY SHARE",
        " id | 1",
    ),
    (2, "UPDATE acct SET bal = 5 WHERE id = 1", ""),
    (2, "UPDATE acct SET id = id WHERE id = 1", ""),
    (
        2,
        "SELECT id FROM acct WHERE id = 1 FOR UPDATE NOWAIT",
        " not free acct",
    ),
    (
        2,
        "SELECT id FROM acct ORDER BY id FOR UPDATE SKIP LOCKED",
        " id | 2",
    ),
    (2, "UPDATE acct SET id = 7 WHERE id = 1", " waits"),
    (1, "COMMIT", ""),
    (1, "SELECT * FROM acct ORDER BY id", " id bal | 2 200 | 7 5"),
];

#[test]
fn four_lock_strengths(rt: HostRuntime) {
    check(&rt, rt.alloc(), &FOUR_LOCK_STRENGTHS);
}

/// Session 1 waits for session 2 with an UPDATE that leaves the key of the row as that is then, beside session 3; once session 2 has committed it doesn't.
const WAITING_STRENGTH_STAYS: [Line; 7] = [
    (
        0,
        "CREATE TABLE t (id int PRIMARY KEY, b int); INSERT INTO t VALUES (1, 0), (2, 0)",
        "",
    ),
    (1, "BEGIN; UPDATE t SET b = 9 WHERE id = 2", ""),
    (
        3,
        "BEGIN; SELECT id FROM t WHERE id = 1 FOR KEY SHARE",
        " id | 1",
    ),
    (2, "BEGIN; UPDATE t SET b = 10 WHERE id = 1", ""),
    (1, "UPDATE t SET id = id + b WHERE id = 1", " waits"),
    (3, "SELECT id FROM t WHERE id = 2 FOR SHARE", " waits"),
    (2, "COMMIT", " deadlock id | 2"),
];

#[test]
fn waiting_strength_stays(rt: HostRuntime) {
    check(&rt, rt.alloc(), &WAITING_STRENGTH_STAYS);
}

/// Refers to the row of the first key, as another table's foreign key does.
const REFERS: &str = "BEGIN; SELECT a FROM t WHERE a = 1 FOR KEY SHARE";

const TWO_KEYS: [Line; 16] = [
    (
        0,
        "CREATE TABLE t (a int PRIMARY KEY, b int, c int, d int, UNIQUE (b, c)); INSERT INTO t VALUES (1, NULL, 5, 0)",
        "",
    ),
    (1, REFERS, " a | 1"),
    (2, "UPDATE t SET a = a, b = NULL, c = c + 0, d = 1", ""),
    (2, "UPDATE t SET a = a + 0, c = 6", " waits"),
    (1, "COMMIT", ""),
    (1, REFERS, " a | 1"),
    (2, "UPDATE t SET a = 2, b = b, c = c", " waits"),
    (1, "COMMIT; SELECT * FROM t", " a b c d | 1 null 6 1"),
    (2, "SELECT * FROM t", " a b c d | 2 null 6 1"),
    (2, "UPDATE t SET a = 1", ""),
    (1, REFERS, " a | 1"),
    (2, "UPDATE t SET a = a, b = c / 0", " waits"),
    (3, "UPDATE t SET a = a, d = c / 0", " division by zero"),
    (1, "COMMIT", " division by zero"),
    (1, REFERS, " a | 1"),
    (2, "UPDATE t SET b = b", ""),
];

#[test]
fn an_update_of_two_keys_leaves_both_or_takes_the_row_alone(rt: HostRuntime) {
    check(&rt, rt.alloc(), &TWO_KEYS);
}
