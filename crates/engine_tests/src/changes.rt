//! What UPDATE and DELETE make of rows (PostgreSQL manual, UPDATE and DELETE).

use crate::at_rows::{Said, check};

const ROWS: &str = "INSERT INTO t VALUES (1, 3, 'x', TRUE), (2, NULL, 'y', FALSE)";

const UPDATES: [Said; 9] = [
    (
        "UPDATE t SET a = id, id = a",
        " | 3 1 x true | null 2 y false",
    ),
    (
        "UPDATE t SET b = b || '!', c = NULL WHERE a > 1",
        " | 1 3 x! null",
    ),
    ("UPDATE t SET a = b", " type mismatch"),
    ("UPDATE t SET id = b, a = 1 / 0", " division by zero"),
    (
        "UPDATE t SET id = 2147483648, a = b",
        " integer out of range",
    ),
    ("UPDATE t SET a = 1 / 0 WHERE a > 3", ""),
    (
        "UPDATE t SET a = x, y = 1 WHERE z",
        " no column to assign y",
    ),
    ("UPDATE t SET a = 1, b = x WHERE z", " no column x"),
    ("UPDATE t SET a = 1 WHERE z", " no column z"),
];

const DELETES: [Said; 4] = [
    ("DELETE FROM t", " 0 1"),
    ("DELETE FROM t WHERE a IS NULL", " 1"),
    ("DELETE FROM t WHERE b", " type mismatch"),
    ("DELETE FROM t WHERE z", " no column z"),
];

#[test]
fn updated_rows(rt: HostRuntime) {
    check(&rt, rt.alloc(), ROWS, &UPDATES);
}

#[test]
fn deleted_rows(rt: HostRuntime) {
    check(&rt, rt.alloc(), ROWS, &DELETES);
}
