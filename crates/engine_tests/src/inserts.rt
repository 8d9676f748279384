//! What an INSERT makes of its values, and the first fault that it meets (PostgreSQL manual, INSERT).

use crate::tables::check;
use crate::trial::Line;

const INSERTS: [Line; 18] = [
    (0, "CREATE TABLE t (a int NOT NULL, b text, c bigint)", ""),
    (
        1,
        "INSERT INTO t VALUES (7, 'x', 5); SELECT * FROM t; ROLLBACK",
        " a b c | 7 x 5",
    ),
    (
        1,
        "INSERT INTO t VALUES (7); SELECT * FROM t; ROLLBACK",
        " a b c | 7 null null",
    ),
    (
        1,
        "INSERT INTO t (c, a) VALUES (5, 7); SELECT * FROM t; ROLLBACK",
        " a b c | 7 null 5",
    ),
    (
        1,
        "INSERT INTO t (A) VALUES (7), (8); SELECT * FROM t; ROLLBACK",
        " a b c | 7 null null | 8 null null",
    ),
    (
        1,
        "INSERT INTO t (b, a) VALUES (NULL, 7); SELECT * FROM t; ROLLBACK",
        " a b c | 7 null null",
    ),
    (
        1,
        "INSERT INTO t VALUES (4/2, 'y', 2147483648); SELECT * FROM t; ROLLBACK",
        " a b c | 2 y 2147483648",
    ),
    (
        1,
        "INSERT INTO t (a, x, y) VALUES (1, 2, 3)",
        " no column to assign x",
    ),
    (1, "INSERT INTO t (b) VALUES ('x')", " null in a"),
    (1, "INSERT INTO t (a, c) VALUES (NULL, 5)", " null in a"),
    (1, "INSERT INTO t VALUES (1, b, z)", " no column b"),
    (1, "INSERT INTO t VALUES (1, 2, 3, 4)", " too many values"),
    (1, "INSERT INTO t VALUES ('x', 1/0)", " division by zero"),
    (1, "INSERT INTO t VALUES ('x', 'y', 1)", " type mismatch"),
    (
        1,
        "INSERT INTO t VALUES (2147483648)",
        " integer out of range",
    ),
    (1, "INSERT INTO t VALUES (1), (1/0)", " division by zero"),
    (1, "INSERT INTO u VALUES (1/0)", " no table u"),
    (2, "SELECT * FROM t", " a b c"),
];

#[test]
fn rows_of_an_insert(rt: HostRuntime) {
    check(&rt, rt.alloc(), &INSERTS);
}
