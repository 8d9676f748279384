//! What sessions see of one another's statements, and what a failure leaves (PostgreSQL manual, 13.2).

use crate::tables::check;
use crate::trial::Line;

const SESSIONS: [Line; 33] = [
    (
        0,
        "CREATE TABLE t (x int NOT NULL, y text); SELECT * FROM t; ROLLBACK",
        " x y",
    ),
    (1, "SELECT * FROM t", " no table t"),
    (0, "BEGIN; CREATE TABLE t (x int NOT NULL, y text)", ""),
    (1, "SELECT * FROM t", " no table t"),
    (0, "COMMIT", ""),
    (1, "INSERT INTO t VALUES (1), (2)", ""),
    (2, "SELECT x FROM t", " x | 1 | 2"),
    (
        1,
        "BEGIN; INSERT INTO t (x) VALUES (3); SELECT x FROM t",
        " x | 1 | 2 | 3",
    ),
    (2, "SELECT x FROM t", " x | 1 | 2"),
    (
        1,
        "INSERT INTO t VALUES (4), (NULL); SELECT x FROM t",
        " null in x",
    ),
    (1, "SELECT 1", " aborted"),
    (1, "BEGIN", " aborted"),
    (1, "COMMIT; SELECT x FROM t", " x | 1 | 2"),
    (
        1,
        "INSERT INTO t VALUES (5); SELECT 1/0; SELECT 2",
        " division by zero",
    ),
    (1, "SELECT x FROM t", " x | 1 | 2"),
    (0, "CREATE TABLE T (z int)", " there is T"),
    (0, "DROP TABLE t, u", " no table to drop u"),
    (
        0,
        "BEGIN; DROP TABLE IF EXISTS u, t; SELECT x FROM t",
        " no table t",
    ),
    (2, "SELECT x FROM t", " x | 1 | 2"),
    (0, "ROLLBACK; SELECT x FROM t", " x | 1 | 2"),
    (
        1,
        "SELECT 1; SET TRANSACTION ISOLATION LEVEL REPEATABLE READ",
        " ? | 1 too late",
    ),
    (
        1,
        "SELECT 1; BEGIN ISOLATION LEVEL REPEATABLE READ",
        " ? | 1 too late",
    ),
    (
        1,
        "SELECT 1; SET TRANSACTION ISOLATION LEVEL READ UNCOMMITTED",
        " ? | 1",
    ),
    (
        1,
        "SET TRANSACTION ISOLATION LEVEL REPEATABLE READ; BEGIN; SET deadlock_timeout = 1; SELECT x FROM t",
        " x | 1 | 2",
    ),
    (
        2,
        "INSERT INTO t VALUES (8); SELECT x FROM t",
        " x | 1 | 2 | 8",
    ),
    (
        1,
        "SELECT x FROM t; INSERT INTO t VALUES (9); SELECT x FROM t",
        " x | 1 | 2 x | 1 | 2 | 9",
    ),
    (2, "SELECT x FROM t", " x | 1 | 2 | 8"),
    (
        1,
        "BEGIN ISOLATION LEVEL READ COMMITTED; COMMIT; SELECT x FROM t",
        " x | 1 | 2 | 8 | 9",
    ),
    (1, "BEGIN; SELECT x FROM t WHERE x > 8", " x | 9"),
    (2, "INSERT INTO t VALUES (10)", ""),
    (
        1,
        "SELECT x FROM t WHERE x > 8; ROLLBACK; ROLLBACK",
        " x | 9 | 10",
    ),
    (0, "DROP TABLE t", ""),
    (1, "SELECT x FROM t", " no table t"),
];

#[test]
fn two_sessions_and_their_tables(rt: HostRuntime) {
    check(&rt, rt.alloc(), &SESSIONS);
}
