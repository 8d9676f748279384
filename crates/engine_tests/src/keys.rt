//! Keys that are free, taken or held by others, and what becomes of statements that wait for them (PostgreSQL manual, 5.5.3 and 13.3.2).

use crate::tables::check;
use crate::trial::Line;

const ROWS: [Line; 13] = [
    (
        0,
        "CREATE TABLE t (k int PRIMARY KEY, v int UNIQUE); INSERT INTO t VALUES (1, 10), (2, NULL), (3, NULL)",
        "",
    ),
    (1, "INSERT INTO t VALUES (1, 10)", " taken t_pkey"),
    (1, "INSERT INTO t VALUES (4, 10)", " taken t_v_key"),
    (1, "INSERT INTO t VALUES (NULL, 10)", " null in k"),
    (1, "INSERT INTO t VALUES (4, 4), (4, 5)", " taken t_pkey"),
    (1, "UPDATE t SET k = k + 1", " taken t_pkey"),
    (1, "UPDATE t SET k = NULL", " null in k"),
    (
        1,
        "UPDATE t SET k = k - 1, v = v; SELECT * FROM t ORDER BY k",
        " k v | 0 10 | 1 null | 2 null",
    ),
    (1, "UPDATE t SET v = 7 WHERE v IS NULL", " taken t_v_key"),
    (
        1,
        "BEGIN; DELETE FROM t WHERE k = 0; INSERT INTO t VALUES (0, 10); SELECT * FROM t WHERE k = 0; COMMIT",
        " k v | 0 10",
    ),
    (
        0,
        "CREATE TABLE u (a int, b text, UNIQUE (b, a)); INSERT INTO u VALUES (1, 'x'), (2, 'x'), (1, NULL), (1, NULL)",
        "",
    ),
    (1, "INSERT INTO u VALUES (2, 'x')", " taken u_b_a_key"),
    (
        1,
        "INSERT INTO u VALUES (2, 'y'); SELECT count(*) FROM u",
        " count | 5",
    ),
];

#[test]
fn keys_are_checked_row_by_row(rt: HostRuntime) {
    check(&rt, rt.alloc(), &ROWS);
}

const WAITS: [Line; 19] = [
    (0, "CREATE TABLE t (k int PRIMARY KEY, v int)", ""),
    (1, "BEGIN; INSERT INTO t VALUES (1, 1)", ""),
    (2, "BEGIN; INSERT INTO t VALUES (1, 2)", " waits"),
    (3, "INSERT INTO t VALUES (1, 3)", " waits"),
    (1, "ROLLBACK", ""),
    (2, "COMMIT", " taken t_pkey"),
    (1, "BEGIN; UPDATE t SET k = 4 WHERE k = 1", ""),
    (2, "INSERT INTO t VALUES (1, 5)", " waits"),
    (3, "INSERT INTO t VALUES (4, 6)", " waits"),
    (4, "INSERT INTO t VALUES (7, 7), (4, 8)", " waits"),
    (1, "COMMIT", " taken t_pkey taken t_pkey"),
    (1, "SELECT * FROM t ORDER BY k", " k v | 1 5 | 4 2"),
    (1, "BEGIN; DELETE FROM t WHERE k = 4", ""),
    (2, "UPDATE t SET k = 4 WHERE k = 1", " waits"),
    (1, "ROLLBACK", " taken t_pkey"),
    (1, "BEGIN; DELETE FROM t WHERE k = 4", ""),
    (2, "UPDATE t SET k = k + 3", " waits"),
    (1, "COMMIT", ""),
    (1, "SELECT * FROM t ORDER BY k", " k v | 4 5"),
];

#[test]
fn statements_wait_for_keys(rt: HostRuntime) {
    check(&rt, rt.alloc(), &WAITS);
}

const VIEWS: [Line; 6] = [
    (
        0,
        "CREATE TABLE t (k int PRIMARY KEY); INSERT INTO t VALUES (1)",
        "",
    ),
    (
        1,
        "BEGIN ISOLATION LEVEL REPEATABLE READ; SELECT * FROM t",
        " k | 1",
    ),
    (2, "INSERT INTO t VALUES (2)", ""),
    (1, "SELECT * FROM t", " k | 1"),
    (1, "INSERT INTO t VALUES (2)", " taken t_pkey"),
    (1, "ROLLBACK", ""),
];

#[test]
fn keys_outside_the_view_are_taken(rt: HostRuntime) {
    check(&rt, rt.alloc(), &VIEWS);
}

const CYCLES: [Line; 15] = [
    (0, "CREATE TABLE t (a int PRIMARY KEY, b int UNIQUE)", ""),
    (1, "BEGIN; INSERT INTO t VALUES (1, 1)", ""),
    (2, "BEGIN; INSERT INTO t VALUES (2, 2)", ""),
    (1, "INSERT INTO t VALUES (2, 3)", " waits"),
    (2, "INSERT INTO t VALUES (1, 4)", " deadlock"),
    (2, "ROLLBACK", ""),
    (1, "ROLLBACK", ""),
    (1, "BEGIN; INSERT INTO t VALUES (3, 30)", ""),
    (2, "BEGIN; INSERT INTO t VALUES (1, 10)", ""),
    (3, "BEGIN; INSERT INTO t VALUES (2, 20)", ""),
    (1, "INSERT INTO t VALUES (1, 20)", " waits"),
    (3, "INSERT INTO t VALUES (4, 30)", " waits"),
    (2, "ROLLBACK", " deadlock"),
    (1, "ROLLBACK", ""),
    (3, "COMMIT; SELECT * FROM t", " a b | 2 20 | 4 30"),
];

#[test]
fn waits_for_keys_close_no_cycle(rt: HostRuntime) {
    check(&rt, rt.alloc(), &CYCLES);
}
