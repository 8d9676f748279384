//! What INSERT, UPDATE and DELETE answer for their rows (PostgreSQL manual, 6.4), and rows of VALUES that are passed over (INSERT, "ON CONFLICT Clause").

use crate::tables::check;
use crate::trial::Line;

const ONE_ROW: &str = "CREATE TABLE t (k int PRIMARY KEY, v int); INSERT INTO t VALUES (1, 10)";

const TWO: &str = "BEGIN; INSERT INTO t VALUES (2, 20) RETURNING k";

const FOUR_ROWS: &str =
    "INSERT INTO t VALUES (1, 0), (2, 0), (3, 0), (3, 1) ON CONFLICT DO NOTHING RETURNING k, v";

const ADD: &str = "UPDATE t SET v = v + 1 WHERE k < 3 RETURNING *";

const DO_NOTHING_AND_RETURNING: [Line; 6] = [
    (0, ONE_ROW, ""),
    (1, TWO, " k | 2"),
    (2, FOUR_ROWS, " waits"),
    (1, "COMMIT", " k v | 3 0"),
    (2, ADD, " k v | 1 11 | 2 21"),
    (2, "DELETE FROM t WHERE k > 8 RETURNING k", " k"),
];

#[test]
fn do_nothing_and_returning(rt: HostRuntime) {
    check(&rt, rt.alloc(), &DO_NOTHING_AND_RETURNING);
}

const REPEATABLE: &str =
    "BEGIN ISOLATION LEVEL REPEATABLE READ; UPDATE t SET v = v + 1 WHERE k < 3 RETURNING *";

const DO_NOTHING_AT_REPEATABLE_READ: [Line; 6] = [
    (0, ONE_ROW, ""),
    (2, REPEATABLE, " k v | 1 11"),
    (1, TWO, " k | 2"),
    (1, "COMMIT", ""),
    (2, FOUR_ROWS, " not serializable"),
    (
        2,
        "ROLLBACK; SELECT * FROM t ORDER BY k",
        " k v | 1 10 | 2 20",
    ),
];

#[test]
fn do_nothing_at_repeatable_read(rt: HostRuntime) {
    check(&rt, rt.alloc(), &DO_NOTHING_AT_REPEATABLE_READ);
}

const DO_NOTHING_ON_OWN_ROW: [Line; 5] = [
    (0, ONE_ROW, ""),
    (2, REPEATABLE, " k v | 1 11"),
    (1, TWO, " k | 2"),
    (1, "COMMIT", ""),
    (
        2,
        "INSERT INTO t VALUES (4, 0), (4, 1) ON CONFLICT DO NOTHING RETURNING k, v; INSERT INTO t VALUES (1, 0), (4, 2) ON CONFLICT DO NOTHING RETURNING k",
        " k v | 4 0 k",
    ),
];

#[test]
fn do_nothing_on_own_row(rt: HostRuntime) {
    check(&rt, rt.alloc(), &DO_NOTHING_ON_OWN_ROW);
}

const TWO_KEYS: &str =
    "CREATE TABLE t (a int PRIMARY KEY, b int UNIQUE); INSERT INTO t VALUES (1, 10)";

/// The first key that isn't free decides: it is taken, or it is held, whatever the second one is.
const HELD_AND_TAKEN: [Line; 9] = [
    (0, TWO_KEYS, ""),
    (1, "BEGIN; INSERT INTO t VALUES (2, 20)", ""),
    (
        2,
        "INSERT INTO t VALUES (1, 20) ON CONFLICT DO NOTHING RETURNING a",
        " a",
    ),
    (
        2,
        "INSERT INTO t VALUES (2, 10) ON CONFLICT DO NOTHING RETURNING a",
        " waits",
    ),
    (1, "ROLLBACK", " a"),
    (1, "BEGIN; INSERT INTO t VALUES (2, 20)", ""),
    (
        2,
        "INSERT INTO t VALUES (2, 30) ON CONFLICT DO NOTHING RETURNING a, b",
        " waits",
    ),
    (1, "ROLLBACK", " a b | 2 30"),
    (2, "SELECT * FROM t ORDER BY a", " a b | 1 10 | 2 30"),
];

#[test]
fn the_first_key_that_is_held_or_taken_decides(rt: HostRuntime) {
    check(&rt, rt.alloc(), &HELD_AND_TAKEN);
}

/// It waits for two transactions one after the other; what was answered before each of the waits stays.
const WAITS_TWICE: [Line; 7] = [
    (0, TWO_KEYS, ""),
    (1, "BEGIN; INSERT INTO t VALUES (3, 30)", ""),
    (3, "BEGIN; INSERT INTO t VALUES (5, 50)", ""),
    (
        2,
        "INSERT INTO t VALUES (2, 1), (3, 2), (4, 3), (5, 4), (6, 5) ON CONFLICT DO NOTHING RETURNING a",
        " waits",
    ),
    (1, "COMMIT", " waits"),
    (3, "ROLLBACK", " a | 2 | 4 | 5 | 6"),
    (
        2,
        "SELECT * FROM t ORDER BY a",
        " a b | 1 10 | 2 1 | 3 30 | 4 3 | 5 4 | 6 5",
    ),
];

#[test]
fn do_nothing_waits_twice(rt: HostRuntime) {
    check(&rt, rt.alloc(), &WAITS_TWICE);
}

const EACH_KIND: [Line; 13] = [
    (0, TWO_KEYS, ""),
    (
        1,
        "INSERT INTO t (b, a) VALUES (20, 2), (30, 3) RETURNING *, b + a AS c",
        " a b c | 2 20 22 | 3 30 33",
    ),
    (
        1,
        "UPDATE t SET a = a + 10, b = a WHERE a > 1 RETURNING a, b, 1",
        " a b ? | 12 2 1 | 13 3 1",
    ),
    (
        1,
        "DELETE FROM t WHERE a > 12 RETURNING b, a",
        " b a | 3 13",
    ),
    (1, "UPDATE t SET b = 0 WHERE a = 99 RETURNING b", " b"),
    (
        1,
        "INSERT INTO t VALUES (12, 0) ON CONFLICT DO NOTHING RETURNING *",
        " a b",
    ),
    (
        1,
        "INSERT INTO t VALUES (5, 50) RETURNING nope",
        " no column nope",
    ),
    (1, "DELETE FROM t RETURNING a, nope", " no column nope"),
    (
        1,
        "INSERT INTO t VALUES (5, 50), (6, 0) RETURNING 100 / b",
        " division by zero",
    ),
    (
        1,
        "UPDATE t SET b = b - 2 RETURNING 100 / b",
        " division by zero",
    ),
    (
        1,
        "DELETE FROM t RETURNING 100 / (b - 2)",
        " division by zero",
    ),
    (
        1,
        "INSERT INTO t VALUES (NULL, 10) ON CONFLICT DO NOTHING",
        " null in a",
    ),
    (1, "SELECT * FROM t ORDER BY a", " a b | 1 10 | 12 2"),
];

#[test]
fn each_kind_answers_its_rows(rt: HostRuntime) {
    check(&rt, rt.alloc(), &EACH_KIND);
}

/// What was answered before the wait, and for the row as it is then.
const ANSWERED_BEHIND_A_WAIT: [Line; 8] = [
    (0, TWO_KEYS, ""),
    (1, "INSERT INTO t VALUES (2, 20)", ""),
    (1, "BEGIN; UPDATE t SET b = 25 WHERE a = 2", ""),
    (2, "UPDATE t SET b = b + 1 RETURNING *", " waits"),
    (1, "COMMIT", " a b | 1 11 | 2 26"),
    (1, "BEGIN; DELETE FROM t WHERE a = 2", ""),
    (2, "DELETE FROM t RETURNING b", " waits"),
    (1, "ROLLBACK", " b | 11 | 26"),
];

#[test]
fn rows_are_answered_behind_a_wait(rt: HostRuntime) {
    check(&rt, rt.alloc(), &ANSWERED_BEHIND_A_WAIT);
}
