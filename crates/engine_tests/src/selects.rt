//! What a SELECT answers, and the first fault that it meets (PostgreSQL manual, SELECT).

use crate::tables::check;
use crate::trial::Line;

const SELECTS: [Line; 17] = [
    (0, "CREATE TABLE t (a int NOT NULL, b text, c bigint)", ""),
    (
        1,
        "INSERT INTO t VALUES (1, 'one', 10), (2, NULL, 20), (0, 'zero', 30)",
        "",
    ),
    (
        1,
        "SELECT * FROM t",
        " a b c | 1 one 10 | 2 null 20 | 0 zero 30",
    ),
    (
        1,
        "SELECT c, a AS n, * FROM t WHERE a > 1",
        " c n a b c | 20 2 2 null 20",
    ),
    (1, "SELECT b FROM t WHERE b > 'p'", " b | zero"),
    (1, "SELECT a FROM t WHERE b > c", " type mismatch"),
    (1, "SELECT a FROM t WHERE a > 9", " a"),
    (1, "SELECT 6/a FROM t WHERE a > 0", " ? | 6 | 3"),
    (1, "SELECT 6/a FROM t", " division by zero"),
    (1, "SELECT b/1 FROM t", " type mismatch"),
    (1, "SELECT b/1 FROM t WHERE 6/a > 1", " division by zero"),
    (1, "SELECT a, y, z FROM t WHERE x > 0", " no column y"),
    (1, "SELECT 6/a FROM t WHERE x > 0", " no column x"),
    (1, "SELECT x FROM u", " no table u"),
    (
        1,
        "SELECT 'it' AS a, 'it' FROM t WHERE a = 0",
        " a ? | it it",
    ),
    (
        1,
        "SELECT 7, TRUE, a IS NULL FROM t WHERE a = 2",
        " ? ? ? | 7 true false",
    ),
    (1, "SELECT a", " no column a"),
];

#[test]
fn answers_of_a_select(rt: HostRuntime) {
    check(&rt, rt.alloc(), &SELECTS);
}
