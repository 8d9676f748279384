//! What aggregates answer, and the first fault that they meet (PostgreSQL manual, 9.21).

use crate::tables::check;
use crate::trial::Line;

const AGGREGATES: [Line; 20] = [
    (0, "CREATE TABLE t (a int, b text, c bigint, d boolean)", ""),
    (
        1,
        "SELECT count(*), count(a), sum(a), min(b), max(d) FROM t",
        " count count sum min max | 0 0 null null null",
    ),
    (
        1,
        "INSERT INTO t VALUES (3, 'x', 9223372036854775807, TRUE), (NULL, NULL, NULL, NULL), (-1, 'w', 1, FALSE)",
        "",
    ),
    (
        1,
        "SELECT count(*), count(a), sum(a), min(a), max(a) FROM t",
        " count count sum min max | 3 2 2 -1 3",
    ),
    (
        1,
        "SELECT min(b), max(b), min(c), max(c) FROM t",
        " min max min max | w x 1 9223372036854775807",
    ),
    (
        1,
        "SELECT COUNT(*) AS n, sum(a) total FROM t WHERE a > 0",
        " n total | 1 3",
    ),
    (1, "SELECT count(*) FROM t WHERE a > 5", " count | 0"),
    (
        1,
        "SELECT count(b || 'y'), count(1), count(NULL) FROM t",
        " count count count | 2 3 0",
    ),
    (
        1,
        "SELECT sum(a * 2147483647) FROM t WHERE a < 0",
        " sum | -2147483647",
    ),
    (
        1,
        "SELECT sum(a * 2147483647) FROM t",
        " integer out of range",
    ),
    (1, "SELECT sum(c) FROM t", " type mismatch"),
    (1, "SELECT min(d) FROM t", " type mismatch"),
    (1, "SELECT sum(b), sum(1/0) FROM t", " type mismatch"),
    (1, "SELECT sum(1/0), sum(b) FROM t", " division by zero"),
    (
        1,
        "SELECT count(*), max(6/(a + 1)) FROM t",
        " division by zero",
    ),
    (
        1,
        "SELECT count(6/(a + 1)) FROM t WHERE b/1 = 1",
        " type mismatch",
    ),
    (
        1,
        "SELECT count(z), sum(y) FROM t WHERE x = 1",
        " no column z",
    ),
    (1, "SELECT count(*) FROM t WHERE x = 1", " no column x"),
    (1, "SELECT count(*) FROM u", " no table u"),
    (
        1,
        "SELECT count(*), sum(7), min('q')",
        " count sum min | 1 7 q",
    ),
];

#[test]
fn answers_of_aggregates(rt: HostRuntime) {
    check(&rt, rt.alloc(), &AGGREGATES);
}
