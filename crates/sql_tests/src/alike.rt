//! Texts that are the same block, the second one written out: each operator in parentheses, each word that may be left out in its place.

use crate::asked::{block_of, holds, is_same};
use sql_parser::Role;
use sql_trees::{Key, Level, Stmt};
use std::alloc::{AllocError, Global};
use std::process::Abort;

// Statements of a session.
const STATEMENTS: [(&str, &str); 41] = [
    ("", " ;; /* a /* b */ */ -- c"),
    ("begin Work", "BEGIN"),
    ("BEGIN TRANSACTION", "BEGIN"),
    ("Start Transaction", "BEGIN"),
    (
        "BEGIN TRANSACTION ISOLATION LEVEL READ UNCOMMITTED",
        "BEGIN ISOLATION LEVEL READ COMMITTED",
    ),
    (
        "START TRANSACTION ISOLATION LEVEL REPEATABLE READ;",
        "BEGIN ISOLATION LEVEL REPEATABLE READ",
    ),
    (
        "COMMIT; END WORK;; commit transaction;",
        "COMMIT; COMMIT; COMMIT",
    ),
    (
        "ROLLBACK; ABORT; ROLLBACK WORK; ABORT TRANSACTION",
        "ROLLBACK; ROLLBACK; ROLLBACK; ROLLBACK",
    ),
    (
        "SET deadlock_timeout = '100ms'; SET SESSION deadlock_timeout TO 5; SET LOCAL DEADLOCK_TIMEOUT = 1",
        "SET deadlock_timeout = 1; SET deadlock_timeout = 1; SET deadlock_timeout = 1",
    ),
    (
        "INSERT INTO t (a, b) VALUES (1, 'x'), (NULL, a + 1)",
        "INSERT INTO \"t\" (\"a\", \"b\") VALUES (1, 'x'), (NULL, (a + 1))",
    ),
    (
        "insert into \"T\" values ((1)), (TRUE);",
        "INSERT INTO \"T\" VALUES (1), (true)",
    ),
    ("UPDATE t SET v = v + 1", "UPDATE T SET V = (V + 1)"),
    (
        "UPDATE t SET v = 1, w = v WHERE v IS NULL",
        "UPDATE t SET v = 1, w = (v) WHERE (v IS NULL)",
    ),
    (
        "insert into t values (1) on conflict do nothing returning a + 1 b, *;",
        "INSERT INTO \"t\" VALUES (1) ON CONFLICT DO NOTHING RETURNING (a + 1) AS \"b\", *",
    ),
    (
        "UPDATE t SET v = 1 WHERE a = 1 RETURNING v, v + 1 w",
        "UPDATE t SET v = 1 WHERE (a = 1) RETURNING (v), (v + 1) AS w",
    ),
    ("delete from t returning A", "DELETE FROM t RETURNING \"a\""),
    (
        "DELETE FROM t WHERE a = 1 OR b",
        "DELETE FROM t WHERE ((a = 1) OR b)",
    ),
    (
        "SELECT 1 - 2 - 3, 1 + 2 * 3",
        "SELECT ((1 - 2) - 3), (1 + (2 * 3))",
    ),
    (
        "SELECT - -2147483648, -(1), -a, +1",
        "SELECT 2147483648, -1, (- a), (+ 1)",
    ),
    (
        "SELECT 'it''s', '', \"a\"\"b\", \"select\"",
        "SELECT ('it''s'), (''), (\"a\"\"b\"), (\"select\")",
    ),
    (
        "SELECT a || b || c, 7 / 2 % 2",
        "SELECT ((a || b) || c), ((7 / 2) % 2)",
    ),
    ("SELECT NOT a AND b OR c", "SELECT (((NOT a) AND b) OR c)"),
    (
        "SELECT a = 1 IS NOT UNKNOWN, b IS FALSE",
        "SELECT ((a = 1) IS NOT UNKNOWN), (b IS FALSE)",
    ),
    (
        "SELECT a NOT IN (1, 2), b IN (c)",
        "SELECT (a NOT IN ((1), (2))), (b IN ((c)))",
    ),
    (
        "SELECT a BETWEEN 1 AND 2 AND b NOT BETWEEN c AND d",
        "SELECT ((a BETWEEN (1) AND (2)) AND (b NOT BETWEEN (c) AND (d)))",
    ),
    ("SELECT a != 1", "SELECT (a <> 1)"),
    (
        "SELECT a AS b, c d, \"E\" FROM t",
        "SELECT a AS b, c AS d, \"E\" FROM t",
    ),
    (
        "SELECT count(*), COUNT(a) n, sum(a + 1), min(a) AS m, max(a) FROM t WHERE a > 1",
        "SELECT count(*), count(a) AS n, sum((a + 1)), min((a)) AS m, max(a) FROM t WHERE (a > 1)",
    ),
    (
        "SELECT count, sum AS min FROM max",
        "SELECT \"count\", \"sum\" AS \"min\" FROM \"max\"",
    ),
    (
        "SELECT savepoint view FROM key",
        "SELECT \"savepoint\" AS \"view\" FROM \"key\"",
    ),
    (
        "SELECT no nowait, skip FROM key FOR KEY SHARE SKIP LOCKED",
        "SELECT \"no\" AS \"nowait\", \"skip\" FROM \"key\" FOR KEY SHARE SKIP LOCKED",
    ),
    (
        "SELECT a FROM t ORDER BY a",
        "SELECT a FROM t ORDER BY a ASC NULLS LAST",
    ),
    (
        "SELECT a FROM t ORDER BY b DESC, c + 1 ASC",
        "SELECT a FROM t ORDER BY b DESC NULLS FIRST, (c + 1) NULLS LAST",
    ),
    (
        "SELECT a FROM t WHERE a = 1 ORDER BY a FOR SHARE",
        "SELECT a FROM t WHERE (a = 1) ORDER BY a ASC FOR SHARE",
    ),
    ("SELECT 1;; SELECT 2; ; COMMIT", "SELECT 1; SELECT 2; END"),
    (
        "SELECT a FROM t; COMMIT",
        " select A from \"t\";; END WORK;",
    ),
    ("SELECT 1 WHERE FALSE", "SELECT 1 WHERE (false)"),
    ("SELECT 2 ORDER BY 1", "SELECT (2) ORDER BY (1) ASC"),
    ("SELECT a, *, b FROM t", "SELECT (a), *, (b) FROM \"t\""),
    (
        "UPDATE t SET a = ((1)) WHERE TRUE",
        "UPDATE t SET a = 1 WHERE true",
    ),
    ("SELECT ((1 IN (2)))", "SELECT 1 IN (2)"),
];

// Statements that make and drop tables; these are a main block's.
const TABLES: [(&str, &str); 9] = [
    (
        "CREATE TABLE t (a INT, b int4, d int8, g varchar, i bool)",
        "CREATE TABLE t (a INTEGER, b INTEGER, d BIGINT, g TEXT, i BOOLEAN)",
    ),
    (
        "CREATE TABLE t (a int PRIMARY KEY, b text NOT NULL UNIQUE)",
        "CREATE TABLE t (a int NOT NULL, b text NOT NULL, PRIMARY KEY (a), UNIQUE (b))",
    ),
    (
        "CREATE TABLE t (a int UNIQUE, b int, UNIQUE (b), PRIMARY KEY (b, a))",
        "CREATE TABLE t (a int NOT NULL, b int NOT NULL, PRIMARY KEY (b, a), UNIQUE (a), UNIQUE (b))",
    ),
    (
        "CREATE TABLE t (UNIQUE (a), a int)",
        "CREATE TABLE t (a int UNIQUE)",
    ),
    (
        "CREATE TABLE t (\"A\" int, a int UNIQUE, UNIQUE (\"A\"))",
        "CREATE TABLE t (\"A\" int, A int, UNIQUE (A), UNIQUE (\"A\"))",
    ),
    (
        "CREATE TABLE \"T\" (\"unique\" int, \"primary\" int NOT NULL NOT NULL)",
        "CREATE TABLE \"T\" (\"unique\" int, \"primary\" int NOT NULL)",
    ),
    (
        "CREATE TABLE view (key int, count int, text text)",
        "CREATE TABLE \"view\" (\"key\" int, \"count\" int, \"text\" text)",
    ),
    ("DROP TABLE if, exists", "DROP TABLE \"if\", \"exists\""),
    (
        "CREATE TABLE t (a int); INSERT INTO t VALUES (1);",
        "CREATE TABLE t (a int); INSERT INTO t VALUES ((1))",
    ),
];

// Texts that are read, and as blocks that differ.
const UNLIKE: [(&str, &str); 27] = [
    ("SELECT a FROM t; COMMIT", "SELECT a FROM t; ROLLBACK"),
    ("SELECT a FROM t; COMMIT", "SELECT a FROM t"),
    ("BEGIN", "BEGIN ISOLATION LEVEL READ COMMITTED"),
    (
        "BEGIN ISOLATION LEVEL READ COMMITTED",
        "BEGIN ISOLATION LEVEL REPEATABLE READ",
    ),
    ("SELECT - 1", "SELECT + 1"),
    ("SELECT a < 1", "SELECT a <= 1"),
    ("SELECT a / b", "SELECT a % b"),
    ("SELECT a IS NULL", "SELECT a IS UNKNOWN"),
    ("SELECT a IS TRUE", "SELECT a IS NOT TRUE"),
    ("SELECT a IN (1, 2)", "SELECT a IN (2, 1)"),
    ("SELECT a BETWEEN 1 AND 2", "SELECT a BETWEEN 2 AND 1"),
    ("SELECT 'A'", "SELECT 'a'"),
    ("SELECT \"A\"", "SELECT A"),
    ("SELECT min(a) FROM t", "SELECT max(a) FROM t"),
    (
        "SELECT a FROM t ORDER BY a",
        "SELECT a FROM t ORDER BY a NULLS FIRST",
    ),
    (
        "SELECT a FROM t FOR UPDATE",
        "SELECT a FROM t FOR NO KEY UPDATE",
    ),
    (
        "SELECT a FROM t FOR SHARE NOWAIT",
        "SELECT a FROM t FOR SHARE SKIP LOCKED",
    ),
    ("CREATE TABLE t (a int)", "CREATE TABLE t (a int NOT NULL)"),
    (
        "CREATE TABLE t (a int, b int, UNIQUE (a, b))",
        "CREATE TABLE t (a int, b int, UNIQUE (b, a))",
    ),
    ("DROP TABLE t", "DROP TABLE IF EXISTS t"),
    ("INSERT INTO t VALUES (1)", "INSERT INTO t (a) VALUES (1)"),
    ("DELETE FROM t", "DELETE FROM t WHERE TRUE"),
    (
        "INSERT INTO t VALUES (1)",
        "INSERT INTO t VALUES (1) ON CONFLICT DO NOTHING",
    ),
    (
        "INSERT INTO t VALUES (1)",
        "INSERT INTO t VALUES (1) RETURNING a",
    ),
    ("UPDATE t SET v = 1", "UPDATE t SET v = 1 RETURNING *"),
    (
        "DELETE FROM t RETURNING a",
        "DELETE FROM t RETURNING a AS b",
    ),
    (
        "DELETE FROM t RETURNING a, b",
        "DELETE FROM t RETURNING b, a",
    ),
];

fn all_are(
    rt: &impl Abort,
    alloc: Global,
    role: Role,
    same: bool,
    rows: &[(&str, &str)],
) -> Result<(), AllocError> {
    for (text, other) in rows {
        let so = is_same(alloc, role, *text, *other)? == Some(same);
        holds(rt, so, *text);
    }
    Ok(())
}

#[test]
fn texts_of_one_block(rt: HostRuntime) -> Result<(), AllocError> {
    all_are(&rt, rt.alloc(), Role::Session, true, STATEMENTS.as_slice())?;
    all_are(&rt, rt.alloc(), Role::Main, true, TABLES.as_slice())
}

#[test]
fn texts_of_blocks_that_differ(rt: HostRuntime) -> Result<(), AllocError> {
    all_are(&rt, rt.alloc(), Role::Main, false, UNLIKE.as_slice())
}

// What kind of statement it is.
fn kind(stmt: &Stmt<'_>) -> &'static str {
    match stmt {
        Stmt::Begin(None) => "Begin",
        Stmt::Begin(Some(Level::ReadCommitted)) => "Begin ReadCommitted",
        Stmt::Begin(Some(Level::RepeatableRead)) => "Begin RepeatableRead",
        Stmt::Commit => "Commit",
        Stmt::Rollback => "Rollback",
        Stmt::SetTransaction(Level::ReadCommitted) => "SetTransaction ReadCommitted",
        Stmt::SetTransaction(Level::RepeatableRead) => "SetTransaction RepeatableRead",
        Stmt::SetDeadlockTimeout => "SetDeadlockTimeout",
        Stmt::CreateTable(_) => "CreateTable",
        Stmt::DropTable(_) => "DropTable",
        Stmt::Insert(_) => "Insert",
        Stmt::Update(_) => "Update",
        Stmt::Delete(_) => "Delete",
        Stmt::Select(_) => "Select",
    }
}

// Whether a main block's text is one statement of this kind.
fn is_one(alloc: Global, text: &str, told: &str) -> Result<bool, AllocError> {
    let Some(block) = block_of(alloc, Role::Main, text)? else {
        return Ok(false);
    };
    Ok(match block.stmts() {
        [stmt] => kind(stmt) == told,
        _ => false,
    })
}

const KINDS: [(&str, &str); 15] = [
    ("begin", "Begin"),
    (
        "begin isolation level read committed",
        "Begin ReadCommitted",
    ),
    (
        "begin isolation level repeatable read",
        "Begin RepeatableRead",
    ),
    ("Commit;", "Commit"),
    ("rollback;", "Rollback"),
    (
        "set transaction isolation level read uncommitted",
        "SetTransaction ReadCommitted",
    ),
    (
        "set transaction isolation level repeatable read",
        "SetTransaction RepeatableRead",
    ),
    ("set deadlock_timeout = 1", "SetDeadlockTimeout"),
    ("create table t (a int)", "CreateTable"),
    ("drop table if exists t", "DropTable"),
    ("insert into t values (1)", "Insert"),
    ("update t set a = 1", "Update"),
    ("delete from t", "Delete"),
    ("select 1", "Select"),
    ("select count(*)", "Select"),
];

#[test]
fn kinds_of_statements(rt: HostRuntime) -> Result<(), AllocError> {
    for (text, told) in KINDS.as_slice() {
        holds(&rt, is_one(rt.alloc(), *text, *told)?, *text);
    }
    Ok(())
}

// Whether the keys have columns at these places, the first of them the primary one.
fn are_keys(keys: &[Key], places: [&[u32]; 2]) -> bool {
    let [first, second] = places;
    match keys {
        [a, b] => {
            a.primary
                && !b.primary
                && a.columns.as_slice() == first
                && b.columns.as_slice() == second
        }
        _ => false,
    }
}

// Whether a main block's text begins with a CREATE TABLE of these keys.
fn has_keys(alloc: Global, text: &str, places: [&[u32]; 2]) -> Result<bool, AllocError> {
    let Some(block) = block_of(alloc, Role::Main, text)? else {
        return Ok(false);
    };
    Ok(match block.stmts().first() {
        Some(Stmt::CreateTable(create)) => are_keys(&create.keys, places),
        _ => false,
    })
}

#[test]
fn keys_by_the_places_of_their_columns(rt: HostRuntime) -> Result<(), AllocError> {
    let text = "CREATE TABLE t (a int, b int UNIQUE, c int, PRIMARY KEY (c, a))";
    holds(&rt, has_keys(rt.alloc(), text, [&[2, 0], &[1]])?, text);
    Ok(())
}
