//! Texts that are no block, each with its fault and the byte at which it stands.

use crate::asked::{holds, is_refused};
use sql_parser::Role;
use std::alloc::{AllocError, Global};
use std::process::Abort;

// What makes and drops tables, in a main block.
const TABLES: [(&str, &str); 36] = [
    ("CREATE VIEW v", "Q2 LeftOut at byte 7"),
    ("CREATE UNIQUE INDEX i", "Q1 Syntax at byte 7"),
    ("CREATE TABLE (a int)", "Q1 Syntax at byte 13"),
    ("CREATE TABLE select (a int)", "Q2 LeftOut at byte 13"),
    ("CREATE TABLE from (a int)", "Q1 Syntax at byte 13"),
    ("CREATE TABLE \"\" (a int)", "Q1 Syntax at byte 13"),
    ("CREATE TABLE s.t (a int)", "Q2 LeftOut at byte 14"),
    (
        "CREATE TABLE IF NOT EXISTS t (a int)",
        "Q1 Syntax at byte 16",
    ),
    ("CREATE TABLE t ()", "Q1 Syntax at byte 16"),
    ("CREATE TABLE t (a numeric)", "Q2 LeftOut at byte 18"),
    ("CREATE TABLE t (a \"int\")", "Q1 Syntax at byte 18"),
    ("CREATE TABLE t (a)", "Q1 Syntax at byte 17"),
    ("CREATE TABLE t (a varchar(10))", "Q1 Syntax at byte 25"),
    ("CREATE TABLE t (a int DEFAULT 1)", "Q2 LeftOut at byte 22"),
    (
        "CREATE TABLE t (a int CHECK (a > 1))",
        "Q2 LeftOut at byte 22",
    ),
    ("CREATE TABLE t (a int NULL)", "Q1 Syntax at byte 22"),
    (
        "CREATE TABLE t (a int NOT DEFERRABLE)",
        "Q2 LeftOut at byte 26",
    ),
    ("CREATE TABLE t (a int PRIMARY ,", "Q1 Syntax at byte 30"),
    (
        "CREATE TABLE t (CONSTRAINT c UNIQUE (a))",
        "Q2 LeftOut at byte 16",
    ),
    (
        "CREATE TABLE t (a int, FOREIGN KEY (a))",
        "Q2 LeftOut at byte 23",
    ),
    ("CREATE TABLE t (a int, UNIQUE a)", "Q1 Syntax at byte 30"),
    ("CREATE TABLE t (a int) WITH (b)", "Q2 LeftOut at byte 23"),
    ("CREATE TABLE t (a int, a text)", "Q6 BadColumns at byte 23"),
    (
        "CREATE TABLE t (A int, \"a\" numeric)",
        "Q6 BadColumns at byte 23",
    ),
    (
        "CREATE TABLE t (a int, UNIQUE (b))",
        "Q6 BadColumns at byte 31",
    ),
    (
        "CREATE TABLE t (a int, UNIQUE (b)) foo",
        "Q1 Syntax at byte 35",
    ),
    (
        "CREATE TABLE t (a int, UNIQUE (a, a))",
        "Q6 BadColumns at byte 34",
    ),
    (
        "CREATE TABLE t (UNIQUE (b), UNIQUE (c), a int)",
        "Q6 BadColumns at byte 24",
    ),
    (
        "CREATE TABLE t (a int PRIMARY KEY, b int, PRIMARY KEY (b))",
        "Q6 BadColumns at byte 55",
    ),
    (
        "CREATE TABLE t (a int PRIMARY KEY PRIMARY KEY)",
        "Q6 BadColumns at byte 16",
    ),
    (
        "CREATE TABLE t (a int UNIQUE, UNIQUE (a))",
        "Q6 BadColumns at byte 38",
    ),
    (
        "CREATE TABLE t (a int, b int, a_b int UNIQUE, UNIQUE (a, b))",
        "Q6 BadColumns at byte 54",
    ),
    ("DROP VIEW v", "Q2 LeftOut at byte 5"),
    ("DROP TABLE t CASCADE", "Q1 Syntax at byte 13"),
    ("DROP TABLE IF EXISTS", "Q1 Syntax at byte 20"),
    ("DROP TABLE a,", "Q1 Syntax at byte 13"),
];

// What a session's block may not be.
const STATEMENTS: [(&str, &str); 97] = [
    ("BEGIN foo", "Q1 Syntax at byte 6"),
    ("BEGIN TRANSACTION WORK", "Q1 Syntax at byte 18"),
    ("BEGIN NOT DEFERRABLE", "Q1 Syntax at byte 6"),
    ("BEGIN DEFERRABLE", "Q2 LeftOut at byte 6"),
    ("BEGIN READ ONLY", "Q2 LeftOut at byte 6"),
    ("BEGIN ISOLATION READ", "Q2 LeftOut at byte 16"),
    (
        "BEGIN ISOLATION LEVEL SERIALIZABLE;",
        "Q2 LeftOut at byte 22",
    ),
    ("BEGIN ISOLATION LEVEL READ foo", "Q1 Syntax at byte 27"),
    ("BEGIN ISOLATION LEVEL REPEATABLE", "Q1 Syntax at byte 32"),
    ("START", "Q1 Syntax at byte 5"),
    ("START WORK", "Q1 Syntax at byte 6"),
    ("COMMIT AND CHAIN", "Q1 Syntax at byte 7"),
    ("ROLLBACK TO a", "Q1 Syntax at byte 9"),
    ("ROLLBACK PREPARE", "Q2 LeftOut at byte 9"),
    ("SET", "Q1 Syntax at byte 3"),
    ("SET TRANSACTION READ ONLY", "Q2 LeftOut at byte 16"),
    ("SET timezone = 'UTC'", "Q2 LeftOut at byte 4"),
    (
        "SET SESSION TRANSACTION ISOLATION LEVEL READ COMMITTED",
        "Q2 LeftOut at byte 12",
    ),
    ("SET LOCAL all", "Q2 LeftOut at byte 10"),
    ("SET \"deadlock_timeout\" = 1", "Q1 Syntax at byte 4"),
    ("SET deadlock_timeout 5", "Q1 Syntax at byte 21"),
    ("SET deadlock_timeout = a", "Q1 Syntax at byte 23"),
    ("SET deadlock_timeout = 5 6", "Q1 Syntax at byte 25"),
    ("INSERT t VALUES (1)", "Q1 Syntax at byte 7"),
    ("INSERT INTO t SELECT 1", "Q2 LeftOut at byte 14"),
    ("INSERT INTO t DEFAULT VALUES", "Q2 LeftOut at byte 14"),
    ("INSERT INTO t AS u VALUES (1)", "Q1 Syntax at byte 14"),
    ("INSERT INTO t () VALUES (1)", "Q1 Syntax at byte 15"),
    (
        "INSERT INTO t (a, a) VALUES (1, 2)",
        "Q6 BadColumns at byte 18",
    ),
    ("INSERT INTO t (a) (1)", "Q1 Syntax at byte 18"),
    ("INSERT INTO t VALUES 1", "Q1 Syntax at byte 21"),
    ("INSERT INTO t VALUES ()", "Q1 Syntax at byte 22"),
    ("INSERT INTO t VALUES (DEFAULT)", "Q2 LeftOut at byte 22"),
    ("INSERT INTO t VALUES (1, 2), (1)", "Q1 Syntax at byte 29"),
    ("INSERT INTO t (a, b) VALUES (1)", "Q1 Syntax at byte 28"),
    ("INSERT INTO t VALUES (1), (2, 3", "Q1 Syntax at byte 31"),
    ("UPDATE t u SET v = 1", "Q1 Syntax at byte 9"),
    ("UPDATE t SET (v, w) = (1, 2)", "Q1 Syntax at byte 13"),
    ("UPDATE t SET v + 1", "Q1 Syntax at byte 15"),
    ("UPDATE t SET v = DEFAULT", "Q2 LeftOut at byte 17"),
    ("UPDATE t SET v = 1, v = 2", "Q6 BadColumns at byte 20"),
    ("UPDATE t SET v = 1, V.w = 2", "Q6 BadColumns at byte 20"),
    ("UPDATE t SET v.w = 2", "Q2 LeftOut at byte 14"),
    ("UPDATE t SET v = 1 FROM u", "Q1 Syntax at byte 19"),
    ("UPDATE ONLY t SET v = 1", "Q1 Syntax at byte 12"),
    ("DELETE t", "Q1 Syntax at byte 7"),
    ("DELETE FROM t USING u", "Q2 LeftOut at byte 14"),
    ("DELETE FROM t WHERE", "Q1 Syntax at byte 19"),
    ("foo", "Q1 Syntax at byte 0"),
    ("1", "Q1 Syntax at byte 0"),
    ("; )", "Q1 Syntax at byte 2"),
    ("VALUES (1)", "Q1 Syntax at byte 0"),
    ("WITH a", "Q2 LeftOut at byte 0"),
    ("CREATE TABLE t (a int)", "Q5 DdlInSession at byte 0"),
    ("SELECT 1; DROP TABLE", "Q5 DdlInSession at byte 10"),
    ("SELECT", "Q1 Syntax at byte 6"),
    ("SELECT 1,", "Q1 Syntax at byte 9"),
    ("SELECT ; SELECT 2", "Q1 Syntax at byte 7"),
    ("SELECT FROM t", "Q1 Syntax at byte 7"),
    ("SELECT 1 < 2 < 3", "Q1 Syntax at byte 13"),
    ("SELECT 1 = 2 <> 3", "Q1 Syntax at byte 13"),
    ("SELECT a FROM 1", "Q1 Syntax at byte 14"),
    ("SELECT a FROM t, u", "Q1 Syntax at byte 15"),
    ("SELECT a FROM t u", "Q1 Syntax at byte 16"),
    ("SELECT a AS FROM t", "Q1 Syntax at byte 12"),
    ("SELECT a AS limit FROM t", "Q2 LeftOut at byte 12"),
    ("SELECT a 'b'", "Q1 Syntax at byte 9"),
    ("SELECT a ORDER a", "Q1 Syntax at byte 15"),
    ("SELECT a ORDER BY a NULLS foo", "Q1 Syntax at byte 26"),
    ("SELECT a ORDER BY a USING b", "Q2 LeftOut at byte 20"),
    ("SELECT a FROM t FOR UPDATE OF t", "Q1 Syntax at byte 27"),
    ("SELECT a.b FROM t", "Q2 LeftOut at byte 8"),
    ("SELECT a::int", "Q2 LeftOut at byte 8"),
    ("SELECT f(1)", "Q2 LeftOut at byte 8"),
    ("SELECT EXISTS (SELECT 1)", "Q2 LeftOut at byte 14"),
    ("SELECT 1 + count(*)", "Q2 LeftOut at byte 11"),
    ("SELECT count(*) + 1", "Q1 Syntax at byte 16"),
    ("SELECT sum(*)", "Q1 Syntax at byte 11"),
    ("SELECT count(DISTINCT a)", "Q2 LeftOut at byte 13"),
    ("SELECT sum(max(a))", "Q2 LeftOut at byte 11"),
    ("SELECT a FROM t WHERE min(a) = 1", "Q2 LeftOut at byte 22"),
    ("SELECT a IN (SELECT 1)", "Q2 LeftOut at byte 13"),
    ("SELECT a IS NOT DISTINCT FROM b", "Q2 LeftOut at byte 16"),
    ("SELECT a IS 1", "Q1 Syntax at byte 12"),
    ("SELECT a, count(*) FROM t", "Q2 LeftOut at byte 0"),
    ("SELECT count(*) FROM t ORDER BY 1", "Q2 LeftOut at byte 0"),
    ("SELECT count(*) FROM t FOR UPDATE", "Q2 LeftOut at byte 0"),
    ("SELECT 1; SELECT *; foo", "Q2 LeftOut at byte 10"),
    ("SELECT 1 FOR UPDATE", "Q2 LeftOut at byte 0"),
    ("SELECT * )", "Q1 Syntax at byte 9"),
    ("SELECT 'a", "L6 UnterminatedString at byte 7"),
    ("SELECT \"a", "L2 UnterminatedName at byte 7"),
    ("SELECT 1 /* /* */", "L7 UnterminatedComment at byte 9"),
    ("SELECT 9223372036854775808", "L8 NumberTooLarge at byte 7"),
    ("SELECT 9223372036854775808a", "L8 NumberTooLarge at byte 7"),
    ("SELECT 1a", "L4 UnexpectedByte at byte 8"),
    ("foo; CREATE; SELECT #", "L4 UnexpectedByte at byte 20"),
];

// Locks that lack a word, or have one too many.
const LOCKS: [(&str, &str); 18] = [
    ("SELECT a FROM t FOR", "Q1 Syntax at byte 19"),
    ("SELECT a FROM t FOR NO", "Q1 Syntax at byte 22"),
    ("SELECT a FROM t FOR NO KEY", "Q1 Syntax at byte 26"),
    ("SELECT a FROM t FOR NO KEY SHARE", "Q1 Syntax at byte 27"),
    ("SELECT a FROM t FOR NO UPDATE", "Q1 Syntax at byte 23"),
    ("SELECT a FROM t FOR KEY", "Q1 Syntax at byte 23"),
    ("SELECT a FROM t FOR KEY UPDATE", "Q1 Syntax at byte 24"),
    ("SELECT a FROM t FOR READ", "Q2 LeftOut at byte 20"),
    ("SELECT a FROM t FOR NOWAIT", "Q1 Syntax at byte 20"),
    ("SELECT a FROM t FOR SKIP LOCKED", "Q1 Syntax at byte 20"),
    ("SELECT a FROM t FOR SHARE SKIP", "Q1 Syntax at byte 30"),
    (
        "SELECT a FROM t FOR KEY SHARE SKIP NOWAIT",
        "Q1 Syntax at byte 35",
    ),
    ("SELECT a FROM t FOR SHARE LOCKED", "Q1 Syntax at byte 26"),
    ("SELECT a FROM t FOR SHARE LOCK", "Q2 LeftOut at byte 26"),
    (
        "SELECT a FROM t FOR UPDATE NOWAIT SKIP LOCKED",
        "Q1 Syntax at byte 34",
    ),
    (
        "SELECT a FROM t FOR UPDATE FOR SHARE",
        "Q1 Syntax at byte 27",
    ),
    (
        "SELECT a FROM t FOR NO KEY UPDATE ORDER BY a",
        "Q1 Syntax at byte 34",
    ),
    ("SELECT 1 FOR KEY SHARE NOWAIT", "Q2 LeftOut at byte 0"),
];

// ON CONFLICT and RETURNING that lack a word, have one too many, or one that is left out.
const CHANGES: [(&str, &str); 37] = [
    ("INSERT INTO t VALUES (1) ON", "Q1 Syntax at byte 27"),
    (
        "INSERT INTO t VALUES (1) ON DO NOTHING",
        "Q1 Syntax at byte 28",
    ),
    (
        "INSERT INTO t VALUES (1) ON CONFLICT",
        "Q1 Syntax at byte 36",
    ),
    (
        "INSERT INTO t VALUES (1) ON CONFLICT NOTHING",
        "Q1 Syntax at byte 37",
    ),
    (
        "INSERT INTO t VALUES (1) ON CONFLICT (a) DO NOTHING",
        "Q2 LeftOut at byte 37",
    ),
    (
        "INSERT INTO t VALUES (1) ON CONFLICT ()",
        "Q2 LeftOut at byte 37",
    ),
    (
        "INSERT INTO t VALUES (1) ON CONFLICT ON CONSTRAINT c DO NOTHING",
        "Q2 LeftOut at byte 37",
    ),
    (
        "INSERT INTO t VALUES (1) ON CONFLICT DO",
        "Q1 Syntax at byte 39",
    ),
    (
        "INSERT INTO t VALUES (1) ON CONFLICT DO UPDATE SET a = 2",
        "Q2 LeftOut at byte 40",
    ),
    (
        "INSERT INTO t VALUES (1) ON CONFLICT DO \"nothing\"",
        "Q1 Syntax at byte 40",
    ),
    (
        "INSERT INTO t VALUES (1) ON CONFLICT DO NOTHING (a)",
        "Q1 Syntax at byte 48",
    ),
    (
        "INSERT INTO t VALUES (1) ON CONFLICT DO NOTHING ON CONFLICT DO NOTHING",
        "Q2 LeftOut at byte 48",
    ),
    (
        "INSERT INTO t VALUES (1) ON CONFLICT DO NOTHING WHERE TRUE",
        "Q1 Syntax at byte 48",
    ),
    (
        "INSERT INTO t VALUES (1) CONFLICT DO NOTHING",
        "Q1 Syntax at byte 25",
    ),
    (
        "INSERT INTO t ON CONFLICT DO NOTHING",
        "Q2 LeftOut at byte 14",
    ),
    (
        "INSERT INTO t VALUES (1), ON CONFLICT DO NOTHING",
        "Q2 LeftOut at byte 26",
    ),
    (
        "UPDATE t SET a = 1 ON CONFLICT DO NOTHING",
        "Q2 LeftOut at byte 19",
    ),
    (
        "DELETE FROM t ON CONFLICT DO NOTHING",
        "Q2 LeftOut at byte 14",
    ),
    ("SELECT a FROM t ON a = 1", "Q2 LeftOut at byte 16"),
    ("INSERT INTO t VALUES (1) RETURNING", "Q1 Syntax at byte 34"),
    (
        "INSERT INTO t VALUES (1) RETURNING a,",
        "Q1 Syntax at byte 37",
    ),
    (
        "INSERT INTO t VALUES (1) RETURNING a AS",
        "Q1 Syntax at byte 39",
    ),
    (
        "INSERT INTO t VALUES (1) RETURNING * a",
        "Q1 Syntax at byte 37",
    ),
    (
        "INSERT INTO t VALUES (1) RETURNING a ON CONFLICT DO NOTHING",
        "Q2 LeftOut at byte 37",
    ),
    (
        "INSERT INTO t VALUES (1) RETURNING count(*)",
        "Q2 LeftOut at byte 35",
    ),
    (
        "UPDATE t SET a = 1 RETURNING a, 1 + sum(a)",
        "Q2 LeftOut at byte 36",
    ),
    (
        "DELETE FROM t RETURNING max(a) AS m",
        "Q2 LeftOut at byte 24",
    ),
    ("UPDATE t RETURNING a", "Q2 LeftOut at byte 9"),
    ("UPDATE t SET RETURNING a", "Q2 LeftOut at byte 13"),
    ("UPDATE t SET a = RETURNING a", "Q2 LeftOut at byte 17"),
    (
        "UPDATE t SET a = 1 RETURNING a WHERE a = 1",
        "Q1 Syntax at byte 31",
    ),
    ("DELETE FROM t WHERE RETURNING a", "Q2 LeftOut at byte 20"),
    ("DELETE FROM t RETURNING", "Q1 Syntax at byte 23"),
    (
        "DELETE FROM t RETURNING a RETURNING b",
        "Q2 LeftOut at byte 26",
    ),
    ("DELETE FROM t RETURNING a.b", "Q2 LeftOut at byte 25"),
    ("SELECT a FROM t RETURNING a", "Q2 LeftOut at byte 16"),
    (
        "SELECT a FROM t WHERE a = 1 ORDER BY a RETURNING a",
        "Q2 LeftOut at byte 39",
    ),
];

fn all_refused(
    rt: &impl Abort,
    alloc: Global,
    role: Role,
    rows: &[(&str, &str)],
) -> Result<(), AllocError> {
    for (text, fault) in rows {
        holds(rt, is_refused(alloc, role, *text, *fault)?, *text);
    }
    Ok(())
}

#[test]
fn faults_and_their_places(rt: HostRuntime) -> Result<(), AllocError> {
    all_refused(&rt, rt.alloc(), Role::Main, TABLES.as_slice())?;
    all_refused(&rt, rt.alloc(), Role::Session, STATEMENTS.as_slice())?;
    all_refused(&rt, rt.alloc(), Role::Session, LOCKS.as_slice())?;
    all_refused(&rt, rt.alloc(), Role::Session, CHANGES.as_slice())
}
