//! Each call passes where any one allocation fails too: then it answers Memory, and the next one succeeds.
//! `bench/allocations.sh sql_tests` refuses each allocation in turn.

use crate::asked::{block_of, holds, tokens_of};
use iso_lexer::{At, Span, SqlTok};
use sql_expressions::parse_expr;
use sql_parser::Role;
use sql_trees::{SqlFault, classified};
use std::alloc::AllocError;

// A block with each kind of statement.
const ALL_KINDS: &str = "BEGIN ISOLATION LEVEL REPEATABLE READ; SET deadlock_timeout = '1s'; \
    CREATE TABLE t (a INT PRIMARY KEY, b TEXT NOT NULL, UNIQUE (b, a)); INSERT INTO t (a, b) VALUES (1, 'x'), (2, 'y' || 'z') ON CONFLICT DO NOTHING; \
    UPDATE t SET a = a + 1, b = 'u' WHERE a IN (1, 2) AND NOT b IS NULL RETURNING *, a + 1; DELETE FROM t WHERE a BETWEEN 1 AND 2 RETURNING b c; \
    SELECT a AS c, -b FROM t WHERE a = 1 ORDER BY a DESC NULLS LAST, b FOR UPDATE; SELECT count(*), sum(a) FROM t; \
    DROP TABLE IF EXISTS t, u; COMMIT";

#[test]
fn want_of_memory_for_a_block(rt: HostRuntime) {
    let read = match block_of(rt.alloc(), Role::Main, ALL_KINDS) {
        Ok(read) => read.is_some(),
        Err(_) => matches!(block_of(rt.alloc(), Role::Main, ALL_KINDS), Ok(Some(_))),
    };
    holds(&rt, read, ALL_KINDS);
}

#[test]
fn want_of_memory_for_an_expression(rt: HostRuntime) -> Result<(), AllocError> {
    let text = "a + 1 in ( - b , ( 2 || 'c' ) ) or not d between 1 and 2 and e is not null";
    let Some(tokens) = tokens_of(rt.alloc(), text)? else {
        return Ok(holds(&rt, false, text));
    };
    if let Err(fault) = parse_expr(rt.alloc(), text.len(), &tokens) {
        holds(&rt, matches!(fault, SqlFault::Memory), text);
        let again = parse_expr(rt.alloc(), text.len(), &tokens).is_ok();
        holds(&rt, again, text);
    }
    Ok(())
}

#[test]
fn want_of_memory_for_tokens(rt: HostRuntime) {
    let token = At {
        tok: SqlTok::Word("SELECT"),
        span: Span { start: 0, end: 6 },
    };
    let tokens = [token; 20];
    if classified(rt.alloc(), &tokens).is_err() {
        let again = classified(rt.alloc(), &tokens).is_ok();
        holds(&rt, again, "SELECT");
    }
}
