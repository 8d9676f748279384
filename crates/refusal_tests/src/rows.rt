//! Files whose runs want memory and threads. A run puts its whole text, or ends in a want of one of these behind a beginning of that text, and is then
//! made again. `bench/allocations.sh refusal_tests` refuses each allocation and each start of a thread in turn.

use crate::asking::holds;
use crate::files::{DELETE_WAITS, is_want, run};
use permutations::{RunFault, free_spec};
use session_threads::OpenGate;
use std::alloc::Global;
use std::process::Abort;
use std::sync::Wait;
use std::thread::Threads;
use test_devices::{Gives, Takes};

/// A file, whether its sessions run freely, and what it prints.
struct Row {
    file: &'static str,
    is_free: bool,
    text: &'static str,
}

const WAITING_DELETE: Row = Row {
    file: DELETE_WAITS,
    is_free: false,
    text: "Parsed test spec with 2 sessions

starting permutation: u d c r
step u: UPDATE website SET hits = hits + 1;
step d: DELETE FROM website WHERE hits = 10; <waiting ...>
step c: COMMIT;
step d: <... completed>
step r: SELECT hits FROM website ORDER BY hits;
hits
----
  10
  11
(2 rows)

",
};

/// Two sessions wait for a key, of which the first takes it and the second finds it taken.
const FREED_KEY: Row = Row {
    file: "setup { CREATE TABLE t (k int PRIMARY KEY); }
session s1 setup { BEGIN; } step a { INSERT INTO t VALUES (1); } step ar { ROLLBACK; }
session s2 setup { BEGIN; } step b { INSERT INTO t VALUES (1); } step bc { COMMIT; }
session s3 step d { INSERT INTO t VALUES (1); }
permutation a b d ar bc
",
    is_free: false,
    text: "Parsed test spec with 3 sessions

starting permutation: a b d ar bc
step a: INSERT INTO t VALUES (1);
step b: INSERT INTO t VALUES (1); <waiting ...>
step d: INSERT INTO t VALUES (1); <waiting ...>
step ar: ROLLBACK;
step b: <... completed>
step bc: COMMIT;
step d: <... completed>
ERROR:  duplicate key value violates unique constraint \"t_pkey\"
",
};

/// Of three that share a row the third came while a fourth session waited for it, and asks for what that one holds.
const LATER_HOLDER: Row = Row {
    file: "setup { CREATE TABLE acct (id int PRIMARY KEY, bal int); INSERT INTO acct VALUES (1, 100), (2, 200); }
session s1
setup { BEGIN; }
step x1 { SELECT id FROM acct WHERE id = 1 FOR SHARE; }
step xc { COMMIT; }
session s2
setup { BEGIN; }
step y1 { SELECT id FROM acct WHERE id = 1 FOR SHARE; }
step yc { COMMIT; }
session s3
setup { BEGIN; }
step z2 { UPDATE acct SET bal = 0 WHERE id = 2; }
step z1 { UPDATE acct SET bal = 0 WHERE id = 1; }
step zc { COMMIT; }
session s4
setup { BEGIN; }
step w1 { SELECT id FROM acct WHERE id = 1 FOR SHARE; }
step w2 { UPDATE acct SET bal = 5 WHERE id = 2; }
step wc { COMMIT; }
permutation x1 y1 z2 z1 w1 w2 xc yc zc wc
",
    is_free: false,
    text: "Parsed test spec with 4 sessions

starting permutation: x1 y1 z2 z1 w1 w2 xc yc zc wc
step x1: SELECT id FROM acct WHERE id = 1 FOR SHARE;
id
--
 1
(1 row)

step y1: SELECT id FROM acct WHERE id = 1 FOR SHARE;
id
--
 1
(1 row)

step z2: UPDATE acct SET bal = 0 WHERE id = 2;
step z1: UPDATE acct SET bal = 0 WHERE id = 1; <waiting ...>
step w1: SELECT id FROM acct WHERE id = 1 FOR SHARE;
id
--
 1
(1 row)

step w2: UPDATE acct SET bal = 5 WHERE id = 2;
ERROR:  deadlock detected
step xc: COMMIT;
step yc: COMMIT;
step z1: <... completed>
step zc: COMMIT;
step wc: COMMIT;
",
};

const FREE_STATEMENTS: Row = Row {
    file: "session s step a { SELECT 1; SELECT 2; }",
    is_free: true,
    text: "Parsed test spec with 1 sessions

starting free run
step a: SELECT 1; SELECT 2;
step a: statement 1
?column?
--------
       1
(1 row)

step a: statement 2
?column?
--------
       2
(1 row)

",
};

/// Runs the row's file, whose notes are put beside.
fn answer_of<R: Threads + Wait + Sync>(
    rt: &R,
    alloc: Global,
    row: &Row,
    out: &mut Takes,
) -> Result<(), RunFault> {
    let mut input = Gives::new(row.file, usize::MAX);
    let mut notes = Takes::new(usize::MAX);
    if row.is_free {
        free_spec(rt, alloc, &mut input, out, &mut notes, &OpenGate)
    } else {
        run(rt, alloc, &mut input, out, &mut notes)
    }
}

/// Whether the row's run comes to its end. It puts the row's text there, and a beginning of it where something is wanted.
fn ends<R: Threads + Wait + Sync + Abort>(rt: &R, alloc: Global, row: &Row) -> bool {
    let mut out = Takes::new(usize::MAX);
    let text = row.text.as_bytes();
    match answer_of(rt, alloc, row, &mut out) {
        Ok(()) => {
            holds(rt, out.text() == text, row.text);
            true
        }
        Err(fault) => {
            holds(rt, is_want(&fault), "a want of memory or of a thread");
            holds(rt, text.starts_with(out.text()), "a beginning of the text");
            false
        }
    }
}

/// A want stands in the way of a run once.
fn is_told<R: Threads + Wait + Sync + Abort>(rt: &R, alloc: Global, row: &Row) {
    let is_at_its_end = ends(rt, alloc, row) || ends(rt, alloc, row);
    holds(rt, is_at_its_end, "the end of a run");
}

#[test]
fn delete_waits_and_does_not_rescan(rt: HostRuntime) {
    is_told(&rt, rt.alloc(), &WAITING_DELETE);
}

#[test]
fn key_freed_by_rollback(rt: HostRuntime) {
    is_told(&rt, rt.alloc(), &FREED_KEY);
}

#[test]
fn deadlock_through_later_holder(rt: HostRuntime) {
    is_told(&rt, rt.alloc(), &LATER_HOLDER);
}

#[test]
fn free_run_statements(rt: HostRuntime) {
    is_told(&rt, rt.alloc(), &FREE_STATEMENTS);
}
