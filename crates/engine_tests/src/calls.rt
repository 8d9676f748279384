//! A worked history of two sessions, by single calls: what each answers, what they see, what replays. The test also passes where
//! any one allocation fails: the engine is then spent as it says, its history is the one before that event, and the test is run again.

use crate::tables::Given::{Launch, Leave, Step};
use crate::tables::{Call, Run, Sight, Try, goes};
use crate::trial::Line;
use session_machine::Mode;

/// The control session makes the table, session 1 reads in Repeatable Read, session 2 writes, session 1 reads again.
const BLOCKS: [Line; 4] = [
    (0, "CREATE TABLE t (x int); INSERT INTO t VALUES (1);", ""),
    (
        1,
        "BEGIN ISOLATION LEVEL REPEATABLE READ; SELECT * FROM t;",
        "",
    ),
    (2, "INSERT INTO t VALUES (2);", ""),
    (1, "SELECT * FROM t;", ""),
];

/// The same in another spelling.
const RESPELT: [Line; 4] = [
    (
        0,
        "create table T (X integer) ; insert into \"t\" values (1)",
        "",
    ),
    (
        1,
        "START TRANSACTION ISOLATION LEVEL REPEATABLE READ;; SELECT * FROM \"t\"",
        "",
    ),
    (2, "INSERT INTO t /* once */ VALUES (2)", ""),
    (1, "SELECT * FROM T", ""),
];

const CALLS: [Call; 19] = [
    (Launch(0, 0), "answered"),
    (Step(0), "answered"),
    (Step(0), "answered and ended"),
    (Launch(1, 1), "answered"),
    (Step(1), "answered"),
    (Step(1), "answered x | 1 and ended"),
    (Launch(2, 2), "answered"),
    (Step(2), "answered and ended"),
    (Launch(1, 3), "answered"),
    (Launch(1, 3), "Busy"),
    (Launch(2, 3), "NotYourTurn"),
    (Step(2), "Idle"),
    (Leave(1), "NotYourTurn"),
    (Step(1), "answered x | 1 and ended"),
    (Launch(2, 3), "answered"),
    (Step(2), "answered x | 1 | 2 and ended"),
    (Launch(3, 3), "NoSession"),
    (Launch(1, 0), "BlockNotAllowed"),
    (Launch(1, 9), "BlockNotAllowed"),
];

const BEFORE: [Sight; 4] = [
    (1, "t", " | 1"),
    (2, "t", " | 1 | 2"),
    (2, "u", "none"),
    (3, "t", "NoSession"),
];

const LEAVE: [Call; 1] = [(Leave(1), "answered and ended")];

const AFTER: [Sight; 1] = [(1, "t", " | 1 | 2")];

const DIRECTED: Run<'static> = Run {
    lines: &BLOCKS,
    sessions: 2,
    mode: Mode::Directed,
    tries: &[
        Try::Rests(0),
        Try::Calls(&CALLS),
        Try::Sights(&BEFORE),
        Try::Calls(&LEAVE),
        Try::Sights(&AFTER),
        Try::Rests(13),
        Try::Replays,
    ],
};

const FREE: Run<'static> = Run {
    lines: &BLOCKS,
    sessions: 2,
    mode: Mode::Free,
    tries: &[Try::IsOf(&RESPELT)],
};

/// The one step of the example `free_run_statements`.
const STATEMENTS: [Line; 1] = [(1, "SELECT 1; SELECT 2;", "")];

const FREE_CALLS: [Call; 5] = [
    (Leave(0), "answered and ended"),
    (Launch(1, 0), "answered"),
    (Step(1), "answered ? | 1"),
    (Step(1), "answered ? | 2 and ended"),
    (Leave(1), "answered and ended"),
];

const FREE_RUN: Run<'static> = Run {
    lines: &STATEMENTS,
    sessions: 1,
    mode: Mode::Free,
    tries: &[Try::Calls(&FREE_CALLS), Try::Rests(5), Try::ReplaysFreely],
};

#[test]
fn a_free_run_replays(rt: HostRuntime) {
    goes(&rt, rt.alloc(), &FREE_RUN);
}

#[test]
fn two_sessions_by_calls(rt: HostRuntime) {
    goes(&rt, rt.alloc(), &DIRECTED);
    goes(&rt, rt.alloc(), &FREE);
}
