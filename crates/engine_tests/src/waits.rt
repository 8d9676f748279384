//! Statements that wait for rows that others hold, and what becomes of them (PostgreSQL manual, 13.2 and 13.3).

use crate::tables::Given::{Launch, Step};
use crate::tables::{Call, Run, Sight, Try, check, goes};
use crate::trial::Line;
use session_machine::Mode;

pub const ACCT: Line = (
    0,
    "CREATE TABLE acct (id int, bal int); INSERT INTO acct VALUES (1, 100), (2, 200)",
    "",
);

const ADD: &str = "BEGIN; UPDATE acct SET bal = bal + 100 WHERE id = 1";

const ADD_REPEATABLE: &str =
    "BEGIN ISOLATION LEVEL REPEATABLE READ; UPDATE acct SET bal = bal + 100 WHERE id = 1";

/// Shares the row of the first account.
pub const SHARE: &str = "BEGIN; SELECT id FROM acct WHERE id = 1 FOR SHARE";

const ALL: &str = "COMMIT; SELECT * FROM acct ORDER BY id";

const UPDATES: [Line; 18] = [
    ACCT,
    (1, ADD, ""),
    (2, ADD, " waits"),
    (1, "COMMIT", ""),
    (2, ALL, " id bal | 1 300 | 2 200"),
    (1, ADD, ""),
    (2, ADD_REPEATABLE, " waits"),
    (1, "COMMIT", " not serializable"),
    (2, "SELECT * FROM acct", " aborted"),
    (2, ALL, " id bal | 1 400 | 2 200"),
    (1, ADD, ""),
    (2, ADD_REPEATABLE, " waits"),
    (1, "ROLLBACK", ""),
    (2, ALL, " id bal | 1 500 | 2 200"),
    (
        1,
        "BEGIN; SELECT * FROM acct WHERE id = 1 FOR UPDATE",
        " id bal | 1 500",
    ),
    (2, ADD_REPEATABLE, " waits"),
    (1, "COMMIT", ""),
    (2, ALL, " id bal | 1 600 | 2 200"),
];

#[test]
fn an_update_waits_and_goes_on(rt: HostRuntime) {
    check(&rt, rt.alloc(), &UPDATES);
}

const CONDITIONS: [Line; 12] = [
    (
        0,
        "CREATE TABLE website (hits int); INSERT INTO website VALUES (9), (10)",
        "",
    ),
    (1, "BEGIN; UPDATE website SET hits = hits + 1", ""),
    (2, "DELETE FROM website WHERE hits = 10", " waits"),
    (1, "COMMIT", ""),
    (
        2,
        "SELECT hits FROM website ORDER BY hits",
        " hits | 10 | 11",
    ),
    (
        0,
        "CREATE TABLE q (id int, st int); INSERT INTO q VALUES (1, 0)",
        "",
    ),
    (1, "BEGIN; UPDATE q SET st = 1", ""),
    (2, "BEGIN; UPDATE q SET st = st + 4", " waits"),
    (3, "UPDATE q SET id = 9 WHERE st = 0 OR st = 5", " waits"),
    (1, "COMMIT", ""),
    (2, "COMMIT", ""),
    (3, "SELECT * FROM q", " id st | 9 5"),
];

#[test]
fn conditions_are_asked_again(rt: HostRuntime) {
    check(&rt, rt.alloc(), &CONDITIONS);
}

/// A condition has a fault where the statement begins, and where it is asked again at the version that another has committed.
const FAULTS: [Line; 13] = [
    (0, "CREATE TABLE d (x int); INSERT INTO d VALUES (1)", ""),
    (
        1,
        "UPDATE d SET x = 5 WHERE 6 / (x - 1) > 1",
        " division by zero",
    ),
    (
        1,
        "DELETE FROM d WHERE 6 / (x - 1) > 1",
        " division by zero",
    ),
    (
        1,
        "SELECT x FROM d ORDER BY 6 / (x - 1) FOR UPDATE",
        " division by zero",
    ),
    (
        1,
        "SELECT 6 / (x - 1) FROM d FOR UPDATE",
        " division by zero",
    ),
    (1, "BEGIN; UPDATE d SET x = 0", ""),
    (2, "UPDATE d SET x = 5 WHERE 6 / x > 1", " waits"),
    (1, "COMMIT", " division by zero"),
    (1, "UPDATE d SET x = 1", ""),
    (1, "BEGIN; UPDATE d SET x = 0", ""),
    (2, "DELETE FROM d WHERE 6 / x > 1", " waits"),
    (1, "COMMIT", " division by zero"),
    (2, "SELECT x FROM d", " x | 0"),
];

#[test]
fn conditions_with_a_fault(rt: HostRuntime) {
    check(&rt, rt.alloc(), &FAULTS);
}

const CYCLES: [Line; 16] = [
    ACCT,
    (1, "BEGIN; UPDATE acct SET bal = 1 WHERE id = 1", ""),
    (2, "BEGIN; UPDATE acct SET bal = 2 WHERE id = 2", ""),
    (1, "UPDATE acct SET bal = 1 WHERE id = 2", " waits"),
    (2, "UPDATE acct SET bal = 2 WHERE id = 1", " deadlock"),
    (2, "COMMIT", ""),
    (1, ALL, " id bal | 1 1 | 2 1"),
    (1, SHARE, " id | 1"),
    (2, SHARE, " id | 1"),
    (3, "BEGIN; UPDATE acct SET bal = 0 WHERE id = 2", ""),
    (3, "UPDATE acct SET bal = 0 WHERE id = 1", " waits"),
    (4, SHARE, " id | 1"),
    (4, "UPDATE acct SET bal = 5 WHERE id = 2", " deadlock"),
    (1, "COMMIT", ""),
    (2, "COMMIT", ""),
    (3, ALL, " id bal | 1 0 | 2 0"),
];

#[test]
fn cycles_of_waits_are_refused(rt: HostRuntime) {
    check(&rt, rt.alloc(), &CYCLES);
}

const LOCKS: [Line; 14] = [
    ACCT,
    (1, ADD, ""),
    (1, "SELECT 1/0", " division by zero"),
    (2, ADD, ""),
    (1, "COMMIT", ""),
    (2, ALL, " id bal | 1 200 | 2 200"),
    (1, "BEGIN; UPDATE acct SET bal = 300 WHERE id = 1", ""),
    (
        2,
        "BEGIN; SELECT * FROM acct ORDER BY bal, id FOR UPDATE",
        " waits",
    ),
    (1, "COMMIT", " id bal | 1 300 | 2 200"),
    (2, "COMMIT", ""),
    (1, "BEGIN; UPDATE acct SET bal = 7 WHERE id = 1", ""),
    (
        3,
        "SELECT 3 AS s, bal FROM acct WHERE id = 1 FOR SHARE",
        " waits",
    ),
    (
        2,
        "SELECT 2 AS s, bal FROM acct WHERE id = 1 FOR SHARE",
        " waits",
    ),
    (1, "COMMIT", " s bal | 3 7 s bal | 2 7"),
];

#[test]
fn locks_are_shared_and_let_go(rt: HostRuntime) {
    check(&rt, rt.alloc(), &LOCKS);
}

/// Session 1 holds the second row, at which session 2 waits once it has written the first.
const HELD: [Line; 3] = [
    ACCT,
    (1, "BEGIN; UPDATE acct SET bal = 0 WHERE id = 2", ""),
    (2, "UPDATE acct SET bal = bal + 1", ""),
];

/// The events until session 2 waits.
const UNTIL_IT_WAITS: [Call; 8] = [
    (Launch(0, 0), "answered"),
    (Step(0), "answered"),
    (Step(0), "answered and ended"),
    (Launch(1, 1), "answered"),
    (Step(1), "answered"),
    (Step(1), "answered and ended"),
    (Launch(2, 2), "answered"),
    (Step(2), "answered waits"),
];

const SIGHTS: [Sight; 3] = [
    (0, "acct", " | 1 100 | 2 200"),
    (1, "acct", " | 1 100 | 2 0"),
    (2, "acct", " | 2 200 | 1 101"),
];

/// The answer to session 2 while it waits.
const DIRECTED: Run<'static> = Run {
    lines: &HELD,
    sessions: 2,
    mode: Mode::Directed,
    tries: &[
        Try::Calls(&UNTIL_IT_WAITS),
        Try::Calls(&[(Step(2), "NotYourTurn")]),
        Try::Sights(&SIGHTS),
    ],
};

const FREE: Run<'static> = Run {
    lines: &HELD,
    sessions: 2,
    mode: Mode::Free,
    tries: &[
        Try::Calls(&UNTIL_IT_WAITS),
        Try::Calls(&[(Step(2), "StillBlocked")]),
        Try::Sights(&SIGHTS),
    ],
};

#[test]
fn a_session_that_waits_is_not_stepped(rt: HostRuntime) {
    goes(&rt, rt.alloc(), &DIRECTED);
    goes(&rt, rt.alloc(), &FREE);
}
