//! Four runs in which statements wait. Each test also passes where any one allocation fails:
//! the engine that was refused is then spent, its history is the one before that event, and the run is made again.

use crate::tables::Given::{Launch, Step};
use crate::tables::{Call, Run, Sight, Try, goes};
use crate::trial::Line;
use crate::waits::{ACCT, SHARE};
use session_machine::Mode;

/// Session 2 deletes what session 1 has changed.
const DELETE: [Line; 5] = [
    (
        0,
        "CREATE TABLE website (hits int); INSERT INTO website VALUES (9), (10)",
        "",
    ),
    (1, "BEGIN; UPDATE website SET hits = hits + 1", ""),
    (2, "DELETE FROM website WHERE hits = 10", ""),
    (1, "COMMIT", ""),
    (2, "SELECT hits FROM website ORDER BY hits", ""),
];

const DELETE_CALLS: [Call; 13] = [
    (Launch(0, 0), "answered"),
    (Step(0), "answered"),
    (Step(0), "answered and ended"),
    (Launch(1, 1), "answered"),
    (Step(1), "answered"),
    (Step(1), "answered and ended"),
    (Launch(2, 2), "answered"),
    (Step(2), "answered waits"),
    (Launch(1, 3), "answered"),
    (Step(1), "answered and ended"),
    (Step(2), "answered and ended"),
    (Launch(2, 4), "answered"),
    (Step(2), "answered hits | 10 | 11 and ended"),
];

/// What was updated is there, and what matched only afterwards as well: the DELETE didn't look again for rows.
const DELETE_SIGHTS: [Sight; 3] = [
    (0, "website", " | 10 | 11"),
    (1, "website", " | 10 | 11"),
    (2, "website", " | 10 | 11"),
];

/// Sessions 1, 2 and 4 share the row for which session 3 waits, and session 4 asks for the row that session 3 holds.
const LATER: [Line; 6] = [
    ACCT,
    (1, SHARE, ""),
    (3, "BEGIN; UPDATE acct SET bal = 0 WHERE id = 2", ""),
    (3, "UPDATE acct SET bal = 0 WHERE id = 1", ""),
    (4, "UPDATE acct SET bal = 5 WHERE id = 2", ""),
    (1, "COMMIT", ""),
];

const LATER_CALLS: [Call; 28] = [
    (Launch(0, 0), "answered"),
    (Step(0), "answered"),
    (Step(0), "answered and ended"),
    (Launch(1, 1), "answered"),
    (Step(1), "answered"),
    (Step(1), "answered id | 1 and ended"),
    (Launch(2, 1), "answered"),
    (Step(2), "answered"),
    (Step(2), "answered id | 1 and ended"),
    (Launch(3, 2), "answered"),
    (Step(3), "answered"),
    (Step(3), "answered and ended"),
    (Launch(3, 3), "answered"),
    (Step(3), "answered waits"),
    (Launch(4, 1), "answered"),
    (Step(4), "answered"),
    (Step(4), "answered id | 1 and ended"),
    (Launch(4, 4), "answered"),
    (Step(4), "answered deadlock and ended"),
    (Launch(1, 5), "answered"),
    (Step(1), "answered and ended"),
    (Launch(2, 5), "answered"),
    (Step(2), "answered and ended"),
    (Step(3), "answered and ended"),
    (Launch(3, 5), "answered"),
    (Step(3), "answered and ended"),
    (Launch(4, 5), "answered"),
    (Step(4), "answered and ended"),
];

/// Session 2 waits for a key that session 1 has written, which then asks for one that session 2 has written.
const KEYS: [Line; 6] = [
    (0, "CREATE TABLE t (k int PRIMARY KEY, v int UNIQUE)", ""),
    (1, "BEGIN; INSERT INTO t VALUES (1, 1)", ""),
    (2, "INSERT INTO t VALUES (2, 2), (1, 3)", ""),
    (1, "INSERT INTO t VALUES (2, 4)", ""),
    (1, "COMMIT", ""),
    (1, "INSERT INTO t VALUES (3, 3)", ""),
];

const KEY_CALLS: [Call; 14] = [
    (Launch(0, 0), "answered"),
    (Step(0), "answered and ended"),
    (Launch(1, 1), "answered"),
    (Step(1), "answered"),
    (Step(1), "answered and ended"),
    (Launch(2, 2), "answered"),
    (Step(2), "answered waits"),
    (Launch(1, 3), "answered"),
    (Step(1), "answered deadlock and ended"),
    (Step(2), "answered and ended"),
    (Launch(1, 4), "answered"),
    (Step(1), "answered and ended"),
    (Launch(1, 5), "answered"),
    (Step(1), "answered taken t_v_key and ended"),
];

const DELETES: Run<'static> = Run {
    lines: &DELETE,
    sessions: 4,
    mode: Mode::Directed,
    tries: &[
        Try::Calls(&DELETE_CALLS),
        Try::Sights(&DELETE_SIGHTS),
        Try::Rests(13),
    ],
};

#[test]
fn a_delete_that_waits_is_refused_memory(rt: HostRuntime) {
    goes(&rt, rt.alloc(), &DELETES);
}

const DEADLOCK: Run<'static> = Run {
    lines: &LATER,
    sessions: 4,
    mode: Mode::Directed,
    tries: &[Try::Calls(&LATER_CALLS), Try::Rests(28)],
};

#[test]
fn a_deadlock_of_sharers_is_refused_memory(rt: HostRuntime) {
    goes(&rt, rt.alloc(), &DEADLOCK);
}

const CYCLE: Run<'static> = Run {
    lines: &KEYS,
    sessions: 4,
    mode: Mode::Directed,
    tries: &[Try::Calls(&KEY_CALLS), Try::Rests(14)],
};

#[test]
fn a_cycle_of_keys_is_refused_memory(rt: HostRuntime) {
    goes(&rt, rt.alloc(), &CYCLE);
}

/// Sessions 2 and 3 wait for a key that session 1 takes back; session 2 then has it, and session 3 finds it taken.
const FREED: [Line; 5] = [
    (0, "CREATE TABLE t (k int PRIMARY KEY)", ""),
    (1, "BEGIN", ""),
    (1, "INSERT INTO t VALUES (1)", ""),
    (1, "ROLLBACK", ""),
    (2, "COMMIT", ""),
];

const FREED_CALLS: [Call; 18] = [
    (Launch(0, 0), "answered"),
    (Step(0), "answered and ended"),
    (Launch(1, 1), "answered"),
    (Step(1), "answered and ended"),
    (Launch(2, 1), "answered"),
    (Step(2), "answered and ended"),
    (Launch(1, 2), "answered"),
    (Step(1), "answered and ended"),
    (Launch(2, 2), "answered"),
    (Step(2), "answered waits"),
    (Launch(3, 2), "answered"),
    (Step(3), "answered waits"),
    (Launch(1, 3), "answered"),
    (Step(1), "answered and ended"),
    (Step(2), "answered and ended"),
    (Launch(2, 4), "answered"),
    (Step(2), "answered and ended"),
    (Step(3), "answered taken t_pkey and ended"),
];

const FREED_KEY: Run<'static> = Run {
    lines: &FREED,
    sessions: 4,
    mode: Mode::Directed,
    tries: &[
        Try::Calls(&FREED_CALLS),
        Try::Sights(&[(0, "t", " | 1")]),
        Try::Rests(18),
    ],
};

#[test]
fn a_key_freed_by_rollback_is_refused_memory(rt: HostRuntime) {
    goes(&rt, rt.alloc(), &FREED_KEY);
}
