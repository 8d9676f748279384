//! Who stands in the way of a session that waits: kept with the wait, one more as others come to hold what it asks for, and one less as they end (PostgreSQL manual, 13.3.2).

use crate::tables::Given::{Launch, Leave, Step};
use crate::tables::{Call, Run, Try, goes};
use crate::trial::Line;
use session_machine::Mode;

const SHARE: &str = "BEGIN; SELECT id FROM t WHERE id = 1 FOR SHARE";

/// Transaction 0 is the first block's, and 1, 2 and 3 are begun in this order by the sessions of these numbers.
const BLOCKS: [Line; 8] = [
    (
        0,
        "CREATE TABLE t (id int PRIMARY KEY, v int); INSERT INTO t VALUES (1, 0), (2, 0)",
        "",
    ),
    (1, SHARE, ""),
    (2, "BEGIN; UPDATE t SET v = 1 WHERE id = 1", ""),
    (3, SHARE, ""),
    (0, "SELECT id FROM t WHERE id = 2 FOR SHARE", ""),
    (1, "COMMIT", ""),
    (3, "ROLLBACK", ""),
    (2, "COMMIT", ""),
];

const UNTIL_IT_WAITS: [Call; 9] = [
    (Launch(0, 0), "answered"),
    (Step(0), "answered"),
    (Step(0), "answered and ended"),
    (Launch(1, 1), "answered"),
    (Step(1), "answered"),
    (Step(1), "answered id | 1 and ended"),
    (Launch(2, 2), "answered"),
    (Step(2), "answered"),
    (Step(2), "answered waits"),
];

const ANOTHER_SHARES: [Call; 3] = [
    (Launch(3, 3), "answered"),
    (Step(3), "answered"),
    (Step(3), "answered id | 1 and ended"),
];

const ANOTHER_ROW: [Call; 2] = [
    (Launch(0, 4), "answered"),
    (Step(0), "answered id | 2 and ended"),
];

const THE_FIRST_COMMITS: [Call; 2] = [(Launch(1, 5), "answered"), (Step(1), "answered and ended")];

const THE_OTHER_ROLLS_BACK: [Call; 2] = [
    (Launch(3, 6), "answered"),
    (Step(3), "answered and ended"),
];

const SHARERS: Run<'static> = Run {
    lines: &BLOCKS,
    sessions: 3,
    mode: Mode::Directed,
    tries: &[
        Try::Calls(&UNTIL_IT_WAITS),
        Try::Blocked(&[(0, &[]), (1, &[]), (2, &[1]), (3, &[]), (9, &[])]),
        Try::Calls(&ANOTHER_SHARES),
        Try::Blocked(&[(1, &[]), (2, &[1, 3]), (3, &[])]),
        Try::Calls(&ANOTHER_ROW),
        Try::Blocked(&[(2, &[1, 3])]),
        Try::Calls(&THE_FIRST_COMMITS),
        Try::Blocked(&[(2, &[3])]),
        Try::Calls(&THE_OTHER_ROLLS_BACK),
        Try::Blocked(&[(2, &[])]),
        Try::Calls(&[(Step(2), "answered and ended")]),
        Try::Blocked(&[(2, &[])]),
    ],
};

/// The waiter leaves, and then one who stood in its way.
const LEAVES: Run<'static> = Run {
    lines: &BLOCKS,
    sessions: 3,
    mode: Mode::Directed,
    tries: &[
        Try::Calls(&UNTIL_IT_WAITS),
        Try::Calls(&ANOTHER_SHARES),
        Try::Calls(&[(Leave(3), "answered and ended")]),
        Try::Blocked(&[(2, &[1])]),
        Try::Calls(&[(Leave(2), "answered and ended")]),
        Try::Blocked(&[(2, &[])]),
    ],
};

/// Transaction 1 writes the key; sessions 2 and 3 ask for it, each in a transaction of its own.
const KEYS: [Line; 5] = [
    (0, "CREATE TABLE t (id int PRIMARY KEY)", ""),
    (1, "BEGIN; INSERT INTO t VALUES (1)", ""),
    (2, "INSERT INTO t VALUES (1)", ""),
    (3, "INSERT INTO t VALUES (1)", ""),
    (1, "ROLLBACK", ""),
];

const UNTIL_TWO_WAIT: [Call; 9] = [
    (Launch(0, 0), "answered"),
    (Step(0), "answered and ended"),
    (Launch(1, 1), "answered"),
    (Step(1), "answered"),
    (Step(1), "answered and ended"),
    (Launch(2, 2), "answered"),
    (Step(2), "answered waits"),
    (Launch(3, 3), "answered"),
    (Step(3), "answered waits"),
];

/// Once the key is free, session 2 has it, and ends at once, since its block does.
const ASKERS: Run<'static> = Run {
    lines: &KEYS,
    sessions: 3,
    mode: Mode::Directed,
    tries: &[
        Try::Calls(&UNTIL_TWO_WAIT),
        Try::Blocked(&[(1, &[]), (2, &[1]), (3, &[1])]),
        Try::Calls(&[(Launch(1, 4), "answered"), (Step(1), "answered and ended")]),
        Try::Blocked(&[(2, &[]), (3, &[])]),
        Try::Calls(&[(Step(2), "answered and ended")]),
        Try::Blocked(&[(2, &[]), (3, &[])]),
    ],
};

#[test]
fn one_more_shares_and_one_after_the_other_ends(rt: HostRuntime) {
    goes(&rt, rt.alloc(), &SHARERS);
}

#[test]
fn who_leaves_stands_in_nobodys_way(rt: HostRuntime) {
    goes(&rt, rt.alloc(), &LEAVES);
}

#[test]
fn askers_of_a_key_wait_for_who_wrote_it(rt: HostRuntime) {
    goes(&rt, rt.alloc(), &ASKERS);
}
