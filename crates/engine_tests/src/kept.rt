//! The targets that a session has kept in the middle of a statement: those of its beginning, whatever others commit and whatever it has written itself.

use crate::tables::Given::{Launch, Leave, Step};
use crate::tables::{Call, Kept, Run, Try, goes};
use crate::trial::Line;
use session_machine::Mode;

/// Sessions 1 and 3 hold the second and the third row; session 2 writes the first, and waits for the others.
const BLOCKS: [Line; 7] = [
    (
        0,
        "CREATE TABLE t (x int); INSERT INTO t VALUES (1), (2), (3)",
        "",
    ),
    (1, "BEGIN; UPDATE t SET x = 20 WHERE x = 2", ""),
    (3, "BEGIN; UPDATE t SET x = 30 WHERE x = 3", ""),
    (2, "UPDATE t SET x = x + 1 WHERE x > 0", ""),
    (1, "COMMIT", ""),
    (0, "INSERT INTO t VALUES (4)", ""),
    (3, "COMMIT", ""),
];

const UNTIL_IT_WAITS: [Call; 11] = [
    (Launch(0, 0), "answered"),
    (Step(0), "answered"),
    (Step(0), "answered and ended"),
    (Launch(1, 1), "answered"),
    (Step(1), "answered"),
    (Step(1), "answered and ended"),
    (Launch(3, 2), "answered"),
    (Step(3), "answered"),
    (Step(3), "answered and ended"),
    (Launch(2, 3), "answered"),
    (Step(2), "answered waits"),
];

/// The first versions of the three rows.
const ALL: [(u64, u64); 3] = [(0, 0), (1, 1), (2, 2)];

const ITS: [Kept; 4] = [(1, None), (2, Some(&ALL)), (3, None), (9, None)];

const NOBODYS: [Kept; 3] = [(1, None), (2, None), (3, None)];

/// Session 1 commits, and session 2 goes on to the third row.
const UNTIL_IT_WAITS_AGAIN: [Call; 3] = [
    (Launch(1, 4), "answered"),
    (Step(1), "answered and ended"),
    (Step(2), "answered waits"),
];

const A_ROW_MORE: [Call; 2] = [(Launch(0, 5), "answered"), (Step(0), "answered and ended")];

const TO_ITS_END: [Call; 3] = [
    (Launch(3, 6), "answered"),
    (Step(3), "answered and ended"),
    (Step(2), "answered and ended"),
];

const GOES_ON: Run<'static> = Run {
    lines: &BLOCKS,
    sessions: 3,
    mode: Mode::Directed,
    tries: &[
        Try::Calls(&UNTIL_IT_WAITS),
        Try::Keep(&ITS),
        Try::Calls(&UNTIL_IT_WAITS_AGAIN),
        Try::Keep(&ITS),
        Try::Calls(&A_ROW_MORE),
        Try::Keep(&ITS),
        Try::Calls(&TO_ITS_END),
        Try::Keep(&NOBODYS),
        Try::Sights(&[(1, "t", " | 2 | 21 | 4 | 31")]),
    ],
};

const LEAVES: Run<'static> = Run {
    lines: &BLOCKS,
    sessions: 3,
    mode: Mode::Directed,
    tries: &[
        Try::Calls(&UNTIL_IT_WAITS),
        Try::Keep(&ITS),
        Try::Calls(&[(Leave(2), "answered and ended")]),
        Try::Keep(&NOBODYS),
    ],
};

#[test]
fn a_statement_goes_on_with_the_targets_of_its_beginning(rt: HostRuntime) {
    goes(&rt, rt.alloc(), &GOES_ON);
}

#[test]
fn nothing_is_kept_for_a_session_that_left(rt: HostRuntime) {
    goes(&rt, rt.alloc(), &LEAVES);
}
