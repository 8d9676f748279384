//! Which histories fit a permutation, and which order comes next.

use crate::asked::{Asked, is_right_of_file};
use crate::histories::Part::{self, Ends, Out, To, Waits, Works};
use crate::histories::{holds, once};
use session_machine::Order;
use std::alloc::Global;
use std::process::Abort;
use std::test::Fail;

/// Block 0 is that of step a, block 1 that of step b.
const STAR_MARKER: &str =
    "session s1 step a { SELECT 1 AS x; } session s2 step b { SELECT 2; } permutation a(*) b";

/// Block 0 is the main setup, block 1 step a, blocks 2 to 4 the setup, the step and the teardown of session 2.
const SETUPS_AND_TEARDOWNS: &str =
    "setup { CREATE TABLE t (x int); } session s1 step a { INSERT INTO t VALUES (7); } session s2 setup { BEGIN ISOLATION LEVEL REPEATABLE READ; } step r { SELECT * FROM t; } teardown { COMMIT; } permutation r a r";

/// The example of this name. Block 0 is the main setup, 1 the main teardown, 2 the setup of session 1, 3 to 6 the steps.
const DELETE_WAITS_AND_DOES_NOT_RESCAN: &str =
    "setup { CREATE TABLE website (hits int); INSERT INTO website VALUES (9), (10); }
teardown { DROP TABLE website; }
session s1
setup { BEGIN; }
step u { UPDATE website SET hits = hits + 1; }
step c { COMMIT; }
session s2
step d { DELETE FROM website WHERE hits = 10; }
step r { SELECT hits FROM website ORDER BY hits; }
permutation u d c r";

/// A history, and whether it fits the first permutation.
type Case = (&'static [Part], bool);

const STAR_CASES: [Case; 7] = [
    (
        &[To(1, 0), Ends(1), To(2, 1), Ends(2), Out(1), Out(2)],
        true,
    ),
    // cut off
    (&[To(1, 0), Ends(1), To(2, 1), Ends(2), Out(1)], false),
    (&[], false),
    // gone on
    (
        &[To(1, 0), Ends(1), To(2, 1), Ends(2), Out(1), Out(2), Out(2)],
        false,
    ),
    // another block, session, order
    (
        &[To(1, 0), Ends(1), To(2, 0), Ends(2), Out(1), Out(2)],
        false,
    ),
    (
        &[To(1, 0), Ends(1), To(1, 1), Ends(1), Out(1), Out(2)],
        false,
    ),
    (
        &[To(2, 1), Ends(2), To(1, 0), Ends(1), Out(1), Out(2)],
        false,
    ),
];

/// The history of the permutation with setups and a teardown.
const WHOLE: [Part; 14] = [
    To(0, 0),
    Ends(0),
    To(2, 2),
    Ends(2),
    To(2, 3),
    Ends(2),
    To(1, 1),
    Ends(1),
    To(2, 3),
    Ends(2),
    To(2, 4),
    Ends(2),
    Out(1),
    Out(2),
];

/// The history of the example: the DELETE waits, and goes on behind the COMMIT.
const DELETE_WAITS: [Part; 18] = [
    To(0, 0),
    Works(0),
    Ends(0),
    To(1, 2),
    Ends(1),
    To(1, 3),
    Ends(1),
    To(2, 5),
    Waits(2),
    To(1, 4),
    Ends(1),
    Ends(2),
    To(2, 6),
    Ends(2),
    Out(1),
    Out(2),
    To(0, 1),
    Ends(0),
];

fn is_right(alloc: Global, text: &str, parts: &[Part], asked: Asked) -> Result<bool, Fail> {
    is_right_of_file(alloc, text, None, &[once(parts)], 1, asked)
}

/// The histories fit the first permutation of the text, or don't.
fn all_fit(
    rt: &impl Abort,
    alloc: Global,
    text: &str,
    cases: &[(&[Part], bool)],
) -> Result<(), Fail> {
    for (parts, fits) in cases {
        holds(rt, is_right(alloc, text, parts, Asked::Fits(*fits))?);
    }
    Ok(())
}

#[test]
fn histories_fit(rt: HostRuntime) -> Result<(), Fail> {
    all_fit(&rt, rt.alloc(), STAR_MARKER, &STAR_CASES)?;
    // whole, without the main setup, and without the last Leave
    let cases = [
        (&WHOLE[..], true),
        (&WHOLE[2..], false),
        (&WHOLE[..13], false),
    ];
    all_fit(&rt, rt.alloc(), SETUPS_AND_TEARDOWNS, &cases)
}

/// What ends a segment before the last one is no end of the run.
#[test]
fn no_history_fits_without_its_last_segment(rt: HostRuntime) -> Result<(), Fail> {
    let cases = [
        (&DELETE_WAITS[..0], false),
        (&DELETE_WAITS[..3], false),
        (&DELETE_WAITS[..5], false),
        (&DELETE_WAITS[..7], false),
        (&DELETE_WAITS[..9], false),
        (&DELETE_WAITS[..12], false),
        (&DELETE_WAITS[..14], false),
        (&DELETE_WAITS[..15], false),
        (&DELETE_WAITS[..16], false),
        (&DELETE_WAITS[..], true),
    ];
    all_fit(&rt, rt.alloc(), DELETE_WAITS_AND_DOES_NOT_RESCAN, &cases)
}

#[test]
fn the_first_step_is_due_after_the_setups(rt: HostRuntime) -> Result<(), Fail> {
    let order = Order::Launch {
        session: 2,
        block: 3,
    };
    let asked = Asked::Behind(order, false);
    holds(
        &rt,
        is_right(rt.alloc(), SETUPS_AND_TEARDOWNS, &WHOLE[..4], asked)?,
    );
    Ok(())
}
