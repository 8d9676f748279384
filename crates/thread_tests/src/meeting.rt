//! Runs of spec files whose gates tell how many threads there are, and what a DELETE that waits prints.

use crate::asking::holds;
use crate::gates::{Meeting, Shut, looks};
use crate::run_faults::{ends_at_the_gate, run};
use session_threads::OpenGate;
use std::sync::atomic::{AtomicU64, Ordering};
use std::test::Fail;

/// Eight sessions of one step each, all of which stand in one permutation.
const EIGHT: &str = "session s1 step a1 { SELECT 1; } session s2 step a2 { SELECT 1; }
session s3 step a3 { SELECT 1; } session s4 step a4 { SELECT 1; }
session s5 step a5 { SELECT 1; } session s6 step a6 { SELECT 1; }
session s7 step a7 { SELECT 1; } session s8 step a8 { SELECT 1; }
permutation a1 a2 a3 a4 a5 a6 a7 a8";

#[test]
fn all_workers_answer_at_once(rt: HostRuntime) -> Result<(), Fail> {
    let gate = Meeting::of(8, looks(&rt));
    let ran = run(&rt, rt.alloc(), EIGHT, &gate)?;
    holds(&rt, ran.answer.is_ok(), "the run ends");
    holds(&rt, gate.met.load(Ordering::SeqCst) == 8, "eight met");
    Ok(())
}

#[test]
fn a_gate_that_admits_nothing_ends_in_gate(rt: HostRuntime) -> Result<(), Fail> {
    let gate = Shut {
        asked: AtomicU64::new(0),
    };
    let ran = run(&rt, rt.alloc(), EIGHT, &gate)?;
    ends_at_the_gate(&rt, &ran, "Parsed test spec with 8 sessions\n");
    holds(&rt, gate.asked.load(Ordering::SeqCst) == 3, "three tries");
    Ok(())
}

/// One session updates two rows, the other deletes one of them and waits.
const ROWS: &str = "setup { CREATE TABLE website (hits int); INSERT INTO website VALUES (9), (10); }
teardown { DROP TABLE website; }
session s1 setup { BEGIN; } step u { UPDATE website SET hits = hits + 1; } step c { COMMIT; }
session s2 step d { DELETE FROM website WHERE hits = 10; } step r { SELECT hits FROM website ORDER BY hits; }
permutation u d c r";

#[test]
fn the_first_event_of_a_file_is_asked_for_three_times(rt: HostRuntime) -> Result<(), Fail> {
    let gate = Shut {
        asked: AtomicU64::new(0),
    };
    let ran = run(&rt, rt.alloc(), ROWS, &gate)?;
    ends_at_the_gate(&rt, &ran, "Parsed test spec with 2 sessions\n");
    holds(&rt, gate.asked.load(Ordering::SeqCst) == 3, "three tries");
    Ok(())
}

/// What that prints: the DELETE waits, and when it goes on the row is 11 by then, so that both stay.
const ROWS_TEXT: &str = "Parsed test spec with 2 sessions

starting permutation: u d c r
step u: UPDATE website SET hits = hits + 1;
step d: DELETE FROM website WHERE hits = 10; <waiting ...>
step c: COMMIT;
step d: <... completed>
step r: SELECT hits FROM website ORDER BY hits;
hits
----
  10
  11
(2 rows)

";

#[test]
fn a_delete_that_waits_prints_this(rt: HostRuntime) -> Result<(), Fail> {
    let ran = run(&rt, rt.alloc(), ROWS, &OpenGate)?;
    holds(&rt, ran.answer.is_ok(), "the run ends");
    holds(&rt, ran.text.as_slice() == ROWS_TEXT.as_bytes(), ROWS_TEXT);
    Ok(())
}
