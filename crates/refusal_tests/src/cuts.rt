//! A file that is cut at each of its bytes.

use crate::asking::holds;
use crate::files::{DELETE_WAITS, ends_in_want, run};
use permutations::RunFault;
use std::alloc::Global;
use std::sync::Wait;
use std::thread::Threads;
use test_devices::{Gives, Takes};

/// What came of a file.
#[derive(Clone, Copy, PartialEq, Eq)]
enum Came {
    Ran,
    Refused,
    Wanting,
    Wrong,
}

const HEAD: &[u8] = b"Parsed test spec with ";

fn is_refusal(answer: &Result<(), RunFault>) -> bool {
    matches!(
        answer,
        Err(RunFault::Lex(_) | RunFault::Spec(_) | RunFault::Sql(_))
    )
}

/// A file runs behind its first line, or is refused before anything is put.
fn came_of<R: Threads + Wait + Sync>(rt: &R, alloc: Global, file: &str) -> Came {
    let mut input = Gives::new(file, usize::MAX);
    let mut out = Takes::new(usize::MAX);
    let mut notes = Takes::new(usize::MAX);
    let answer = run(rt, alloc, &mut input, &mut out, &mut notes);
    if answer.is_ok() && out.text().starts_with(HEAD) {
        Came::Ran
    } else if is_refusal(&answer) && out.text().is_empty() {
        Came::Refused
    } else if ends_in_want(&answer) {
        Came::Wanting
    } else {
        Came::Wrong
    }
}

/// The same, once more where memory or a thread was wanted.
fn came_at_last<R: Threads + Wait + Sync>(rt: &R, alloc: Global, file: &str) -> Came {
    let came = came_of(rt, alloc, file);
    if came == Came::Wanting {
        return came_of(rt, alloc, file);
    }
    came
}

/// Cuts that leave a whole spec: one ends behind a step, one more behind the newline there; one ends behind an entry of the permutation, one more
/// behind the blank there.
const WHOLE: usize = 2 * 4 + 2 * 4;

#[test]
fn a_cut_file_runs_or_is_refused(rt: HostRuntime) {
    let mut whole = 0usize;
    for len in 0..=DELETE_WAITS.len() {
        let file = DELETE_WAITS.get(..len).unwrap_or("");
        let came = came_at_last(&rt, rt.alloc(), file);
        holds(&rt, came == Came::Ran || came == Came::Refused, file);
        whole = whole.wrapping_add(usize::from(came == Came::Ran));
    }
    holds(&rt, whole == WHOLE, "cuts that leave a spec");
}
