//! Each read of a run fails in turn, then each put on its output, then each put on its notes.

use crate::asking::holds;
use crate::files::{ends_in_want, run};
use permutations::RunFault;
use std::alloc::Global;
use std::process::Abort;
use std::sync::Wait;
use std::thread::Threads;
use test_devices::{Gives, Takes};

/// A file whose last teardown would wait, what it prints, and what it notes.
const FILE: &str =
    "setup { CREATE TABLE acct (id int PRIMARY KEY, bal int); INSERT INTO acct VALUES (1, 100), (2, 200); }
session s1
setup { BEGIN; }
step a { UPDATE acct SET bal = bal + 100 WHERE id = 1; }
step ac { COMMIT; }
session s2
setup { BEGIN; }
step b { UPDATE acct SET bal = bal + 100 WHERE id = 1; }
step bc { COMMIT; }
step br { SELECT * FROM acct ORDER BY id; }
teardown { UPDATE acct SET bal = 0; }
permutation a bc
";

const TEXT: &[u8] = b"Parsed test spec with 2 sessions

starting permutation: a bc
step a: UPDATE acct SET bal = bal + 100 WHERE id = 1;
step bc: COMMIT;
";

const NOTE: &[u8] = b"isolationtester: teardown of session s2 failed: would wait\n";

/// How a run of the file ended, and what its output and its notes took.
#[derive(Drop)]
struct Ran {
    answer: Result<(), RunFault>,
    out: Takes,
    notes: Takes,
}

/// So many reads, puts on the output, and puts on the notes.
type Counts = (usize, usize, usize);

fn run_once<R: Threads + Wait + Sync>(rt: &R, alloc: Global, counts: Counts) -> Ran {
    let (reads, puts, noted) = counts;
    let mut input = Gives::new(FILE, reads);
    let mut out = Takes::new(puts);
    let mut notes = Takes::new(noted);
    let answer = run(rt, alloc, &mut input, &mut out, &mut notes);
    Ran { answer, out, notes }
}

/// Runs the file by so many of each, once more where memory or a thread was wanted.
fn run_with<R: Threads + Wait + Sync>(rt: &R, alloc: Global, counts: Counts) -> Ran {
    let first = run_once(rt, alloc, counts);
    if ends_in_want(&first.answer) {
        return run_once(rt, alloc, counts);
    }
    first
}

/// Whether the run came to its end, behind its whole text and its note.
fn is_whole(run: &Ran) -> bool {
    run.answer.is_ok() && run.out.text() == TEXT && run.notes.text() == NOTE
}

fn is_write(run: &Ran) -> bool {
    matches!(run.answer, Err(RunFault::Write))
}

/// Whether a read failed, before anything was put.
fn is_unread(run: &Ran) -> bool {
    let is_read = matches!(run.answer, Err(RunFault::Read));
    is_read && run.out.text().is_empty() && run.notes.text().is_empty()
}

/// Whether a put on the output failed, behind a beginning of the text and before the note.
fn is_cut(run: &Ran) -> bool {
    let is_begun = TEXT.starts_with(run.out.text()) && run.out.text() != TEXT;
    is_write(run) && is_begun && run.notes.text().is_empty()
}

/// Whether a put on the notes failed, behind the whole text.
fn is_noteless(run: &Ran) -> bool {
    let is_begun = NOTE.starts_with(run.notes.text()) && run.notes.text() != NOTE;
    is_write(run) && is_begun && run.out.text() == TEXT
}

/// More puts than a run of the file makes on either sink.
const MOST_PUTS: usize = 20;

const ALL: usize = usize::MAX;

#[test]
fn each_read_fails_in_turn(rt: HostRuntime) {
    for reads in 0..=FILE.len() {
        let run = run_with(&rt, rt.alloc(), (reads, ALL, ALL));
        holds(&rt, is_unread(&run), "a read");
    }
    let run = run_with(&rt, rt.alloc(), (FILE.len() + 1, ALL, ALL));
    holds(&rt, is_whole(&run), "all reads");
}

#[test]
fn each_put_fails_in_turn(rt: HostRuntime) {
    let mut failed = 0usize;
    for puts in 0..MOST_PUTS {
        let run = run_with(&rt, rt.alloc(), (ALL, puts, ALL));
        failed = failed.wrapping_add(usize::from(!is_whole(&run)));
        holds(&rt, is_whole(&run) || is_cut(&run), "a put");
    }
    holds(&rt, 0 < failed && failed < MOST_PUTS, "some puts");
}

#[test]
fn each_note_fails_in_turn(rt: HostRuntime) {
    let mut failed = 0usize;
    for noted in 0..MOST_PUTS {
        let run = run_with(&rt, rt.alloc(), (ALL, ALL, noted));
        failed = failed.wrapping_add(usize::from(!is_whole(&run)));
        holds(&rt, is_whole(&run) || is_noteless(&run), "a note");
    }
    holds(&rt, 0 < failed && failed < MOST_PUTS, "some notes");
}
