//! Want of memory for the words of a command line, and for a file. Run with `rt try --test --fail-alloc N` for each N: one allocation
//! fails, and is told alone, with status 3.

use crate::asking::{holds, words_of};
use permutations::serve;
use std::alloc::Global;
use std::process::Abort;
use std::sync::Wait;
use std::thread::Threads;
use test_devices::{Gives, Takes};

const REFUSED: &str = "session s step a { SELCT 1; }";

const MEMORY_LINE: &[u8] = b"isolationtester: Memory\n";

/// Whether the program tells of want of memory on these words; where it does, that is all that it says.
fn wants_memory<R: Abort + Threads + Wait + Sync>(
    rt: &R,
    alloc: Global,
    word: &str,
    status: u8,
) -> bool {
    let Ok(words) = words_of(alloc, &[word]) else {
        return true;
    };
    let mut input = Gives::new(REFUSED, usize::MAX);
    let mut out = Takes::new(usize::MAX);
    let mut err = Takes::new(usize::MAX);
    let ended = serve(rt, alloc, words.as_slice(), &mut input, &mut out, &mut err);
    if err.text() == MEMORY_LINE {
        holds(rt, ended == 3, "the status of want of memory");
        holds(rt, out.text().is_empty(), "nothing else is said");
        return true;
    }
    holds(rt, ended == status, word);
    holds(rt, err.text().is_empty() == (status == 0), word);
    false
}

#[test]
fn want_of_memory_ends_with_3(rt: HostRuntime) {
    for (word, status) in [("--help", 0), ("--threads", 2), ("--list", 1)] {
        if wants_memory(&rt, rt.alloc(), word, status) {
            holds(&rt, !wants_memory(&rt, rt.alloc(), word, status), "again");
        }
    }
}
