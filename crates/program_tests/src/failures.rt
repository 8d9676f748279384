//! Each read fails in turn, and each put.

use crate::asking::{ENDLESS, Ran, ends, served};
use std::alloc::{AllocError, Global};
use std::process::Abort;
use std::sync::Wait;
use std::thread::Threads;
use test_devices::Gives;

/// A spec whose teardown fails, what it prints, of which the first line is put first, and its note.
const TORN: &str = "session s step a { } teardown { SELECT 1/0 }";

const FIRST_LINE: &str = "Parsed test spec with 1 sessions\n";

const TORN_TEXT: &str = "Parsed test spec with 1 sessions\n\nstarting permutation: a\nstep a: \n";

const TORN_FREELY: &str = "Parsed test spec with 1 sessions\n\nstarting free run\nstep a: \n";

const TORN_NOTE: &str = "isolationtester: teardown of session s failed: division by zero\n";

/// A spec whose two sessions of a step each give two permutations, of which each is put by itself.
const TWO: &str = "session s step a { } session t step b { }";

const FIRST_OF_TWO: &str = "permutation \"a\" \"b\"\n";

pub const READ_LINE: &str = "isolationtester: R1 Read\n";

const WRITE_LINE: &str = "isolationtester: R2 Write\n";

/// Each read fails in turn.
fn reads_fail<R: Abort + Threads + Wait + Sync>(
    rt: &R,
    alloc: Global,
    words: &[&str],
) -> Result<(), AllocError> {
    for reads in 0..=TWO.len() {
        let mut input = Gives::new(TWO, reads);
        let run = served(rt, alloc, words, &mut input, ENDLESS)?;
        ends(rt, &run, 3, "", READ_LINE);
    }
    Ok(())
}

#[test]
fn a_failing_read_is_told_and_nothing_is_put(rt: HostRuntime) -> Result<(), AllocError> {
    reads_fail(&rt, rt.alloc(), &[])?;
    reads_fail(&rt, rt.alloc(), &["--list"])?;
    reads_fail(&rt, rt.alloc(), &["--free"])
}

/// Each put of a run of `TORN` with this text fails in turn, and then none.
fn puts_fail<R: Abort + Threads + Wait + Sync>(
    rt: &R,
    alloc: Global,
    words: &[&str],
    text: &str,
) -> Result<(), AllocError> {
    for (puts, so_far, line, status) in [
        (0, "", WRITE_LINE, 3),
        (1, FIRST_LINE, WRITE_LINE, 3),
        (usize::MAX, text, TORN_NOTE, 0),
    ] {
        let mut input = Gives::new(TORN, usize::MAX);
        let run = served(rt, alloc, words, &mut input, (puts, usize::MAX))?;
        ends(rt, &run, status, so_far, line);
    }
    Ok(())
}

#[test]
fn a_failing_put_is_told_behind_the_text_so_far(rt: HostRuntime) -> Result<(), AllocError> {
    puts_fail(&rt, rt.alloc(), &[], TORN_TEXT)?;
    puts_fail(&rt, rt.alloc(), &["--free"], TORN_FREELY)
}

#[test]
fn a_failing_put_is_told_behind_the_lines_so_far(rt: HostRuntime) -> Result<(), AllocError> {
    for (puts, so_far) in [(0, ""), (1, FIRST_OF_TWO)] {
        let mut input = Gives::new(TWO, usize::MAX);
        let run = served(&rt, rt.alloc(), &["--list"], &mut input, (puts, usize::MAX))?;
        ends(&rt, &run, 3, so_far, WRITE_LINE);
    }
    Ok(())
}

/// A run of `TORN` whose notes and faults all fail.
fn noteless<R: Threads + Wait + Sync>(rt: &R, alloc: Global) -> Result<Ran, AllocError> {
    let mut input = Gives::new(TORN, usize::MAX);
    served(rt, alloc, &[], &mut input, (usize::MAX, 0))
}

/// That memory was refused can't be told there either: where the text isn't whole the run is made again.
#[test]
fn a_note_that_fails_is_told_by_the_status(rt: HostRuntime) -> Result<(), AllocError> {
    let first = noteless(&rt, rt.alloc())?;
    let run = if first.out.text() == TORN_TEXT.as_bytes() {
        first
    } else {
        noteless(&rt, rt.alloc())?
    };
    ends(&rt, &run, 3, TORN_TEXT, "");
    Ok(())
}
