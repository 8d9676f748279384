//! The longest file, and a long text.

use crate::asking::{ENDLESS, ends, holds, served, served_whole};
use iso_lexer::{FromStd, LONGEST_FILE};
use std::alloc::{AllocError, Global};

const ONE_STEP: &str = "session s step a { }";

const ONE_STEP_TEXT: &str =
    "Parsed test spec with 1 sessions\n\nstarting permutation: a\nstep a: \n";

/// How many entries print more than 1,100 bytes each.
const LONG_STEPS: usize = 999;

const TOO_LONG: &str = "isolationtester: L5 FileTooLong at byte 1048576\n";

/// `first` with newlines behind it, so many bytes in all.
fn lengthened(alloc: Global, first: &[u8], len: usize) -> Result<Vec<u8>, AllocError> {
    let mut bytes = Vec::from_slice(alloc, first)?;
    for _ in bytes.len()..len {
        bytes.push(b'\n')?;
    }
    Ok(bytes)
}

/// A file is looked at for its length before it is looked at for UTF-8.
#[test]
fn the_longest_file_runs_and_one_byte_more_is_too_long(rt: HostRuntime) -> Result<(), AllocError> {
    for (first, len, text, line, status) in [
        (ONE_STEP.as_bytes(), LONGEST_FILE, ONE_STEP_TEXT, "", 0),
        (ONE_STEP.as_bytes(), LONGEST_FILE + 1, "", TOO_LONG, 1),
        (b"\xff".as_slice(), LONGEST_FILE + 1, "", TOO_LONG, 1),
    ] {
        let file = lengthened(rt.alloc(), first, len)?;
        let mut input = FromStd::new(file.as_slice());
        let run = served(&rt, rt.alloc(), &[], &mut input, ENDLESS)?;
        ends(&rt, &run, status, text, line);
    }
    Ok(())
}

/// So many copies of the text, one behind the other.
fn repeated(alloc: Global, text: &str, count: usize) -> Result<String, AllocError> {
    let mut all = String::new(alloc);
    for _ in 0..count {
        all.push_str(text)?;
    }
    Ok(all)
}

/// A statement of more than 1,100 bytes that has no result.
fn long_statement(alloc: Global) -> Result<String, AllocError> {
    let mut sql = String::from_str(alloc, "DELETE FROM t /* ")?;
    sql.push_str(repeated(alloc, "y", 1_100)?.as_str())?;
    sql.push_str(" */;")?;
    Ok(sql)
}

/// A text of more than a mebibyte is whole, with a table at its end.
#[test]
fn the_text_of_a_permutation_may_be_longer_than_a_mebibyte(
    rt: HostRuntime,
) -> Result<(), AllocError> {
    let alloc = rt.alloc();
    let sql = long_statement(alloc)?;
    let entries = repeated(alloc, " a", LONG_STEPS)?;
    let mut file = String::from_str(
        alloc,
        "setup { CREATE TABLE t (x int); } session s step a { ",
    )?;
    for piece in [
        sql.as_str(),
        " } step b { SELECT 1 AS n; } permutation",
        entries.as_str(),
        " b",
    ] {
        file.push_str(piece)?;
    }
    let mut step = String::from_str(alloc, "step a: ")?;
    step.push_str(sql.as_str())?;
    step.push_str("\n")?;
    let mut text = String::from_str(
        alloc,
        "Parsed test spec with 1 sessions\n\nstarting permutation:",
    )?;
    for piece in [
        entries.as_str(),
        " b\n",
        repeated(alloc, step.as_str(), LONG_STEPS)?.as_str(),
        "step b: SELECT 1 AS n;\nn\n-\n1\n(1 row)\n\n",
    ] {
        text.push_str(piece)?;
    }
    let mut input = FromStd::new(file.as_str().as_bytes());
    let (status, out) = served_whole(&rt, alloc, &mut input)?;
    holds(&rt, status == 0, "the status");
    holds(&rt, out.as_slice() == text.as_bytes(), "the text");
    Ok(())
}
