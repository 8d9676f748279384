//! The options that words give, and those that are refused.

use crate::asking::{ENDLESS, ends, holds, served, words_of};
use program_words::{Options, options_of, status_of};
use std::alloc::{AllocError, Global};
use std::process::Abort;
use std::sync::Wait;
use std::thread::Threads;
use test_devices::Gives;

/// The status where memory was refused.
const MEMORY: u8 = 3;

/// The options that words give, if they give any.
fn given(alloc: Global, words: &[&str]) -> Result<Option<Options>, AllocError> {
    let all = words_of(alloc, words)?;
    let refused = match options_of(alloc, all.as_slice()) {
        Ok(options) => return Ok(Some(options)),
        Err(refused) => refused,
    };
    if status_of(&refused) == MEMORY {
        return Err(AllocError);
    }
    Ok(None)
}

#[test]
fn words_give_options(rt: HostRuntime) -> Result<(), AllocError> {
    for (words, list, free, limit) in [
        ([].as_slice(), false, false, 1_000_000),
        (["--list"].as_slice(), true, false, 1_000_000),
        (["--free"].as_slice(), false, true, 1_000_000),
        (["--free", "--list"].as_slice(), true, true, 1_000_000),
        (["--limit", "0"].as_slice(), false, false, 0),
        (
            ["--limit=4294967295", "--list"].as_slice(),
            true,
            false,
            4_294_967_295,
        ),
    ] {
        let Some(options) = given(rt.alloc(), words)? else {
            return Ok(holds(&rt, false, "options"));
        };
        holds(&rt, options.list == list, "the list");
        holds(&rt, options.free == free, "the free run");
        holds(&rt, options.limit == limit, "the limit");
    }
    Ok(())
}

const TRY_HELP: &str = "\n\nFor more information, try '--help'.\n";

const USAGE: &str = "\n\nUsage: isolationtester [OPTIONS] < FILE";

/// The words are refused, in these words and with this usage, before anything is read.
fn are_refused<R: Threads + Wait + Sync + Abort>(
    rt: &R,
    alloc: Global,
    words: &[&str],
    fault: &str,
    usage: &str,
) -> Result<(), AllocError> {
    let text = format!(in alloc; "error: {fault}{usage}{TRY_HELP}")?;
    let mut input = Gives::new("", 0);
    let run = served(rt, alloc, words, &mut input, ENDLESS)?;
    ends(rt, &run, 2, "", text.as_str());
    holds(rt, !input.failed, "nothing is read");
    Ok(())
}

#[test]
fn other_limits_are_refused(rt: HostRuntime) -> Result<(), AllocError> {
    for (words, fault) in [
        (
            ["--limit", "x"].as_slice(),
            "invalid value 'x' for '--limit <N>': invalid digit found in string",
        ),
        (
            ["--limit", "4294967296"].as_slice(),
            "invalid value '4294967296' for '--limit <N>': 4294967296 is not in 0..=4294967295",
        ),
        (
            ["--limit"].as_slice(),
            "a value is required for '--limit <N>' but none was supplied",
        ),
    ] {
        are_refused(&rt, rt.alloc(), words, fault, "")?;
    }
    Ok(())
}

#[test]
fn other_words_are_refused(rt: HostRuntime) -> Result<(), AllocError> {
    for (words, fault) in [
        (
            ["--list", "--list"].as_slice(),
            "the argument '--list' cannot be used multiple times",
        ),
        (
            ["--limit", "-1"].as_slice(),
            "unexpected argument '-1' found",
        ),
        (
            ["--threads"].as_slice(),
            "unexpected argument '--threads' found",
        ),
        (
            ["file.spec"].as_slice(),
            "unexpected argument 'file.spec' found",
        ),
    ] {
        are_refused(&rt, rt.alloc(), words, fault, USAGE)?;
    }
    Ok(())
}

#[test]
fn help_goes_to_the_output(rt: HostRuntime) -> Result<(), AllocError> {
    for words in [["--help"].as_slice(), ["-h"].as_slice()] {
        let mut input = Gives::new("", 0);
        let run = served(&rt, rt.alloc(), words, &mut input, ENDLESS)?;
        holds(&rt, run.status == 0, "the status");
        let about = b"Runs the permutations of the spec file that comes on standard input\n";
        holds(&rt, run.out.text().starts_with(about.as_slice()), "help");
        holds(&rt, run.err.text().is_empty(), "no fault");
    }
    Ok(())
}
