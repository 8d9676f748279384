//! What a terminal shows besides.

use crate::asking::{ENDLESS, ends, holds, served_there};
use crate::failures::READ_LINE;
use iso_lexer::FromStd;
use std::alloc::AllocError;
use test_devices::Gives;

/// A spec that is refused in its second line.
const REFUSED: &str = "session s\nstep a { SELCT 1; }\n";

const QUOTED: &str = "isolationtester: Q1 Syntax at byte 19
LINE 2: step a { SELCT 1; }
                 ^
";

const HINT_AND_QUOTED: &str =
    "isolationtester: reads a spec file from the keyboard, up to Ctrl-D; to give a file: isolationtester < FILE
isolationtester: Q1 Syntax at byte 19
LINE 2: step a { SELCT 1; }
                 ^
";

#[test]
fn a_terminal_shows_the_line_that_is_refused(rt: HostRuntime) -> Result<(), AllocError> {
    for (words, typed, text) in [
        ([].as_slice(), false, QUOTED),
        (["--list"].as_slice(), false, QUOTED),
        ([].as_slice(), true, HINT_AND_QUOTED),
    ] {
        let mut input = Gives::new(REFUSED, usize::MAX);
        let run = served_there(&rt, rt.alloc(), words, &mut input, typed, ENDLESS)?;
        ends(&rt, &run, 1, "", text);
    }
    Ok(())
}

#[test]
fn a_hint_that_fails_ends_the_program(rt: HostRuntime) -> Result<(), AllocError> {
    let mut input = Gives::new(REFUSED, usize::MAX);
    let run = served_there(&rt, rt.alloc(), &[], &mut input, true, (usize::MAX, 0))?;
    ends(&rt, &run, 3, "", "");
    Ok(())
}

#[test]
fn a_failing_read_is_told_at_a_terminal(rt: HostRuntime) -> Result<(), AllocError> {
    let mut input = Gives::new(REFUSED, 5);
    let run = served_there(&rt, rt.alloc(), &[], &mut input, false, ENDLESS)?;
    ends(&rt, &run, 3, "", READ_LINE);
    Ok(())
}

/// A file that is refused, and what a terminal shows of it.
const CURES: [(&str, &str); 6] = [
    (
        "\u{feff}session s step a { }",
        "isolationtester: S1 Expected Session at byte 0
LINE 1: \u{feff}session s step a { }
        ^
HINT:  A byte order mark stands here, and counts as letters. Save the file without it.
",
    ),
    (
        "setup { }\nteardown { }\nteardown { }\nsession s step a { }",
        "isolationtester: S1 Expected Session at byte 23
LINE 3: teardown { }
        ^
HINT:  A file has one main teardown, before its sessions. Put all statements into that one, or into a session's teardown.
",
    ),
    (
        "setup { }",
        "isolationtester: S1 Expected Session at byte 9
LINE 1: setup { }
                 ^
",
    ),
    (
        "session s step a { }\npermutation a(a notices 1)",
        "isolationtester: S5 NoticesLeftOut at byte 37
LINE 2: permutation a(a notices 1)
                        ^
HINT:  The marker that counts notices is not in this tool. Leave it out.
",
    ),
    (
        "session s\nstep a { SAVEPOINT x; }",
        "isolationtester: Q2 LeftOut at byte 19
LINE 2: step a { SAVEPOINT x; }
                 ^
HINT:  PostgreSQL has this, and this tool's SQL has not. \"What runs\" in README.md says what there is.
",
    ),
    (
        "session s\nstep a { DROP TABLE t; }",
        "isolationtester: Q5 DdlInSession at byte 19
LINE 2: step a { DROP TABLE t; }
                 ^
HINT:  Tables are made and dropped in main setups and the main teardown alone. Move this statement there.
",
    ),
];

#[test]
fn a_terminal_tells_the_cure_of_a_refusal(rt: HostRuntime) -> Result<(), AllocError> {
    for (file, text) in CURES {
        let mut input = Gives::new(file, usize::MAX);
        let run = served_there(&rt, rt.alloc(), &[], &mut input, false, ENDLESS)?;
        ends(&rt, &run, 1, "", text);
    }
    Ok(())
}

#[test]
fn a_terminal_tells_how_a_file_becomes_utf8(rt: HostRuntime) -> Result<(), AllocError> {
    let mut input = FromStd::new(b"session s step a { SELECT '\xe9'; }".as_slice());
    let run = served_there(&rt, rt.alloc(), &[], &mut input, false, ENDLESS)?;
    holds(&rt, run.status == 1, "the status");
    holds(&rt, run.err.text().ends_with(NOT_UTF8), "the last line");
    Ok(())
}

const NOT_UTF8: &[u8] =
    b"\n                                   ^\nHINT:  Convert the file, from Latin 1 for example: iconv -f latin1 -t utf8 FILE > NEW\n";

/// A file whose run ends early, what is printed of it, and what a terminal shows.
const EARLY_ENDS: [(&[&str], &str, &str, &str); 3] = [
    (
        &[],
        "setup { SELECT 1/0; } session s step a { }",
        "Parsed test spec with 1 sessions\n\nstarting permutation: a\n",
        "isolationtester: R6 SetupFailed: division by zero
HINT:  It is a main setup, or that of a session. Make a step of each in turn to see which.
",
    ),
    (
        &[],
        "setup { CREATE TABLE t (x int); INSERT INTO t VALUES (1); }
session s1 setup { BEGIN; UPDATE t SET x = 2; } step a { }
session s2 setup { UPDATE t SET x = 3; } step b { }
permutation a b",
        "Parsed test spec with 2 sessions\n\nstarting permutation: a b\n",
        "isolationtester: R7 SetupWaits
HINT:  A setup would wait for what an earlier setup holds. End the transaction of that one, or begin it in a step.
",
    ),
    (
        &["--limit", "0"],
        "session s step a { }",
        "Parsed test spec with 1 sessions\n",
        "isolationtester: R9 TooManyPermutations
HINT:  Let more of them run by --limit N, or write permutation lines for those that are wanted.
",
    ),
];

#[test]
fn a_terminal_tells_the_cure_of_an_early_end(rt: HostRuntime) -> Result<(), AllocError> {
    for (words, file, out, text) in EARLY_ENDS {
        let mut input = Gives::new(file, usize::MAX);
        let run = served_there(&rt, rt.alloc(), words, &mut input, false, ENDLESS)?;
        ends(&rt, &run, 1, out, text);
    }
    Ok(())
}
