//! Refused spec files, each with the line of its fault, and one that is read. The limits are shown by the examples
//! `most_*` and `too_many_*`.

use crate::asking::holds;
use crate::faults::prints;
use iso_lexer::{LONGEST_FILE, Name};
use spec_parser::{Entry, Marker, Part, SessionPart, Spec, SpecFault, StepPart, parse_spec};
use std::alloc::Global;
use std::process::Abort;
use std::test::Fail;

/// What the file says, asked again where memory was refused.
fn parsed(alloc: Global, text: &str) -> Result<Spec<'_>, SpecFault> {
    match parse_spec(alloc, text) {
        Err(SpecFault::Memory) => parse_spec(alloc, text),
        answer => answer,
    }
}

/// The file is refused with the fault of this line.
fn is_refused(alloc: Global, text: &str, line: &str) -> bool {
    match parsed(alloc, text) {
        Ok(_) => false,
        Err(fault) => prints(alloc, &fault, line),
    }
}

const REFUSED: [(&str, &str); 15] = [
    ("step \"a", "L2 UnterminatedName at byte 5"),
    ("step \"a\nb\" { }", "L3 NewlineInName at byte 7"),
    ("step a { } ;", "L4 UnexpectedByte at byte 11"),
    ("# a\r\"", "L2 UnterminatedName at byte 4"),
    (
        "setup { } session s teardown { }",
        "S1 Expected Step at byte 20",
    ),
    ("session step a { }", "S1 Expected Name at byte 8"),
    ("session s step a b", "S1 Expected Block at byte 17"),
    (
        "session s step a { } permutation",
        "S1 Expected Name at byte 32",
    ),
    (
        "session s step a { } permutation a(1)",
        "S1 Expected Marker at byte 35",
    ),
    (
        "session s step a { } permutation a(a b)",
        "S1 Expected CommaOrClose at byte 37",
    ),
    (
        "session s step a { } permutation a *",
        "S1 Expected Item at byte 35",
    ),
    (
        "session s step a { } step \"a\" { }",
        "S2 DuplicateStep at byte 26",
    ),
    (
        "session s step a { } step a { } permutation b setup",
        "S1 Expected Item at byte 46",
    ),
    (
        "session s step a { } permutation c(b) b",
        "S3 UndefinedStep at byte 33",
    ),
    (
        "session s step a { } permutation a(*, b) b",
        "S4 UndefinedMarker at byte 38",
    ),
];

#[test]
fn refusals_and_their_places(rt: HostRuntime) {
    for (text, line) in &REFUSED {
        holds(&rt, is_refused(rt.alloc(), *text, *line), *text);
    }
}

/// A file of so many blanks is refused with the fault of this line.
fn blanks_are_refused(
    rt: &impl Abort,
    alloc: Global,
    count: usize,
    line: &str,
) -> Result<(), Fail> {
    let blanks = " ".repeat(alloc, count)?;
    holds(rt, is_refused(alloc, blanks.as_str(), line), line);
    Ok(())
}

#[test]
fn the_longest_file_is_read_and_one_byte_more_is_too_long(rt: HostRuntime) -> Result<(), Fail> {
    let longest = "S1 Expected Session at byte 1048576";
    blanks_are_refused(&rt, rt.alloc(), LONGEST_FILE, longest)?;
    let longer = "L5 FileTooLong at byte 1048576";
    blanks_are_refused(&rt, rt.alloc(), LONGEST_FILE + 1, longer)
}

const WHOLE: &str =
    "setup {  CREATE }\nsetup { x }\nteardown { DROP }\nsession s1 setup { BEGIN; } step a { A } step \"b\"\"c\" { B } \
    teardown { COMMIT; }\nsession s2 step d { D }\npermutation d a(*, \"b\"\"c\", d) \"b\"\"c\"\npermutation a # end";

fn part_is(part: &Part<'_>, block: u32, at: usize, sql: &str) -> bool {
    part.block == block && part.at == at && part.sql == sql
}

fn is_step_of(marker: &Marker, of_session: u32, number: u32) -> bool {
    matches!(marker, Marker::Step { session, step } if *session == of_session && *step == number)
}

fn step_is(step: &StepPart<'_>, name: Name<'_>, block: u32, at: usize) -> bool {
    step.name == name && step.part.block == block && step.part.at == at
}

/// Its blocks have their numbers and places.
fn sessions_are(rt: &impl Abort, sessions: &[SessionPart<'_>]) {
    let [first, second] = sessions else {
        return holds(rt, false, "two sessions");
    };
    holds(rt, first.name == Name::Plain("s1"), "the first name");
    holds(
        rt,
        matches!(&first.setup, Some(part) if part_is(part, 3, 67, "BEGIN;")),
        "its setup",
    );
    let [a, b] = first.steps.as_slice() else {
        return holds(rt, false, "two steps");
    };
    holds(rt, step_is(a, Name::Plain("a"), 4, 85), "a");
    holds(rt, step_is(b, Name::Plain("b\"c"), 5, 103), "b\"c");
    holds(
        rt,
        matches!(&first.teardown, Some(part) if part_is(part, 6, 118, "COMMIT;")),
        "its teardown",
    );
    holds(rt, second.name == Name::Plain("s2"), "the second name");
    let [d] = second.steps.as_slice() else {
        return holds(rt, false, "one step");
    };
    holds(rt, step_is(d, Name::Plain("d"), 7, 148), "d");
}

/// The first is `d a(*, "b""c", d) "b""c"`, the second `a`.
fn perms_are(rt: &impl Abort, perms: &[Vec<Entry>]) {
    let [first, second] = perms else {
        return holds(rt, false, "two permutations");
    };
    let [d, a, b] = first.as_slice() else {
        return holds(rt, false, "three entries");
    };
    holds(rt, d.session == 2 && d.step == 0, "d");
    holds(rt, a.session == 1 && a.step == 0, "a");
    holds(rt, b.session == 1 && b.step == 1, "b\"c");
    let [star, of_b, of_d] = a.markers.as_slice() else {
        return holds(rt, false, "three markers");
    };
    holds(rt, matches!(star, Marker::Star), "*");
    holds(
        rt,
        is_step_of(of_b, 1, 1) && is_step_of(of_d, 2, 0),
        "the other markers",
    );
    holds(rt, second.len() == 1, "one entry");
}

#[test]
fn a_whole_file(rt: HostRuntime) -> Result<(), Fail> {
    let Ok(spec) = parsed(rt.alloc(), WHOLE) else {
        return Err(Fail::new("refused"));
    };
    let [first, second] = spec.setups.as_slice() else {
        return Err(Fail::new("two setups"));
    };
    holds(
        &rt,
        part_is(first, 0, 9, "CREATE") && part_is(second, 1, 26, "x"),
        "setups",
    );
    holds(
        &rt,
        matches!(&spec.teardown, Some(part) if part_is(part, 2, 41, "DROP")),
        "the teardown",
    );
    sessions_are(&rt, spec.sessions.as_slice());
    perms_are(&rt, spec.perms.as_slice());
    Ok(())
}
