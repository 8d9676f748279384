//! Reports byte for byte, of histories made by hand, and what a failing sink answers.

use crate::histories::Part::{self, Ends, EndsWith, Fails, Out, Shows, To, Waits};
use crate::histories::{history, holds, once};
use report_text::{Ended, ReportFault, write_free, write_report};
use session_machine::HistItem;
use spec_parser::{Entry, Spec, parse_spec};
use std::alloc::{AllocError, Global};
use std::process::Abort;
use std::test::Fail;
use test_devices::Takes;

#[derive(Clone, Copy, PartialEq, Eq)]
pub(crate) enum Ending {
    Whole,
    Invalid,
    SetupFails,
    SetupWaits,
    Write,
}

fn ending_of(ended: Result<Ended, ReportFault>) -> Result<Ending, AllocError> {
    match ended {
        Ok(Ended::Whole) => Ok(Ending::Whole),
        Ok(Ended::Invalid) => Ok(Ending::Invalid),
        Err(ReportFault::SetupFailed { .. }) => Ok(Ending::SetupFails),
        Err(ReportFault::SetupWaits) => Ok(Ending::SetupWaits),
        Err(ReportFault::Write) => Ok(Ending::Write),
        Err(ReportFault::Memory) => Err(AllocError),
    }
}

/// Neither sink fails.
pub(crate) const ENDLESS: (usize, usize) = (usize::MAX, usize::MAX);

/// What the report says, and how it ends.
#[derive(Drop)]
pub(crate) struct Reported {
    pub(crate) out: Takes,
    pub(crate) notes: Takes,
    pub(crate) ending: Ending,
}

/// The entries of the first permutation line.
pub(crate) fn entries_of<'s>(spec: &'s Spec<'_>) -> &'s [Entry] {
    match spec.perms.first() {
        Some(entries) => entries,
        None => &[],
    }
}

/// The report of these entries with this history, where the sinks of text and notes take so many puts.
pub(crate) fn report_of(
    alloc: Global,
    spec: &Spec<'_>,
    entries: &[Entry],
    items: &[HistItem<'_>],
    puts: (usize, usize),
) -> Result<Reported, AllocError> {
    let mut out = Takes::new(puts.0);
    let mut notes = Takes::new(puts.1);
    let ended = write_report(alloc, spec, entries, items, &mut out, &mut notes);
    Ok(Reported {
        out,
        notes,
        ending: ending_of(ended)?,
    })
}

/// How the report of a free run ends that no sink ends.
pub(crate) fn free_ending(
    alloc: Global,
    spec: &Spec<'_>,
    items: &[HistItem<'_>],
) -> Result<Ending, AllocError> {
    let mut out = Takes::new(usize::MAX);
    let mut notes = Takes::new(usize::MAX);
    ending_of(write_free(alloc, spec, items, &mut out, &mut notes))
}

fn report_of_parts(
    alloc: Global,
    spec: &Spec<'_>,
    parts: &[Part],
    puts: (usize, usize),
) -> Result<Reported, AllocError> {
    let items = history(alloc, &[once(parts)], 1)?;
    report_of(alloc, spec, entries_of(spec), &items, puts)
}

/// The report of a file's first permutation with this history.
fn file_report(
    alloc: Global,
    spec: &Spec<'_>,
    parts: &[Part],
    puts: (usize, usize),
) -> Result<Reported, Fail> {
    Ok(report_of_parts(alloc, spec, parts, puts)?)
}

/// The same of the file that this text is.
pub(crate) fn report(
    alloc: Global,
    text: &str,
    parts: &[Part],
    puts: (usize, usize),
) -> Result<Reported, Fail> {
    let spec = parse_spec(alloc, text)?;
    file_report(alloc, &spec, parts, puts)
}

/// A file, a history of its first permutation, what the report says, what is noted, and how it ends.
type Case = (
    &'static str,
    &'static [Part],
    &'static str,
    &'static str,
    Ending,
);

const CASES: [Case; 4] = [
    // The last reply of a setup is printed, and a later one waits.
    (
        "setup { SELECT 2; SELECT 1; } session s setup { SELECT 1 } step a { }\npermutation a",
        &[
            To(0, 0),
            Shows(0, "y", 2),
            EndsWith(0, "x", 1),
            To(1, 1),
            Waits(1),
        ],
        "\nstarting permutation: a\nx\n-\n1\n(1 row)\n\n",
        "",
        Ending::SetupWaits,
    ),
    // A teardown would wait.
    (
        "session s1 step a { UPDATE t SET x = 1; } session s2 step b { COMMIT; } teardown { UPDATE t SET x = 0; } permutation a b",
        &[
            To(1, 0),
            Ends(1),
            To(2, 1),
            Ends(2),
            To(2, 2),
            Waits(2),
            Out(2),
            Out(1),
            Out(2),
        ],
        "\nstarting permutation: a b\nstep a: UPDATE t SET x = 1;\nstep b: COMMIT;\n",
        "isolationtester: teardown of session s2 failed: would wait\n",
        Ending::Whole,
    ),
    // A session waits whose next step is due.
    (
        "session s1 step a { UPDATE t SET x = 1; } session s2 step b { UPDATE t SET x = 2; } step c { COMMIT; } permutation a b c",
        &[To(1, 0), Ends(1), To(2, 1), Waits(2)],
        "\nstarting permutation: a b c\nstep a: UPDATE t SET x = 1;\nstep b: UPDATE t SET x = 2; <waiting ...>\ninvalid permutation detected\n",
        "",
        Ending::Invalid,
    ),
    // No entries, and three teardowns: the first shows a table, the others fail.
    (
        "teardown { DROP TABLE t } session s1 step a { } teardown { } session \"s\"\"2\" step b { } teardown { }",
        &[
            To(1, 0),
            EndsWith(1, "x", 3),
            To(2, 1),
            Fails(2, 7),
            Out(1),
            Out(2),
            To(0, 2),
            Fails(0, 13),
        ],
        "\nstarting permutation:\nx\n-\n3\n(1 row)\n\n",
        "isolationtester: teardown of session s\"2 failed: current transaction is aborted, commands ignored until end of transaction block\nisolationtester: teardown failed: table \"a\"B\" does not exist\n",
        Ending::Whole,
    ),
];

fn says(rt: &impl Abort, alloc: Global, case: &Case) -> Result<(), Fail> {
    let (text, parts, out, notes, ending) = *case;
    let run = report(alloc, text, parts, ENDLESS)?;
    holds(rt, run.out.text() == out.as_bytes());
    holds(rt, run.notes.text() == notes.as_bytes());
    holds(rt, run.ending == ending);
    Ok(())
}

#[test]
fn reports_are_written_byte_for_byte(rt: HostRuntime) -> Result<(), Fail> {
    for case in &CASES {
        says(&rt, rt.alloc(), case)?;
    }
    Ok(())
}

fn ending_after(alloc: Global, puts: (usize, usize)) -> Result<Ending, Fail> {
    let parts = [To(1, 0), Ends(1), To(1, 1), Ends(1), Out(1)];
    let text = "session s step a { BEGIN } step b { COMMIT } permutation a(*) b";
    Ok(report(alloc, text, &parts, puts)?.ending)
}

/// One put each: the text, then the notes.
#[test]
fn a_sink_fails_at_its_put(rt: HostRuntime) -> Result<(), Fail> {
    let cases = [
        (0, 1, Ending::Write),
        (1, 0, Ending::Write),
        (1, 1, Ending::Whole),
    ];
    for (out, notes, wanted) in cases {
        holds(&rt, ending_after(rt.alloc(), (out, notes))? == wanted);
    }
    Ok(())
}
