//! Each call that may answer want of memory, with ample memory, at growing numbers of what it goes over.

ghost use Rattle.std.specs.Prelude.{◌<◌, ◌^◌, length};

use crate::asked::{Asked, is_right_of_file};
use crate::histories::Part::{Ends, Out, To, Waits, Works};
use crate::histories::{Round, Times, holds};
use crate::values::{row, table};
use permutation_lists::Interleavings;
use query_results::Title;
use result_tables::write_table;
use session_machine::{Order, Outcome};
use spec_parser::Entry;
use std::alloc::{AllocError, Global};
use std::fmt::Write;
use std::test::Fail;
use test_devices::Takes;

const SIZES: &[u32] = &[0, 1, 5, 9, 41, 101, 1_001, 5_001];

// A file has at most 64 sessions, and a session at most 1000 steps.
const SESSIONS: &[u32] = &[1, 5, 9, 41, 63, 64];

const STEPS: &[u32] = &[1, 5, 9, 41, 101, 1_000];

/// A file: its first words, words that come so many times with their number between them, and its last words.
#[derive(Clone, Copy)]
struct Words {
    first: &'static str,
    is_long: bool,
    before: &'static str,
    between: &'static str,
    behind: &'static str,
    last: &'static str,
}

const ONE_STEP: Words = Words {
    first: "session s step a { }",
    is_long: false,
    before: "",
    between: "",
    behind: "",
    last: "",
};

/// Each session's setup, its step and its teardown, in blocks that follow one another.
const MANY_SESSIONS: Words = Words {
    first: "",
    is_long: true,
    before: "session s",
    between: " setup { } step a",
    behind: " { } teardown { } ",
    last: "",
};

/// Setups, and a step in the block behind theirs.
const MANY_SETUPS: Words = Words {
    first: "",
    is_long: true,
    before: "setup { ",
    between: " ",
    behind: " } ",
    last: "session s step a { }",
};

/// One session with many steps.
const MANY_STEPS: Words = Words {
    first: "session s",
    is_long: true,
    before: " step a",
    between: " { ",
    behind: " }",
    last: "",
};

/// The first step of one session, once or many times, or that of each of many sessions.
#[derive(Clone, Copy)]
enum Steps {
    OfOneSession(Times),
    OfEachSession,
}

/// What a call is asked about a file and a history, by how many it goes over.
#[derive(Clone, Copy)]
enum Call {
    PlanOfSessions,
    FreeRunOfSessions,
    PlanOfSetups,
    ReportBehindSetups,
    FreeRunOfSetups,
    FreeRunOfSteps,
    StepsThatWait,
    ListedEntries,
    LinesOfEntries,
    PlanEnds,
    Text,
    FreeText,
}

fn asked(call: Call, count: u32) -> Asked {
    let first = Order::Launch {
        session: if let (Call::PlanOfSetups, 1..) = (call, count) {
            0
        } else {
            1
        },
        block: 0,
    };
    let lines = count as usize;
    match call {
        Call::PlanOfSessions | Call::PlanOfSetups => Asked::First(first),
        Call::FreeRunOfSessions => Asked::Scripts(count),
        Call::ReportBehindSetups => Asked::Lines(count, 1),
        Call::FreeRunOfSetups | Call::FreeRunOfSteps => Asked::Scripts(1),
        // Each step but the last is told twice.
        Call::StepsThatWait => Asked::Lines(0, lines.saturating_mul(2).saturating_sub(1)),
        Call::ListedEntries => Asked::Listed,
        Call::LinesOfEntries => Asked::Lines(0, lines),
        Call::PlanEnds => Asked::Behind(Order::Stop, true),
        Call::Text => Asked::Written,
        Call::FreeText => Asked::WrittenFreely,
    }
}

/// A call, the file, the entries, and the history that it is asked about, and the numbers that it is asked at.
struct Case {
    call: Call,
    words: Words,
    steps: Steps,
    rounds: &'static [Round<'static>],
    numbers: &'static [u32],
}

/// The step of session 1 runs.
const STEP_RUNS: Round<'static> = Round {
    times: Times::Once,
    parts: &[To(1, 0), Ends(1)],
    by: (0, 0),
};

const EACH_STEP_RUNS: Round<'static> = Round {
    times: Times::Each,
    parts: &[To(1, 0), Ends(1)],
    by: (0, 0),
};

/// The setup of each session runs.
const SETUPS_RUN: Round<'static> = Round {
    times: Times::Each,
    parts: &[To(1, 0), Ends(1)],
    by: (1, 3),
};

/// The teardown of each session runs.
const TEARDOWNS_RUN: Round<'static> = Round {
    times: Times::Each,
    parts: &[To(1, 2), Ends(1)],
    by: (1, 3),
};

const SESSIONS_LEAVE: Round<'static> = Round {
    times: Times::Each,
    parts: &[Out(1)],
    by: (1, 0),
};

const SESSION_LEAVES: Round<'static> = Round {
    times: Times::Once,
    parts: &[Out(1)],
    by: (0, 0),
};

const CONTROL_LEAVES: Round<'static> = Round {
    times: Times::Once,
    parts: &[Out(0)],
    by: (0, 0),
};

/// The main setups run.
const MAIN_SETUPS_RUN: Round<'static> = Round {
    times: Times::Each,
    parts: &[To(0, 0), Ends(0)],
    by: (0, 1),
};

/// The step runs whose block stands behind those of the main setups.
const STEP_BEHIND_RUNS: Round<'static> = Round {
    times: Times::Behind,
    parts: &[To(1, 0), Ends(1)],
    by: (0, 1),
};

const STEP_BEHIND_SETUPS: &[Round<'static>] = &[MAIN_SETUPS_RUN, STEP_BEHIND_RUNS, SESSION_LEAVES];

const STEPS_RUN: &[Round<'static>] = &[EACH_STEP_RUNS, SESSION_LEAVES];

/// The step's statements, of which many come before the last.
const MANY_STATEMENTS: Round<'static> = Round {
    times: Times::Each,
    parts: &[Works(1)],
    by: (0, 0),
};

const BEGINS: Round<'static> = Round {
    times: Times::Once,
    parts: &[To(1, 0)],
    by: (0, 0),
};

const ENDS: Round<'static> = Round {
    times: Times::Once,
    parts: &[Ends(1), Out(1)],
    by: (0, 0),
};

const CASES: [Case; 15] = [
    Case {
        call: Call::PlanOfSessions,
        words: MANY_SESSIONS,
        steps: Steps::OfOneSession(Times::Once),
        rounds: &[
            SETUPS_RUN,
            Round {
                times: Times::Once,
                parts: &[To(1, 1), Ends(1)],
                by: (0, 0),
            },
            TEARDOWNS_RUN,
            SESSIONS_LEAVE,
        ],
        numbers: SESSIONS,
    },
    Case {
        call: Call::FreeRunOfSessions,
        words: MANY_SESSIONS,
        steps: Steps::OfOneSession(Times::Once),
        rounds: &[
            SETUPS_RUN,
            CONTROL_LEAVES,
            Round {
                times: Times::Each,
                parts: &[To(1, 1), Ends(1)],
                by: (1, 3),
            },
            TEARDOWNS_RUN,
            SESSIONS_LEAVE,
        ],
        numbers: SESSIONS,
    },
    Case {
        call: Call::PlanOfSetups,
        words: MANY_SETUPS,
        steps: Steps::OfOneSession(Times::Once),
        rounds: STEP_BEHIND_SETUPS,
        numbers: SIZES,
    },
    Case {
        call: Call::ReportBehindSetups,
        words: ONE_STEP,
        steps: Steps::OfOneSession(Times::Once),
        rounds: STEP_BEHIND_SETUPS,
        numbers: SIZES,
    },
    Case {
        call: Call::FreeRunOfSetups,
        words: MANY_SETUPS,
        steps: Steps::OfOneSession(Times::Once),
        rounds: &[
            MAIN_SETUPS_RUN,
            CONTROL_LEAVES,
            STEP_BEHIND_RUNS,
            SESSION_LEAVES,
        ],
        numbers: SIZES,
    },
    Case {
        call: Call::FreeRunOfSteps,
        words: MANY_STEPS,
        steps: Steps::OfOneSession(Times::Once),
        rounds: &[
            CONTROL_LEAVES,
            Round {
                times: Times::Each,
                parts: &[To(1, 0), Ends(1)],
                by: (0, 1),
            },
            SESSION_LEAVES,
        ],
        numbers: STEPS,
    },
    // Each session's step waits, and once the last one waits too all of them end. A file has at most 64 sessions, but the report takes the steps of any number.
    Case {
        call: Call::StepsThatWait,
        words: ONE_STEP,
        steps: Steps::OfEachSession,
        rounds: &[
            Round {
                times: Times::Each,
                parts: &[To(1, 0), Waits(1)],
                by: (1, 1),
            },
            Round {
                times: Times::Each,
                parts: &[Ends(1)],
                by: (1, 0),
            },
        ],
        numbers: SIZES,
    },
    Case {
        call: Call::ListedEntries,
        words: ONE_STEP,
        steps: Steps::OfOneSession(Times::Each),
        rounds: &[],
        numbers: SIZES,
    },
    Case {
        call: Call::LinesOfEntries,
        words: ONE_STEP,
        steps: Steps::OfOneSession(Times::Each),
        rounds: STEPS_RUN,
        numbers: SIZES,
    },
    Case {
        call: Call::PlanEnds,
        words: ONE_STEP,
        steps: Steps::OfOneSession(Times::Each),
        rounds: STEPS_RUN,
        numbers: SIZES,
    },
    Case {
        call: Call::PlanEnds,
        words: ONE_STEP,
        steps: Steps::OfOneSession(Times::Once),
        rounds: &[BEGINS, MANY_STATEMENTS, ENDS],
        numbers: SIZES,
    },
    Case {
        call: Call::Text,
        words: ONE_STEP,
        steps: Steps::OfOneSession(Times::Each),
        rounds: STEPS_RUN,
        numbers: SIZES,
    },
    Case {
        call: Call::Text,
        words: ONE_STEP,
        steps: Steps::OfOneSession(Times::Once),
        rounds: &[BEGINS, MANY_STATEMENTS, ENDS],
        numbers: SIZES,
    },
    Case {
        call: Call::FreeRunOfSteps,
        words: ONE_STEP,
        steps: Steps::OfOneSession(Times::Once),
        rounds: &[CONTROL_LEAVES, BEGINS, MANY_STATEMENTS, ENDS],
        numbers: SIZES,
    },
    Case {
        call: Call::FreeText,
        words: ONE_STEP,
        steps: Steps::OfOneSession(Times::Once),
        rounds: &[CONTROL_LEAVES, BEGINS, MANY_STATEMENTS, ENDS],
        numbers: SIZES,
    },
];

/// Puts the words of this number.
fn put_words(out: &mut String, words: Words, number: u32) -> Result<(), AllocError> {
    let before = words.before;
    let between = words.between;
    let behind = words.behind;
    write!(out, "{before}{number}{between}{number}{behind}")
}

fn text(alloc: Global, words: Words, count: u32) -> Result<String, AllocError> {
    let mut text = String::from_str(alloc, words.first)?;
    if words.is_long {
        for number in 0..count {
            put_words(&mut text, words, number)?;
        }
    }
    text.push_str(words.last)?;
    Ok(text)
}

fn entries(alloc: Global, steps: Steps, count: u32) -> Result<Vec<Entry>, AllocError> {
    let (sessions, times) = match steps {
        Steps::OfOneSession(times) => (0, times),
        Steps::OfEachSession => (1, Times::Each),
    };
    let (_, number) = times.bounds(count);
    let mut entries = Vec::new(alloc);
    for n in 0..number {
        entries.push(Entry {
            session: n.wrapping_mul(sessions).wrapping_add(1),
            step: 0,
            markers: Vec::new(alloc),
        })?;
    }
    Ok(entries)
}

/// Whether the answer is right at this number.
fn is_right(alloc: Global, case: &Case, entries: &[Entry], count: u32) -> Result<bool, Fail> {
    let text = text(alloc, case.words, count)?;
    let asked = asked(case.call, count);
    is_right_of_file(
        alloc,
        text.as_str(),
        Some(entries),
        case.rounds,
        count,
        asked,
    )
}

fn is_answered(alloc: Global, case: &Case, count: u32) -> Result<bool, Fail> {
    let entries = entries(alloc, case.steps, count)?;
    is_right(alloc, case, &entries, count)
}

#[test]
fn no_number_wants_memory(rt: HostRuntime) -> Result<(), Fail> {
    for case in &CASES {
        for number in case.numbers {
            holds(&rt, is_answered(rt.alloc(), case, *number)?);
        }
    }
    Ok(())
}

fn is_written(alloc: Global, outcome: &Outcome<'_>) -> Result<bool, Fail> {
    let Outcome::Rows(set) = outcome else {
        return Ok(false);
    };
    let mut out = Takes::new(usize::MAX);
    write_table(alloc, &mut out, set)?;
    Ok(true)
}

/// A table of so many rows and columns.
fn wide_table(alloc: Global, rows: usize, columns: usize) -> Result<Outcome<'static>, AllocError> {
    let mut titles = Vec::new(alloc);
    for _ in 0..columns {
        titles.push(Title::Unnamed)?;
    }
    let mut all = Vec::new(alloc);
    for _ in 0..rows {
        all.push(row(alloc, columns, 1)?)?;
    }
    Ok(table(titles, all))
}

fn table_is_written(alloc: Global, rows: usize, columns: usize) -> Result<bool, Fail> {
    let table = wide_table(alloc, rows, columns)?;
    is_written(alloc, &table)
}

/// The first interleaving of these counts has as many turns as there are steps in all.
fn first_has_all(alloc: Global, counts: &[u32], whole: usize) -> Result<bool, AllocError>
    requires { length counts.now < 2 ^ 32 }
{
    let mut first = Vec::new(alloc);
    let mut all = Interleavings::new(alloc, counts)?;
    let given = all.next(&mut first)?;
    Ok(given && first.len() == whole)
}

/// The same of so many sessions of one step.
fn first_of_sessions(alloc: Global, count: u32) -> Result<bool, AllocError> {
    let counts = vec![in alloc; 1; count as usize]?;
    if counts.len() > 10_000 {
        return Ok(false);
    }
    first_has_all(alloc, &counts, count as usize)
}

#[test]
fn no_size_wants_memory(rt: HostRuntime) -> Result<(), Fail> {
    let alloc = rt.alloc();
    for count in SIZES {
        let number = *count as usize;
        holds(&rt, table_is_written(alloc, number, 1)?);
        holds(&rt, table_is_written(alloc, 1, number)?);
        holds(&rt, first_has_all(alloc, &[*count], number)?);
        holds(&rt, first_of_sessions(alloc, *count)?);
    }
    Ok(())
}
