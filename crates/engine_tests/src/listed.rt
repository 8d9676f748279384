//! Where there is memory, a statement is answered however much it lists and however much it goes over: columns, items, keys, tables, values, letters, rows and targets.

use crate::trial::{at_last, holds};
use row_versions::ListStore;
use session_core::{EngineFault, EngineState, Event, Mode, Outcome, StmtFault, Turn};
use sql_parser::{Block, Role, parse_block};
use std::alloc::{AllocError, Global};
use std::process::Abort;

const SIZES: [usize; 8] = [0, 1, 5, 9, 41, 101, 1_001, 5_001];

/// A text that lists: what stands before the list, before and behind the number of each of its parts, and behind the list. Where nothing stands before a part there is no list.
type Parts = [&'static str; 4];

/// How many there are for each part of the list, and how many more.
type Count = (usize, usize);

/// What the last statement answers.
#[derive(Clone, Copy)]
enum Answer {
    /// So many rows, and so many columns.
    Rows(Count, Count),
    Done,
    /// That a key is taken, in whose name so many underscores stand.
    Taken(Count),
}

/// Sessions run blocks, one after the other, and this is the last reply. No more than so many parts are listed.
#[derive(Clone, Copy)]
struct Case {
    of: &'static str,
    lines: &'static [(u32, Parts)],
    answer: Answer,
    most: usize,
}

const NONE: Count = (0, 0);

const ONE: Count = (0, 1);

const EACH_AND_ONE: Count = (1, 1);

const EACH_AND_TWO: Count = (1, 2);

const TABLE: (u32, Parts) = (0, ["CREATE TABLE t (x int)", "", "", ""]);

const WIDE: (u32, Parts) = (0, ["CREATE TABLE t (c int", ", c", " int", ")"]);

const UNIQUE: (u32, Parts) = (
    0,
    [
        "CREATE TABLE t (c int UNIQUE",
        ", c",
        " int NOT NULL UNIQUE",
        ")",
    ],
);

const ONE_ROW: (u32, Parts) = (1, ["INSERT INTO t VALUES (7", ", ", "", ")"]);

const ROWS: (u32, Parts) = (1, ["INSERT INTO t VALUES (-1)", ", (", ")", " RETURNING x"]);

const SET: (u32, Parts) = (1, ["UPDATE t SET c = 8", ", c", " = 8", " RETURNING *"]);

const SORTED: (u32, Parts) = (1, ["SELECT * FROM t ORDER BY c", ", c", " DESC", ""]);

const NONE_PASSES: (u32, Parts) = (1, ["SELECT x FROM t WHERE x < -1 ORDER BY x", "", "", ""]);

const SUMMED: (u32, Parts) = (1, ["SELECT count(*)", ", sum(c", ")", " FROM t"]);

/// All rows but the first and the last are listed.
const LAST_ROW: (u32, Parts) = (0, ["INSERT INTO t VALUES (-2)", ", (", ")", ", (-1)"]);

const HOLDS_LAST: (u32, Parts) = (2, ["BEGIN; UPDATE t SET x = -3 WHERE x = -1", "", "", ""]);

const CHANGES_ALL: (u32, Parts) = (
    1,
    [
        "UPDATE t SET x = x + 1 WHERE x < 10000 RETURNING x",
        "",
        "",
        "",
    ],
);

const COMMITS: (u32, Parts) = (2, ["COMMIT", "", "", ""]);

const SKIPS: (u32, Parts) = (1, ["SELECT x FROM t FOR UPDATE SKIP LOCKED", "", "", ""]);

/// The row's text is its key.
const LETTERS: (u32, Parts) = (1, ["INSERT INTO t VALUES ('x", "a", "", "')"]);

const ADDS_A_LETTER: (u32, Parts) = (
    1,
    [
        "UPDATE t SET x = x || 'b' WHERE x >= 'x' RETURNING x",
        "",
        "",
        "",
    ],
);

const SEVEN: (u32, Parts) = (1, ["INSERT INTO t VALUES (7)", "", "", ""]);

const ITEMS: (u32, Parts) = (1, ["SELECT x", ", x + ", "", " FROM t"]);

const RETURNED: (u32, Parts) = (
    1,
    ["INSERT INTO t VALUES (7) RETURNING x", ", x + ", "", ""],
);

const SORT_KEYS: (u32, Parts) = (1, ["SELECT x FROM t ORDER BY x", ", x + ", "", ""]);

const MEMBERS: (u32, Parts) = (1, ["SELECT x FROM t WHERE x NOT IN (-1", ", -", "", ")"]);

/// The table's name is as long as that, and so is the name of its key.
const NAMED: (u32, Parts) = (0, ["CREATE TABLE t", "_", "", " (x int PRIMARY KEY)"]);

const SEVEN_INTO_NAMED: (u32, Parts) = (1, ["INSERT INTO t", "_", "", " VALUES (7)"]);

const CASES: [Case; 21] = [
    Case {
        of: "columns that are read",
        lines: &[WIDE, ONE_ROW, SORTED],
        answer: Answer::Rows(ONE, EACH_AND_ONE),
        most: 5_001,
    },
    Case {
        of: "columns of no row",
        lines: &[WIDE, SORTED],
        answer: Answer::Rows(NONE, EACH_AND_ONE),
        most: 5_001,
    },
    Case {
        of: "columns that are changed",
        lines: &[WIDE, ONE_ROW, SET],
        answer: Answer::Rows(ONE, EACH_AND_ONE),
        most: 5_001,
    },
    Case {
        of: "aggregates",
        lines: &[WIDE, ONE_ROW, SUMMED],
        answer: Answer::Rows(ONE, EACH_AND_ONE),
        most: 5_001,
    },
    Case {
        of: "aggregates of no row",
        lines: &[WIDE, SUMMED],
        answer: Answer::Rows(ONE, EACH_AND_ONE),
        most: 5_001,
    },
    Case {
        of: "keys",
        lines: &[UNIQUE, ONE_ROW, SET],
        answer: Answer::Rows(ONE, EACH_AND_ONE),
        most: 101,
    },
    Case {
        of: "rows of VALUES",
        lines: &[TABLE, ROWS],
        answer: Answer::Rows(EACH_AND_ONE, ONE),
        most: 5_001,
    },
    Case {
        of: "rows none of which passes",
        lines: &[TABLE, ROWS, NONE_PASSES],
        answer: Answer::Rows(NONE, ONE),
        most: 5_001,
    },
    Case {
        of: "rows that are locked",
        lines: &[
            TABLE,
            ROWS,
            (1, ["SELECT x FROM t ORDER BY x FOR UPDATE", "", "", ""]),
        ],
        answer: Answer::Rows(EACH_AND_ONE, ONE),
        most: 5_001,
    },
    Case {
        of: "rows that are deleted",
        lines: &[TABLE, ROWS, (1, ["DELETE FROM t RETURNING x", "", "", ""])],
        answer: Answer::Rows(EACH_AND_ONE, ONE),
        most: 5_001,
    },
    Case {
        of: "rows before a wait",
        lines: &[TABLE, LAST_ROW, HOLDS_LAST, CHANGES_ALL, COMMITS],
        answer: Answer::Rows(EACH_AND_TWO, ONE),
        most: 5_001,
    },
    Case {
        of: "values before a wait for a key",
        lines: &[
            (0, ["CREATE TABLE t (x int PRIMARY KEY)", "", "", ""]),
            (2, ["BEGIN; INSERT INTO t VALUES (-1)", "", "", ""]),
            (
                1,
                [
                    "INSERT INTO t VALUES (-2)",
                    ", (",
                    ")",
                    ", (-1) RETURNING x",
                ],
            ),
            (2, ["ROLLBACK", "", "", ""]),
        ],
        answer: Answer::Rows(EACH_AND_TWO, ONE),
        most: 5_001,
    },
    Case {
        of: "rows that are passed over",
        lines: &[
            TABLE,
            ROWS,
            (2, ["BEGIN; UPDATE t SET x = x + 1", "", "", ""]),
            SKIPS,
        ],
        answer: Answer::Rows(NONE, ONE),
        most: 5_001,
    },
    Case {
        of: "tables",
        lines: &[
            (
                0,
                [
                    "CREATE TABLE t (x int)",
                    "; CREATE TABLE t",
                    " (x int UNIQUE)",
                    "",
                ],
            ),
            (0, ["DROP TABLE t", ", t", "", ""]),
        ],
        answer: Answer::Done,
        most: 101,
    },
    Case {
        of: "items of a select list",
        lines: &[TABLE, SEVEN, ITEMS],
        answer: Answer::Rows(ONE, EACH_AND_ONE),
        most: 5_001,
    },
    Case {
        of: "items of RETURNING",
        lines: &[TABLE, RETURNED],
        answer: Answer::Rows(ONE, EACH_AND_ONE),
        most: 5_001,
    },
    Case {
        of: "keys to sort by",
        lines: &[TABLE, SEVEN, SORT_KEYS],
        answer: Answer::Rows(ONE, ONE),
        most: 5_001,
    },
    Case {
        of: "members of a list",
        lines: &[TABLE, SEVEN, MEMBERS],
        answer: Answer::Rows(ONE, ONE),
        most: 5_001,
    },
    Case {
        of: "letters",
        lines: &[
            (0, ["CREATE TABLE t (x text PRIMARY KEY)", "", "", ""]),
            LETTERS,
            ADDS_A_LETTER,
        ],
        answer: Answer::Rows(ONE, ONE),
        most: 5_001,
    },
    Case {
        of: "letters of a key's name",
        lines: &[NAMED, SEVEN_INTO_NAMED, SEVEN_INTO_NAMED],
        answer: Answer::Taken(EACH_AND_ONE),
        most: 5_001,
    },
    Case {
        of: "names of no table",
        lines: &[(0, ["DROP TABLE IF EXISTS t", ", t", "", ""])],
        answer: Answer::Done,
        most: 5_001,
    },
];

fn listed(alloc: Global, parts: Parts, size: usize) -> Result<String, AllocError> {
    let [front, before, behind, back] = parts;
    let mut text = String::new(alloc);
    text.push_str(front)?;
    let count = if before.is_empty() { 0 } else { size };
    for number in 0..count {
        let part = format!(in alloc; "{before}{number}{behind}")?;
        text.push_str(part.as_str())?;
    }
    text.push_str(back)?;
    Ok(text)
}

/// The texts of the case's blocks, with their sessions.
fn texts(alloc: Global, case: &Case, size: usize) -> Result<Vec<(u32, String)>, AllocError> {
    let mut all = Vec::new(alloc);
    for line in case.lines {
        let text = listed(alloc, line.1, size)?;
        all.push((line.0, text))?;
    }
    Ok(all)
}

/// The block of this text. One with a fault is refused as for want of memory.
fn block<'t>(alloc: Global, session: u32, text: &'t str) -> Result<Block<'t>, AllocError> {
    if text.len() > 65_536 {
        return Err(AllocError);
    }
    let role = if session == 0 {
        Role::Main
    } else {
        Role::Session
    };
    match parse_block(alloc, text, role) {
        Ok(block) => Ok(block),
        Err(_) => Err(AllocError),
    }
}

fn blocks<'t>(alloc: Global, texts: &'t [(u32, String)]) -> Result<Vec<Block<'t>>, AllocError> {
    let mut all = Vec::new(alloc);
    for (session, text) in texts {
        all.push(block(alloc, *session, text.as_str())?)?;
    }
    Ok(all)
}

/// Steps until nothing goes on by itself. Each reply is given as well as kept.
fn rest(engine: &mut EngineState<'_, '_, ListStore>) -> Result<(), EngineFault> {
    for _ in 0..256 {
        let Turn::Session(session) = engine.turn() else {
            return Ok(());
        };
        let _reply = engine.step(session)?;
    }
    Err(EngineFault::NotYourTurn)
}

/// Gives each block to its session, and steps until nothing goes on by itself.
fn run(
    engine: &mut EngineState<'_, '_, ListStore>,
    texts: &[(u32, String)],
) -> Result<(), EngineFault> {
    let mut block: u32 = 0;
    for (session, _) in texts {
        engine.perform(Event::Launch {
            session: *session,
            block,
        })?;
        rest(engine)?;
        block = block.wrapping_add(1);
    }
    Ok(())
}

fn is_count(found: usize, count: Count, size: usize) -> bool {
    found == count.0.saturating_mul(size).saturating_add(count.1)
}

fn underscores(name: &[u8]) -> usize {
    let mut count = 0usize;
    for byte in name {
        if *byte == b'_' {
            count = count.wrapping_add(1);
        }
    }
    count
}

/// Whether the outcome is what the case says.
fn is_wanted(outcome: &Outcome<'_>, case: &Case, size: usize) -> bool {
    match (outcome, case.answer) {
        (Outcome::Rows(set), Answer::Rows(rows, columns)) => {
            is_count(set.rows().len(), rows, size) && is_count(set.titles().len(), columns, size)
        }
        (Outcome::Done, Answer::Done) => true,
        (Outcome::Failed(StmtFault::KeyTaken(name)), Answer::Taken(count)) => {
            is_count(underscores(name.text()), count, size)
        }
        _ => false,
    }
}

/// Whether an engine over these blocks answers what the case says, also in a copy of its history's last item.
fn is_answered_by(
    alloc: Global,
    blocks: &[Block<'_>],
    texts: &[(u32, String)],
    case: &Case,
    size: usize,
) -> Result<bool, AllocError> {
    let store = ListStore::new(alloc);
    let mut engine = EngineState::new(alloc, blocks, 2, Mode::Directed, store)?;
    if run(&mut engine, texts).is_err() {
        return Err(AllocError);
    }
    let Some(item) = engine.history().last() else {
        return Ok(false);
    };
    let again = item.copied(alloc)?;
    Ok(is_wanted(&again.reply.outcome, case, size))
}

fn is_answered(alloc: Global, case: &Case, size: usize) -> Result<bool, AllocError> {
    let texts = texts(alloc, case, size)?;
    let blocks = blocks(alloc, &texts)?;
    is_answered_by(alloc, &blocks, &texts, case, size)
}

fn answers(rt: &impl Abort, alloc: Global, case: &Case, size: usize) -> Result<(), AllocError> {
    holds(rt, is_answered(alloc, case, size)?, case.of);
    Ok(())
}

#[test]
fn however_much_a_statement_lists(rt: HostRuntime) {
    for case in CASES {
        for size in SIZES {
            if size <= case.most {
                at_last!(&rt, answers(&rt, rt.alloc(), &case, size));
            }
        }
    }
}
