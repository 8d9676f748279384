//! Files that list much of one thing, and how many lines each call prints of them.

use std::alloc::{AllocError, Global};

/// What a file has many of.
#[derive(Clone, Copy)]
pub enum Many {
    /// Sessions of a setup, a step and a teardown, whose steps are one permutation.
    Sessions,
    /// Steps of one session.
    Steps,
    /// Permutation lines.
    Permutations,
    /// Setups of the file.
    Setups,
    /// Statements of a block.
    Statements,
    /// Rows of a table beside the first.
    Rows,
}

/// A call that goes over a file.
#[derive(Clone, Copy)]
pub enum Call {
    Run,
    RunFreely,
    RunAlone,
    List,
}

/// What stands before and behind the list.
fn frame(many: Many) -> (&'static str, &'static str) {
    match many {
        Many::Sessions => ("", "permutation"),
        Many::Steps => ("session s ", ""),
        Many::Permutations => ("session s step a { } ", ""),
        Many::Setups => ("", "session s step a { }"),
        Many::Statements => ("session s step a { ", "}"),
        Many::Rows => (
            "setup { CREATE TABLE t (x int); INSERT INTO t VALUES (0)",
            "; } session s step a { SELECT x FROM t ORDER BY x }",
        ),
    }
}

/// The part of that number.
fn part(alloc: Global, many: Many, n: u32) -> Result<String, AllocError> {
    match many {
        Many::Sessions => {
            format!(in alloc; "session s{n} setup {{ }} step a{n} {{ }} teardown {{ }} ")
        }
        Many::Steps => format!(in alloc; "step a{n} {{ }} "),
        Many::Permutations => format!(in alloc; "permutation a "),
        Many::Setups => format!(in alloc; "setup {{ }} "),
        Many::Statements => format!(in alloc; "SELECT {n}; "),
        Many::Rows => format!(in alloc; ", ({n})"),
    }
}

/// A file with so many of them.
pub fn text_of(alloc: Global, many: Many, count: u32) -> Result<String, AllocError> {
    let (front, back) = frame(many);
    let mut text = String::new(alloc);
    text.push_str(front)?;
    for n in 0..count {
        let part = part(alloc, many, n)?;
        text.push_str(part.as_str())?;
    }
    text.push_str(back)?;
    if let Many::Sessions = many {
        for n in 0..count {
            let name = format!(in alloc; " a{n}")?;
            text.push_str(name.as_str())?;
        }
    }
    Ok(text)
}

/// The lines of all reports: each has an empty line, one with the permutation, one for each step, five for a result of one row.
fn report_lines(many: Many, count: usize) -> usize {
    match many {
        Many::Sessions | Many::Steps => count.saturating_add(2),
        Many::Permutations => count.saturating_mul(3),
        Many::Setups => 3,
        Many::Statements => count.saturating_mul(5).saturating_add(3),
        Many::Rows => count.saturating_add(8),
    }
}

/// The lines of a free run. It has a line more before each statement's answer.
fn free_lines(many: Many, count: usize) -> usize {
    match many {
        Many::Sessions | Many::Steps => count.saturating_add(3),
        Many::Permutations | Many::Setups => 4,
        Many::Statements => count.saturating_mul(6).saturating_add(4),
        Many::Rows => count.saturating_add(10),
    }
}

/// How many lines that call prints of a file with so many of them.
pub fn lines_of(call: Call, many: Many, count: u32) -> usize {
    let count = count as usize;
    match (call, many) {
        (Call::Run, _) => report_lines(many, count).saturating_add(1),
        (Call::RunAlone, _) => report_lines(many, count),
        (Call::RunFreely, _) => free_lines(many, count),
        (Call::List, Many::Permutations) => count,
        (Call::List, _) => 1,
    }
}
