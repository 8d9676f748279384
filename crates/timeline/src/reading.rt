//! What the isolation tester's text tells, permutation by permutation.

use crate::names::Column;
use std::alloc::{AllocError, Global};

/// Longer lines are broken at a blank.
const WIDEST: usize = 46;

/// Longer words are broken too.
const LONGEST_WORD: usize = 200;

/// Longer titles are cut.
const LONGEST_TITLE: usize = 2_000;

/// What the tool's text begins with.
const FIRST_LINE: &str = "Parsed test spec with ";

/// What the line of a step says of it.
#[derive(Clone, Copy)]
pub enum StepStatus {
    Done,
    Waits,
    Completed,
}

/// What is printed of a step, in the column of its session.
#[derive(Drop)]
pub struct StepReport {
    pub column: usize,
    pub status: StepStatus,
    /// Its name and SQL, and what came back.
    pub lines: Vec<String>,
}

impl StepReport {
    /// Whether a statement of the step failed.
    pub fn is_failed(&self) -> bool {
        self.lines
            .iter()
            .any(|line| line.as_str().starts_with("ERROR:"))
    }
}

/// What is printed of a permutation, or of a free run.
#[derive(Drop)]
pub struct PermutationReport {
    pub title: String,
    pub steps: Vec<StepReport>,
    pub is_invalid: bool,
}

/// Ends the line that `part` holds, and begins the next one.
fn break_line(alloc: Global, lines: &mut Vec<String>, part: &mut String) -> Result<(), AllocError> {
    lines.push(String::from_str(alloc, part.as_str().trim_end())?)?;
    *part = String::from_str(alloc, "  ")?;
    Ok(())
}

/// Adds the line, broken at blanks where it is too long, and within words where one is far too long.
fn put_broken(alloc: Global, lines: &mut Vec<String>, line: &str) -> Result<(), AllocError> {
    let mut part = String::new(alloc);
    let mut width = 0usize;
    for word in line.split(' ') {
        let is_first = width == 0;
        if !is_first && width.saturating_add(word.chars().count()) > WIDEST {
            break_line(alloc, lines, &mut part)?;
            width = 2;
        }
        for ch in word.chars() {
            if width >= LONGEST_WORD {
                break_line(alloc, lines, &mut part)?;
                width = 2;
            }
            part.push(ch)?;
            width = width.saturating_add(1);
        }
        part.push(' ')?;
        width = width.saturating_add(1);
    }
    let whole = String::from_str(alloc, part.as_str().trim_end())?;
    lines.push(whole)?;
    Ok(())
}

/// What the line tells of a step: its column, and what stands behind its name.
fn step_of<'a>(columns: &[Column], line: &'a str) -> Option<(usize, &'a str)> {
    let rest = line.strip_prefix("step ")?;
    for (at, column) in columns.iter().enumerate() {
        for step in &column.steps {
            if let Some(behind) = rest.strip_prefix(step.as_str()) {
                if let Some(sql) = behind.strip_prefix(": ") {
                    return Some((at, sql));
                }
            }
        }
    }
    None
}

fn status_of(sql: &str) -> StepStatus {
    if sql == "<... completed>" {
        StepStatus::Completed
    } else if sql.ends_with(" <waiting ...>") {
        StepStatus::Waits
    } else {
        StepStatus::Done
    }
}

fn step_report(
    alloc: Global,
    column: usize,
    sql: &str,
    line: &str,
) -> Result<StepReport, AllocError> {
    let mut lines = Vec::new(alloc);
    put_broken(
        alloc,
        &mut lines,
        line.strip_prefix("step ").unwrap_or(line),
    )?;
    Ok(StepReport {
        column,
        status: status_of(sql),
        lines,
    })
}

/// Adds a line that isn't a step's first one to the step before it.
fn put_below(alloc: Global, report: &mut PermutationReport, line: &str) -> Result<(), AllocError> {
    if let Some(step) = report.steps.last_mut() {
        put_broken(alloc, &mut step.lines, line)?;
        if status_of(line) == StepStatus::Waits {
            step.status = StepStatus::Waits;
        }
    }
    Ok(())
}

fn put_line(
    alloc: Global,
    columns: &[Column],
    report: &mut PermutationReport,
    line: &str,
) -> Result<(), AllocError> {
    if let Some((column, sql)) = step_of(columns, line) {
        report.steps.push(step_report(alloc, column, sql, line)?)?;
    } else if line == "invalid permutation detected" {
        report.is_invalid = true;
    } else if !line.is_empty() {
        put_below(alloc, report, line)?;
    }
    Ok(())
}

/// Whether the line begins a permutation or a free run.
fn is_start(line: &str) -> bool {
    line.starts_with("starting permutation:") || line == "starting free run"
}

fn title_of(alloc: Global, line: &str) -> Result<String, AllocError> {
    let mut title = String::new(alloc);
    for ch in line.chars().take(LONGEST_TITLE) {
        title.push(ch)?;
    }
    if title.len() < line.len() {
        title.push_str("..")?;
    }
    Ok(title)
}

/// Whether the isolation tester printed the text, as far as its first line tells.
pub fn is_of_the_tool(text: &str) -> bool {
    text.starts_with(FIRST_LINE)
}

/// The permutations that the text tells, or its free run. Tables of setups are left out.
pub fn reports_in(
    alloc: Global,
    columns: &[Column],
    text: &str,
) -> Result<Vec<PermutationReport>, AllocError> {
    let mut reports: Vec<PermutationReport> = Vec::new(alloc);
    for line in text.lines() {
        if is_start(line) {
            reports.push(PermutationReport {
                title: title_of(alloc, line)?,
                steps: Vec::new(alloc),
                is_invalid: false,
            })?;
        } else if let Some(report) = reports.last_mut() {
            put_line(alloc, columns, report, line)?;
        }
    }
    Ok(reports)
}
