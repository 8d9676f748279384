//! Permutations as tables of text.

use crate::names::Column;
use crate::reading::{PermutationReport, StepReport, StepStatus};
use std::alloc::{AllocError, Global};

/// What stands in a session's column while its step waits.
const WAITS: &str = ":";

/// How wide each column has to be, in characters.
pub fn widths_of(
    alloc: Global,
    columns: &[Column],
    report: &PermutationReport,
) -> Result<Vec<usize>, AllocError> {
    let mut widths = Vec::new(alloc);
    for column in columns {
        widths.push(column.head.as_str().chars().count())?;
    }
    for step in &report.steps {
        if let Some(width) = widths.get_mut(step.column) {
            for line in &step.lines {
                *width = line.as_str().chars().count().max(*width);
            }
        }
    }
    Ok(widths)
}

/// Which sessions wait; at first none does.
pub fn nobody(alloc: Global, columns: &[Column]) -> Result<Vec<bool>, AllocError> {
    let mut waits = Vec::new(alloc);
    for _ in columns {
        waits.push(false)?;
    }
    Ok(waits)
}

fn put_padded(out: &mut String, text: &str, width: usize) -> Result<(), AllocError> {
    out.push_str(text)?;
    for _ in 0..width.saturating_sub(text.chars().count()) {
        out.push(' ')?;
    }
    Ok(())
}

/// Puts a line of which one column has the text.
fn put_row(
    alloc: Global,
    out: &mut String,
    widths: &[usize],
    waits: &[bool],
    number: &str,
    cell: (usize, &str),
) -> Result<(), AllocError> {
    let mut row = String::new(alloc);
    put_padded(&mut row, number, 3)?;
    for (at, width) in widths.iter().enumerate() {
        let text = if at == cell.0 {
            cell.1
        } else if waits.get(at).copied().unwrap_or(false) {
            WAITS
        } else {
            ""
        };
        row.push_str(" | ")?;
        put_padded(&mut row, text, *width)?;
    }
    out.push_str(row.as_str().trim_end())?;
    out.push('\n')
}

fn put_heads(
    alloc: Global,
    out: &mut String,
    columns: &[Column],
    widths: &[usize],
) -> Result<(), AllocError> {
    let mut heads = String::from_str(alloc, "   ")?;
    let mut rule = String::from_str(alloc, "---")?;
    for (column, width) in columns.iter().zip(widths.iter()) {
        heads.push_str(" | ")?;
        put_padded(&mut heads, column.head.as_str(), *width)?;
        rule.push_str("-+-")?;
        for _ in 0..*width {
            rule.push('-')?;
        }
    }
    out.push_str(heads.as_str().trim_end())?;
    out.push('\n')?;
    out.push_str(rule.as_str())?;
    out.push('\n')
}

fn put_step(
    alloc: Global,
    out: &mut String,
    widths: &[usize],
    waits: &mut Vec<bool>,
    number: usize,
    step: &StepReport,
) -> Result<(), AllocError> {
    let mut label = format!(in alloc; "{number:>3}")?;
    for line in &step.lines {
        put_row(
            alloc,
            out,
            widths,
            waits,
            label.as_str(),
            (step.column, line.as_str()),
        )?;
        label = String::new(alloc);
    }
    if let Some(wait) = waits.get_mut(step.column) {
        *wait = step.status == StepStatus::Waits;
    }
    Ok(())
}

fn put_report(
    alloc: Global,
    out: &mut String,
    columns: &[Column],
    report: &PermutationReport,
) -> Result<(), AllocError> {
    let widths = widths_of(alloc, columns, report)?;
    let mut waits = nobody(alloc, columns)?;
    out.push_str(report.title.as_str())?;
    out.push_str("\n\n")?;
    put_heads(alloc, out, columns, &widths)?;
    for (at, step) in report.steps.iter().enumerate() {
        put_step(alloc, out, &widths, &mut waits, at.saturating_add(1), step)?;
    }
    if report.is_invalid {
        out.push_str("invalid permutation detected\n")?;
    }
    out.push('\n')
}

/// The permutations as text: each step has its number, a session that waits has a `:` in its column.
pub fn table_of(
    alloc: Global,
    columns: &[Column],
    reports: &[PermutationReport],
) -> Result<String, AllocError> {
    let mut out = String::new(alloc);
    for report in reports {
        put_report(alloc, &mut out, columns, report)?;
    }
    Ok(out)
}
