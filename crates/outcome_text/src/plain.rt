//! What can happen, as text: outcomes side by side, and below them what is said of each.

use crate::gathered::Gathered;
use crate::text::Text;
use crate::told::{Class, Nearest, Told, is_shown, text_in};

/// So many outcomes stand side by side; more are listed one below the other.
const MOST_COLUMNS: usize = 6;

/// Between two columns.
const GAP: usize = 2;

fn chars_in(text: &str) -> usize {
    let mut number = 0usize;
    for _ in text.chars() {
        number = number.saturating_add(1);
    }
    number
}

/// How wide a column of cells is.
pub fn width_of(cells: &[String]) -> usize {
    let mut width = 0usize;
    for cell in cells {
        for line in cell.as_str().lines() {
            width = width.max(chars_in(line));
        }
    }
    width
}

/// How wide the heads of the rows that are shown are.
fn head_width(rows: &Gathered<String>, outcomes: &[Told]) -> usize {
    let mut width = 0usize;
    for (row, head) in rows.all().iter().enumerate() {
        if is_shown(outcomes, row) {
            width = width.max(chars_in(head.as_str()));
        }
    }
    width
}

/// How many lines the highest cell of a row has.
fn height_of(outcomes: &[Told], row: usize) -> usize {
    let mut height = 1usize;
    for told in outcomes {
        height = height.max(text_in(&told.cells, row).lines().count());
    }
    height
}

/// The line of this number of a cell, without the spaces at its end; empty where it has fewer.
fn line_at(cell: &str, number: usize) -> &str {
    match cell.lines().nth(number) {
        Some(text) => text.trim_end(),
        None => "",
    }
}

/// Puts what stands in a column of this width, behind so many spaces that are due, and returns how many are due behind it. Nothing is
/// put where nothing stands.
fn put_at(out: &mut Text, due: usize, width: usize, text: &str) -> usize {
    if text.is_empty() {
        return due.saturating_add(width).saturating_add(GAP);
    }
    for _ in 0..due {
        out.put(" ");
    }
    out.put(text);
    width.saturating_sub(chars_in(text)).saturating_add(GAP)
}

/// Puts the lines of this number of the cells of a row.
fn put_line(
    out: &mut Text,
    head: &str,
    width: usize,
    outcomes: &[Told],
    row: usize,
    number: usize,
) {
    let mut due = put_at(out, GAP, width, head);
    for told in outcomes {
        let text = line_at(text_in(&told.cells, row), number);
        due = put_at(out, due, told.width, text);
    }
    out.put("\n");
}

/// Puts a row of the table.
fn put_row(out: &mut Text, head: &str, width: usize, outcomes: &[Told], row: usize) {
    put_line(out, head, width, outcomes, row, 0);
    for number in 1..height_of(outcomes, row) {
        put_line(out, "", width, outcomes, row, number);
    }
}

/// Puts some outcomes side by side.
fn put_table(out: &mut Text, rows: &Gathered<String>, outcomes: &[Told]) {
    let width = head_width(rows, outcomes);
    for (row, head) in rows.all().iter().enumerate() {
        if is_shown(outcomes, row) {
            put_row(out, head.as_str(), width, outcomes, row);
        }
    }
}

/// Puts the serial order that is nearest to an outcome, and in what they differ.
pub fn put_nearest(out: &mut Text, rows: &Gathered<String>, nearest: &Nearest) {
    out.tell(text_in(&nearest.cells, 0));
    let mut before = ", where ";
    for row in nearest.rows.all() {
        out.put(before);
        out.fill("{} gives ", &[text_in(rows, *row)]);
        out.tell_lines(text_in(&nearest.cells, *row), "; ");
        before = ", ";
    }
}

/// Puts the permutation of an outcome, and of one that is not serial the nearest serial order.
fn put_detail(out: &mut Text, rows: &Gathered<String>, told: &Told) {
    out.fill("  {}: {}\n", &[told.name(), told.permutation.as_str()]);
    match &told.class {
        Class::NotSerial(Some(nearest)) => {
            out.put("     nearest: ");
            put_nearest(out, rows, nearest);
            out.put("\n");
        }
        Class::NotSerial(None) => out.put("     no order of the transactions is serial\n"),
        Class::Serial | Class::Untold => {}
    }
}

/// Puts what can happen, behind the heading.
pub fn put_plain(out: &mut Text, rows: &Gathered<String>, outcomes: &[Told]) {
    let columns = if outcomes.len() <= MOST_COLUMNS {
        MOST_COLUMNS
    } else {
        1
    };
    for shown in outcomes.chunks(columns) {
        out.put("\n");
        put_table(out, rows, shown);
    }
    out.put("\n");
    for told in outcomes {
        put_detail(out, rows, told);
    }
}
