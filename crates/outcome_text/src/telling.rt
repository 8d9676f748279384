//! What is said of each outcome.

use crate::cells::{cell_of, is_same, parts_in};
use crate::gathered::Gathered;
use crate::names::{Names, count_text, outcome_name};
use crate::naming::words_of;
use crate::plain::width_of;
use crate::text::Text;
use crate::told::{Class, Nearest, Place, Told};
use outcome_counts::{Group, RunOutcome};
use outcome_verdicts::{Judged, Outcomes, SerialOrder, Verdict, step_number};
use permutation_lists::line_of;
use spec_parser::{Entry, Spec};
use std::alloc::Global;

/// In how many parts two outcomes differ.
fn distance(a: &RunOutcome<'_>, b: &RunOutcome<'_>) -> usize {
    let mut number = 0usize;
    for part in 0..parts_in(a) {
        if !is_same(a, b, part) {
            number = number.saturating_add(1);
        }
    }
    number
}

/// The order whose outcome differs least.
fn nearest_of<'o, 't>(
    orders: &'o [SerialOrder<'t>],
    outcome: &RunOutcome<'_>,
) -> Option<&'o SerialOrder<'t>> {
    let mut nearest = None;
    let mut least = usize::MAX;
    for order in orders {
        let number = distance(&order.outcome, outcome);
        if number < least {
            least = number;
            nearest = Some(order);
        }
    }
    nearest
}

/// The rows of the table in which two outcomes differ.
fn rows_between(alloc: Global, a: &RunOutcome<'_>, b: &RunOutcome<'_>) -> Gathered<usize> {
    let mut rows = Gathered::new(alloc);
    for part in 0..parts_in(b) {
        if !is_same(a, b, part) {
            rows.add(part.saturating_add(1));
        }
    }
    rows
}

/// Adds a cell for each part of an outcome.
fn add_parts(alloc: Global, cells: &mut Gathered<String>, outcome: &RunOutcome<'_>) {
    for part in 0..parts_in(outcome) {
        cells.add_made(cell_of(alloc, outcome, part));
    }
}

/// The column of a serial order: its sessions, and the parts of its outcome.
fn column_of(alloc: Global, names: &Names, order: &SerialOrder<'_>) -> Gathered<String> {
    let mut cells = Gathered::new(alloc);
    cells.add_made(names.of_sessions(alloc, &order.sessions));
    add_parts(alloc, &mut cells, &order.outcome);
    cells
}

/// The nearest serial order of an outcome that is beside these.
fn nearest_in(
    alloc: Global,
    names: &Names,
    outcome: &RunOutcome<'_>,
    orders: &[SerialOrder<'_>],
) -> Option<Nearest> {
    match nearest_of(orders, outcome) {
        Some(order) => Some(Nearest {
            cells: column_of(alloc, names, order),
            rows: rows_between(alloc, outcome, &order.outcome),
        }),
        None => None,
    }
}

/// The column of an outcome.
fn cells_of(
    alloc: Global,
    spec: &Spec<'_>,
    names: &Names,
    number: usize,
    group: &Group<'_>,
    verdict: &Verdict,
) -> Gathered<String> {
    let mut cells = Gathered::new(alloc);
    cells.add_made(outcome_name(alloc, number));
    add_parts(alloc, &mut cells, &group.outcome);
    cells.add_made(count_text(alloc, group.count));
    cells.add_made(words_of(alloc, spec, names, verdict));
    cells
}

/// Puts bytes, without the spaces at their end, if they are text.
fn put_bytes(out: &mut Text, bytes: &[u8]) {
    if let Ok(text) = std::str::from_utf8(bytes) {
        out.put(text.trim_end());
    }
}

/// The permutation of these entries, as a line of a spec file.
fn permutation_of(alloc: Global, spec: &Spec<'_>, entries: &[Entry]) -> Text {
    let mut text = Text::new(alloc, false);
    match line_of(alloc, spec, entries) {
        Ok(line) => put_bytes(&mut text, &line),
        Err(_) => text.note(true),
    }
    text
}

/// Where the steps of these entries stand.
fn places_of(alloc: Global, spec: &Spec<'_>, entries: &[Entry]) -> Gathered<Place> {
    let mut places = Gathered::new(alloc);
    for entry in entries {
        places.add(Place {
            session: entry.session as usize,
            row: step_number(spec, entry.session, entry.step).saturating_add(1),
        });
    }
    places
}

/// Whether the outcome is that of a serial order; and of one that isn't the nearest.
fn class_of(alloc: Global, names: &Names, outcome: &RunOutcome<'_>, judged: &Judged<'_>) -> Class {
    match &judged.verdict {
        Verdict::Serial(_) | Verdict::RestSerial { .. } => Class::Serial,
        Verdict::NotSerial => Class::NotSerial(nearest_in(alloc, names, outcome, &judged.orders)),
        Verdict::Untold { .. } => Class::Untold,
    }
}

/// What is said of the outcome of this number.
fn told_of(
    alloc: Global,
    spec: &Spec<'_>,
    names: &Names,
    number: usize,
    group: &Group<'_>,
    judged: &Judged<'_>,
) -> Told {
    let cells = cells_of(alloc, spec, names, number, group, &judged.verdict);
    Told {
        class: class_of(alloc, names, &group.outcome, judged),
        width: width_of(cells.all()),
        cells,
        permutation: permutation_of(alloc, spec, &group.nearest),
        steps: places_of(alloc, spec, &group.nearest),
    }
}

/// What is said of all outcomes.
pub fn told_all(
    alloc: Global,
    spec: &Spec<'_>,
    names: &Names,
    outcomes: &Outcomes<'_>,
) -> Gathered<Told> {
    let mut all = Gathered::new(alloc);
    for (number, group) in outcomes.counted.groups.iter().enumerate() {
        if let Some(judged) = outcomes.judged.get(number) {
            all.add(told_of(alloc, spec, names, number, group, judged));
        }
    }
    all
}
