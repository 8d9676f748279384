//! What is said of an outcome, as plain text.

use crate::gathered::Gathered;
use crate::text::Text;

/// The serial order whose outcome differs least from one that no serial order has: its column of the table, as far as the parts go, with
/// its sessions at the head; and the rows in which the outcome differs.
#[derive(Drop)]
pub struct Nearest {
    pub cells: Gathered<String>,
    pub rows: Gathered<usize>,
}

/// A step of a permutation, by the number of its session, from 1, and by its row of the table.
#[derive(Drop)]
pub struct Place {
    pub session: usize,
    pub row: usize,
}

/// Whether an outcome is that of a serial order; beside one that isn't the nearest one, if an order is serial.
#[derive(Drop)]
pub enum Class {
    Serial,
    NotSerial(Option<Nearest>),
    Untold,
}

/// What is said of an outcome.
#[derive(Drop)]
pub struct Told {
    pub class: Class,
    /// Its column of the table: its name; its parts, a line for each row or failure; how many permutations have it; its verdict.
    pub cells: Gathered<String>,
    /// How wide the column is.
    pub width: usize,
    pub permutation: Text,
    pub steps: Gathered<Place>,
}

/// The text in this row of a column; none where it has fewer.
pub fn text_in(column: &Gathered<String>, row: usize) -> &str {
    match column.all().get(row) {
        Some(text) => text.as_str(),
        None => "",
    }
}

impl Nearest {
    fn is_refused(&self) -> bool {
        self.cells.is_refused() || self.rows.is_refused()
    }
}

impl Told {
    pub fn name(&self) -> &str {
        text_in(&self.cells, 0)
    }

    pub fn verdict(&self) -> &str {
        match self.cells.all().last() {
            Some(text) => text.as_str(),
            None => "",
        }
    }

    /// The nearest serial order, where there is one to be shown.
    pub fn nearest(&self) -> Option<&Nearest> {
        match &self.class {
            Class::NotSerial(Some(nearest)) => Some(nearest),
            _ => None,
        }
    }

    /// Whether memory was refused for a part of it.
    pub fn is_refused(&self) -> bool {
        if self.cells.is_refused() || self.permutation.is_refused() || self.steps.is_refused() {
            return true;
        }
        match self.nearest() {
            Some(nearest) => nearest.is_refused(),
            None => false,
        }
    }
}

/// Whether a row is shown of these outcomes: that of a step only where it answered something in one of them.
pub fn is_shown(outcomes: &[Told], row: usize) -> bool {
    for told in outcomes {
        if !text_in(&told.cells, row).is_empty() {
            return true;
        }
    }
    false
}
