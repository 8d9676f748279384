//! Names of sessions, steps and outcomes, and verdicts in a few words.

use crate::gathered::Gathered;
use crate::text::Text;
use crate::told::text_in;
use std::alloc::{AllocError, Global};

/// So many outcomes have a letter for a name, and the others a number.
const LETTERS: usize = 26;

/// The name of the outcome of this number.
pub fn outcome_name(alloc: Global, number: usize) -> Result<String, AllocError> {
    let mut name = Text::new(alloc, false);
    if number < LETTERS {
        name.put_char(char::from(b'A' + number as u8));
    } else {
        name.put_count((number as u64).saturating_add(1));
    }
    name.end()
}

pub fn count_text(alloc: Global, count: u64) -> Result<String, AllocError> {
    let mut text = Text::new(alloc, false);
    text.put_count(count);
    text.end()
}

/// The names of the sessions, the head of each row of the table, and the SQL of each step.
#[derive(Drop)]
pub struct Names {
    pub sessions: Gathered<String>,
    /// Nothing, the names of all steps in the order of the file and of the tables, and two words.
    pub rows: Gathered<String>,
    pub sqls: Gathered<String>,
}

impl Names {
    /// Whether memory was refused for one of them.
    pub fn is_refused(&self) -> bool {
        self.sessions.is_refused() || self.rows.is_refused() || self.sqls.is_refused()
    }

    /// Puts the names of sessions, which are numbered from 1, with commas between.
    fn put_sessions(&self, out: &mut Text, sessions: &[u32]) {
        for (at, session) in sessions.iter().enumerate() {
            if at > 0 {
                out.put(", ");
            }
            out.put(text_in(&self.sessions, (*session as usize).saturating_sub(1)));
        }
    }

    /// The names of sessions.
    pub fn of_sessions(&self, alloc: Global, sessions: &[u32]) -> Result<String, AllocError> {
        let mut text = Text::new(alloc, false);
        self.put_sessions(&mut text, sessions);
        text.end()
    }

    /// Puts that the transactions of these sessions fail, and in which order the others have the outcome.
    pub fn put_rest(&self, out: &mut Text, failed: &[u32], rest: &[u32]) {
        self.put_sessions(out, failed);
        out.put(if failed.len() == 1 {
            " fails, "
        } else {
            " fail, "
        });
        out.put(if rest.is_empty() {
            "nothing else"
        } else {
            "the rest as "
        });
        self.put_sessions(out, rest);
    }

    /// Puts which serial order has the outcome.
    pub fn put_order(&self, out: &mut Text, order: &[u32]) {
        out.put("as ");
        self.put_sessions(out, order);
    }

    /// Puts that the step of this number goes on behind the end of a transaction.
    pub fn put_untold(&self, out: &mut Text, step: usize) {
        out.fill(
            "untold: {} goes on behind the end of a transaction",
            &[text_in(&self.rows, step.saturating_add(1))],
        );
    }
}
