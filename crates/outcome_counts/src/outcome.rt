//! The outcome of a permutation.

ghost use Rattle.std.specs.Prelude.{◌≡◌, ◌≤◌, ◌∷◌, ◌++◌, [], IfOk, OnOk, length};
ghost use Rattle.iso_lexer.specs.declared.limits.TheConstants.{MOST_SESSIONS};
ghost use Rattle.spec_parser.specs.Trees.{spec_view};
ghost use Rattle.outcome_counts.specs.Outcomes.{answers_of, answers_told};

use crate::answers::push_sessions;
use session_machine::{HistItem, Outcome};
use spec_parser::Spec;
use sql_values::Row;
use std::alloc::{AllocError, Global};

/// What each step of the file answered, in its order, and the rows of each table that is there.
pub struct RunOutcome<'t> {
    pub answers: Vec<Vec<Outcome<'t>>>,
    pub tables: Vec<Option<Vec<Row>>>,
}

/// Written out, so that a crate that drops one calls this, and needn't prove anew how each of its parts is dropped.
impl<'t> Drop for RunOutcome<'t> {
    fn drop(self) {
        let RunOutcome {
            answers: _,
            tables: _,
        } = self;
    }
}

impl<'t> RunOutcome<'t> {
    /// What each step answered in a history, and no table yet.
    pub fn of(
        alloc: Global,
        spec: &Spec<'_>,
        items: &[HistItem<'t>],
    ) -> Result<RunOutcome<'t>, AllocError>
        requires { length (spec_view spec.now).sessions ≤ MOST_SESSIONS }
        ensures answers { IfOk result (λ o. answers_told o ≡ answers_of (spec_view spec.now) items.now) }
        ensures tables { IfOk result (λ o. o.tables.items ≡ []) }
    {
        let mut answers = Vec::new(alloc);
        push_sessions(alloc, &mut answers, items, &spec.sessions)?;
        Ok(RunOutcome {
            answers,
            tables: Vec::new(alloc),
        })
    }

    /// Adds the rows of a table, or that it isn't there.
    pub fn add_table(&mut self, rows: Option<Vec<Row>>) -> Result<(), AllocError>
        ensures answers { OnOk result (self.new.answers ≡ self.old.answers) }
        ensures tables { OnOk result (self.new.tables.items ≡ self.old.tables.items ++ rows ∷ []) }
    {
        self.tables.push(rows)?;
        Ok(())
    }
}
