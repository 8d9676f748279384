//! A statement at work, and what it finds around it.

use row_versions::View;
use session_machine::{OpenTransaction, Session};
use std::marker::Model;

/// What a statement finds around it: the sessions, of which others may wait, and the number of a wait that begins now.
#[derive(Drop)]
pub struct Surroundings<'s> {
    pub sessions: &'s [Session],
    pub number: u64,
}

impl<'s> Model for Surroundings<'s> {
    ghost use Rattle.session_machine.specs.Statements.{Surroundings as SurroundingsFacts};

    ghost Value = { SurroundingsFacts };

    ghost view = { λ a. record { sessions = a.sessions.now; number = a.number } };
}

/// A statement at work: in this transaction, at the table of this place, with this view, and what it finds around it.
#[derive(Drop)]
pub struct Work<'w> {
    pub by: OpenTransaction,
    pub place: usize,
    pub view: View,
    pub around: &'w Surroundings<'w>,
}

impl<'w> Model for Work<'w> {
    ghost use Rattle.session_machine.specs.Rows.{Work as WorkFacts};

    ghost Value = { WorkFacts };

    ghost view = { λ w. record { t = w.by; table = w.place; view = w.view; around = w.around.now } };
}
