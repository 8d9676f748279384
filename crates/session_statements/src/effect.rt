//! What a statement leaves.

ghost use Rattle.std.specs.Prelude.{◌≡◌, None};

use row_versions::Seen;
use session_machine::{Outcome, Paused, Transaction};

/// What a statement leaves of its session's transaction, where it is in the middle of its targets, and what came of it.
#[derive(Drop)]
pub struct Effect<'t> {
    pub transaction: Transaction,
    pub statement: Option<Paused>,
    /// All targets of the statement that it is in the middle of.
    pub targets: Option<Vec<Seen>>,
    pub outcome: Outcome<'t>,
}

impl<'t> Effect<'t> {
    /// The statement is over.
    pub(crate) fn of(transaction: Transaction, outcome: Outcome<'t>) -> Effect<'t>
        ensures { result ≡ record { transaction = transaction; statement = None; targets = None; outcome = outcome.entry } }
    {
        Effect {
            transaction,
            statement: None,
            targets: None,
            outcome,
        }
    }

    /// The statement is over, and has no result.
    pub(crate) fn turned(transaction: Transaction) -> Effect<'t>
        ensures { result ≡ record { transaction = transaction; statement = None; targets = None; outcome = Outcome.Done } }
    {
        Effect::of(transaction, Outcome::Done)
    }
}
