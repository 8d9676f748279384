//! The waits of the present state.

ghost use Rattle.std.specs.Prelude.{◌≡◌, ◌||◌, ◌&&◌, true, IfOk, OnErr, OnOk};
ghost use Rattle.row_versions.specs.declared.names.TxId.{TxId as TxFacts};
ghost use Rattle.row_locks.specs.Laws.{SamePairs};
ghost use Rattle.row_locks.specs.Cycles.{blocks};
ghost use Rattle.session_machine.specs.Waits.{blockers, is_blocked, waiting_in, waits_in};
ghost use Rattle.row_versions.specs.Members.{has, same_tx};
ghost use Rattle.session_database.specs.Inner.Waits.{stands_in_way_of};
ghost use Rattle.update_recheck.specs.Settling.{SameMembers};

use crate::database::Database;
use crate::work::{Surroundings, Work};
use row_locks::Waits;
use row_versions::{RowId, TxId, Versions};
use session_machine::{Request, Session, Transaction};
use smallvec::SmallVec;
use sql_trees::{Policy, Strength};
use std::alloc::AllocError;

/// Whether the transaction is one of these.
fn is_among(found: &[TxId], tx: TxId) -> bool
    ensures { result ≡ has found.now tx }
{
    found.iter().any(|other| other.0 == tx.0)
}

impl<'a, 't, V: Versions> Database<'a, 't, V> {
    /// Those who stand in the way of what the transaction asks for.
    pub fn blockers(&self, request: &Request, tx: TxId) -> Result<SmallVec<TxId, 4>, AllocError>
        ensures { IfOk result (λ found. SameMembers found.items (blockers self.now request.now tx)) }
    {
        match request {
            Request::Row { row, strength } => {
                let found = self.locks.against(*row, tx, *strength)?;
                Ok(found)
            }
            Request::Key(asked) => self.holders(asked, tx),
        }
    }

    /// Whether that transaction is one of those who stand in the way of what this one asks for.
    pub fn is_blocked_by(
        &self,
        holder: TxId,
        request: &Request,
        tx: TxId,
    ) -> Result<bool, AllocError>
        ensures { IfOk result (λ yes. yes ≡ has (blockers self.now request.now tx) holder) }
    {
        match request {
            Request::Row { row, strength } => {
                Ok(self.locks.is_held_by(holder, *row, tx, *strength))
            }
            Request::Key(asked) => {
                let found = self.holders(asked, tx)?;
                Ok(is_among(&found, holder))
            }
        }
    }

    /// The transaction waits for who holds what it asks for.
    fn add_request(&self, waits: &mut Waits, tx: TxId, request: &Request) -> Result<(), AllocError>
        ensures { (a b : TxFacts) → OnOk result (blocks waits.new a b ≡ (blocks waits.old a b || (same_tx tx a && has (blockers self.now request.now tx) b))) }
    {
        let found = self.blockers(request, tx)?;
        waits.add(tx, found)
    }

    /// The session's wait, if it waits, is one more.
    fn add_wait(&self, waits: &mut Waits, session: &Session) -> Result<(), AllocError>
        ensures { (a b : TxFacts) → OnOk result (blocks waits.new a b ≡ (blocks waits.old a b || stands_in_way_of (waiting_in self.now session.now) a b)) }
    {
        match (&session.transaction, &session.statement) {
            (Transaction::Open(by), Some(paused)) => {
                self.add_request(waits, by.tx, &paused.progress().wait.request)
            }
            _ => Ok(()),
        }
    }

    /// All that wait, each with those that stand in its way now.
    pub fn waits_now(&self, around: &Surroundings<'_>) -> Result<Waits, AllocError>
        ensures { IfOk result (λ waits. SamePairs waits (waits_in self.now around.now.sessions)) }
    {
        let mut waits = Waits::new(self.alloc);
        for session in around.sessions {
            self.add_wait(&mut waits, session)?;
        }
        Ok(waits)
    }
    /// The waits that bear on a row which a statement wants this strongly: all that stand, where others hold it in conflict and the statement waits for them. Else they
    /// don't matter, and none are told.
    pub fn waits_at(
        &self,
        work: &Work<'_>,
        row: RowId,
        strength: Strength,
        policy: Policy,
    ) -> Result<Waits, AllocError>
        ensures told { IfOk result (λ waits. is_blocked self.now (Request.Row row strength) work.now.t.tx ≡ true → policy ≡ Policy.Wait
            → SamePairs waits (waits_in self.now work.now.around.sessions)) }
        ensures memory { OnErr result (is_blocked self.now (Request.Row row strength) work.now.t.tx ≡ true) }
        ensures only_to_wait { OnErr result (policy ≡ Policy.Wait) }
    {
        match policy {
            Policy::Wait if self.locks.is_blocked(row, work.by.tx, strength) => {
                self.waits_now(work.around)
            }
            _ => Ok(Waits::new(self.alloc)),
        }
    }
}
