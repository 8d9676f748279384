//! Who stands in the way of waits is kept with them, and mended by what an event did.
ghost use Rattle.std.specs.Prelude.{◌≡◌, ◌<◌, IfOk, IfSome, OnOk, length, slice_get};
ghost use Rattle.update_recheck.specs.Settling.{SameMembers};
ghost use Rattle.session_core.specs.Engines.{in_the_way};
ghost use Rattle.session_core.specs.Inner.Blocking.{AreMended, IsChanged, blockers_kept, doer_between, is_in_the_way, mended};

use crate::blockers::{AllBlockers, Blockers};
use crate::live::Live;
use row_versions::{TxId, Versions};
use session_machine::{Session, Transaction};
use smallvec::SmallVec;
use std::alloc::AllocError;

/// What became of the transaction that did an event.
#[derive(Clone, Copy)]
pub enum Doer {
    /// It goes on, and may stand in the way of more.
    GoesOn(TxId),
    /// It is over, and stands in nobody's way any more.
    Ends(TxId),
    /// There was none that stood in anybody's way, and there is none now.
    Nobody,
}

impl Doer {
    /// What became of a session's transaction.
    pub fn of(before: &Transaction, after: &Transaction) -> Doer
        ensures { result ≡ doer_between before.now after.now }
    {
        match (before, after) {
            (_, Transaction::Open(by)) => Doer::GoesOn(by.tx),
            (Transaction::Open(by), _) => Doer::Ends(by.tx),
            _ => Doer::Nobody,
        }
    }
}

impl<'a, 't, V: Versions> Live<'a, 't, V> {
    /// Those who stand in the way of what the session waits for: nobody, where it doesn't wait.
    fn in_the_way(&self, session: &Session) -> Result<Blockers, AllocError>
        ensures { IfOk result (λ found. SameMembers found (in_the_way self.now.db session.now)) }
    {
        match (&session.transaction, &session.statement) {
            (Transaction::Open(by), Some(paused)) => {
                let found = self.db.blockers(&paused.progress().wait.request, by.tx)?;
                Ok(Blockers::of(found))
            }
            _ => Ok(Blockers::of(SmallVec::new(self.db.alloc()))),
        }
    }

    /// Whether the transaction stands in the way of what the session waits for.
    fn is_in_the_way(&self, holder: TxId, session: &Session) -> Result<bool, AllocError>
        ensures { IfOk result (λ yes. yes ≡ is_in_the_way self.now.db session.now holder) }
    {
        match (&session.transaction, &session.statement) {
            (Transaction::Open(by), Some(paused)) => {
                let request = &paused.progress().wait.request;
                self.db.is_blocked_by(holder, request, by.tx)
            }
            _ => Ok(false),
        }
    }

    /// Of another session that one is added who did the event and stands in its way now, or struck who is over.
    fn mend_at(
        &self,
        blockers: &mut AllBlockers,
        session: usize,
        doer: Doer,
    ) -> Result<(), AllocError>
        requires within { session < length self.now.sessions }
        requires long { length blockers.old ≡ length self.now.sessions }
        ensures { OnOk result (IfSome (slice_get self.now.sessions session) (λ s.
            IsChanged blockers.old session (mended self.now.db s doer (blockers_kept blockers.old session)) blockers.new)) }
    {
        match doer {
            Doer::GoesOn(tx) => {
                if self.is_in_the_way(tx, &self.sessions[session])? {
                    blockers.add(session, tx)?;
                }
            }
            Doer::Ends(tx) => blockers.strike(session, tx),
            Doer::Nobody => {}
        }
        Ok(())
    }

    /// An event was done by the session: those who stand in its own way are found anew, and of the others no more changes than who did it.
    pub fn mend(
        &self,
        blockers: &mut AllBlockers,
        session: usize,
        doer: Doer,
    ) -> Result<(), AllocError>
        requires within { session < length self.now.sessions }
        requires long { length blockers.old ≡ length self.now.sessions }
        ensures { OnOk result (AreMended self.now doer session blockers.old blockers.new) }
    {
        for k in 0..self.sessions.len() {
            if k != session {
                self.mend_at(blockers, k, doer)?;
            }
        }
        let found = self.in_the_way(&self.sessions[session])?;
        blockers.set(session, found);
        Ok(())
    }
}
