//! A session leaves.
ghost use Rattle.std.specs.Prelude.{◌≡◌, ◌<◌, ◌+◌, ◌^◌, true, IfOk, IfErr, None, Ok, Err, length, slice_get, slice_set};
ghost use Rattle.row_versions.specs.Log.{IsOpen};
ghost use Rattle.session_machine.specs.declared.session.OpenTransaction.{OpenTransaction};
ghost use Rattle.session_machine.specs.Machine.{at_rest, with_session};
ghost use Rattle.session_machine.specs.Inner.Steps.{leave_of, left_behind};
ghost use Rattle.session_core.specs.Inner.Answers.{engine_answer};
ghost use Rattle.session_core.specs.Inner.Blocking.{AreBlockers};
ghost use Rattle.session_machine.specs.Sound.{IsSoundMachine};

use crate::blockers::AllBlockers;
use crate::kept::Kept;
use crate::live::Live;
use row_versions::Versions;
use session_database::Database;
use session_machine::{Mode, Outcome, Refusal, Reply, Session, Transaction};

/// Rolls an open transaction back, which lets go of its locks.
fn undo<'a, 't, V: Versions>(db: &mut Database<'a, 't, V>, transaction: Transaction)
    requires { (t : OpenTransaction) → transaction ≡ Transaction.Open t → IsOpen db.old.content t.tx }
    ensures { db.new ≡ left_behind db.old transaction }
{
    if let Transaction::Open(by) = transaction {
        db.roll_back(by.tx);
    }
}

impl<'a, 't, V: Versions> Live<'a, 't, V> {
    /// The transaction of the session that leaves, or why it may not leave.
    #[tactic(auto, using(crate::proofs::Stepping::opened_at))]
    fn leaving(
        &self,
        blockers: &AllBlockers,
        mode: Mode,
        session: u32,
    ) -> Result<Transaction, Refusal>
        requires sound { IsSoundMachine self.now }
        requires blockers { AreBlockers self.now blockers.now }
        ensures within { IfOk result (λ _. session < length self.now.sessions) }
        ensures opened { (t : OpenTransaction) → IfOk result (λ transaction. transaction ≡ Transaction.Open t → IsOpen self.now.db.content t.tx) }
        ensures ok { IfOk result (λ transaction. leave_of mode self.now session (slice_get self.now.sessions session)
            ≡ Ok (record { machine = with_session self.now (left_behind self.now.db transaction) session at_rest; reply = record { outcome = Outcome.Left; ended = true } })) }
        ensures refused { IfErr result (λ refusal. leave_of mode self.now session (slice_get self.now.sessions session) ≡ Err refusal) }
    {
        let Some(current) = self.session_at(session) else {
            return Err(Refusal::NoSession);
        };
        if self.must_wait_for_rest(blockers, mode) {
            return Err(Refusal::NotYourTurn);
        }
        Ok(current.transaction)
    }

    /// Rolls a session's open transaction back and drops its block, with what it has kept, or says why not.
    pub fn leave(
        &mut self,
        kept: &mut Kept,
        blockers: &AllBlockers,
        mode: Mode,
        session: u32,
    ) -> Result<Reply<'t>, Refusal>
        requires sound { IsSoundMachine self.old }
        requires room { self.old.events + 1 < 2 ^ 64 }
        requires blockers { AreBlockers self.old blockers.now }
        requires lists { length kept.old ≡ length self.old.sessions }
        ensures answer { engine_answer self.old (leave_of mode self.old session (slice_get self.old.sessions session)) ≡ record { machine = self.new; answer = result } }
        ensures dropped { IfOk result (λ _. kept.new ≡ slice_set kept.old session None) }
        ensures refused { IfErr result (λ _. kept.new ≡ kept.old) }
    {
        match self.leaving(blockers, mode, session) {
            Ok(transaction) => {
                undo(&mut self.db, transaction);
                kept.put(session, None);
                self.set_session(session, Session::at_rest());
                Ok(Reply {
                    outcome: Outcome::Left,
                    ended: true,
                })
            }
            Err(refusal) => Err(refusal),
        }
    }
}
