//! A session's statement begins, or goes on where it waits.
ghost use Rattle.std.specs.Prelude.{◌≡◌, ◌+◌, ◌<◌, ◌^◌, ℕ, true, false, IfOk, IfErr, IfSome, OnErr, OnOk, Some, None, Ok, Err, is_none, is_some, length, slice_get, slice_set};
ghost use Rattle.sql_blocks.specs.Blocks.{blocks_of};
ghost use Rattle.row_versions.specs.Log.{IsOpen};
ghost use Rattle.sql_trees.specs.Statements.{stmt_of};
ghost use Rattle.session_machine.specs.declared.session.OpenTransaction.{OpenTransaction};
ghost use Rattle.session_machine.specs.declared.session.Session.{Session as SessionFacts};
ghost use Rattle.session_machine.specs.Running.{run_stmt};
ghost use Rattle.session_machine.specs.Sound.{IsSoundMachine};
ghost use Rattle.session_core.specs.Inner.Answers.{engine_answer};
ghost use Rattle.session_core.specs.Inner.Blocking.{AreBlockers};
ghost use Rattle.session_core.specs.Inner.Kept.{AllKept, KeepsOn, KeptAt};
ghost use Rattle.session_machine.specs.Machine.{Machine, after_stmt, closed_at_end, is_failed, next, with_session};
ghost use Rattle.session_machine.specs.Inner.Steps.{after_block_end, finished, around};
ghost use Rattle.session_machine.specs.Waits.{is_still_blocked};
ghost use Rattle.session_machine.specs.Engine.{Goes};
ghost use Rattle.wait_laws.specs.Laws.{Reaches, stmt_at};

use crate::block_stmts::{StmtAt, stmt_at};
use crate::blockers::AllBlockers;
use crate::kept::Kept;
use crate::live::Live;
use row_versions::Versions;
use session_database::{Database, Surroundings};
use session_laws::laws::stays_sound;
use session_machine::{Event, Mode, Outcome, Place, Refusal, Reply, Session, Transaction};
use session_statements::{Effect, run_statement};
use sql_blocks::Block;
use std::alloc::AllocError;

/// The statement of a session's next step, and its place.
#[derive(Clone, Copy)]
struct Due<'a, 't> {
    place: Place,
    at: StmtAt<'a, 't>,
}

/// Where a session goes after a statement, and what is left of its transaction.
#[derive(Drop)]
struct Standing {
    place: Option<Place>,
    transaction: Transaction,
}

fn has_failed(outcome: &Outcome<'_>) -> bool
    ensures { result ≡ is_failed outcome.now }
{
    matches!(outcome, Outcome::Failed(_))
}

/// The transaction that is left once its block has ended: an implicit one is committed.
fn end_block<'a, 't, V: Versions>(
    db: &mut Database<'a, 't, V>,
    transaction: Transaction,
) -> Transaction
    requires { (t : OpenTransaction) → transaction ≡ Transaction.Open t → IsOpen db.old.content t.tx }
    ensures { (outcome : Outcome) →
        closed_at_end (record { db = db.old; transaction = transaction; statement = None; outcome = outcome }) transaction
        ≡ record { db = db.new; transaction = result; statement = None; outcome = outcome } }
{
    match transaction {
        Transaction::Open(by) if !by.explicit => {
            db.commit(by.tx);
            Transaction::Closed
        }
        other => other,
    }
}

/// Where a session goes after a statement that is over, and what is left of its transaction.
fn after_end<'a, 't, V: Versions>(
    db: &mut Database<'a, 't, V>,
    place: Place,
    count: usize,
    transaction: Transaction,
    outcome: &Outcome<'_>,
) -> Standing
    requires opened { (t : OpenTransaction) → transaction ≡ Transaction.Open t → IsOpen db.old.content t.tx }
    requires within { place.next < count }
    requires fits { count < 2 ^ 64 }
    ensures { (m : Machine) (session : ℕ) →
        after_block_end m session place count (record { db = db.old; transaction = transaction; statement = None; outcome = outcome.now })
        ≡ finished m session (record { db = db.new; transaction = result.transaction; statement = None; outcome = outcome.now }) result.place }
{
    if has_failed(outcome) {
        return Standing {
            place: None,
            transaction,
        };
    }
    if place.next + 1 < count {
        let next = Place {
            block: place.block,
            next: place.next + 1,
        };
        return Standing {
            place: Some(next),
            transaction,
        };
    }
    Standing {
        place: None,
        transaction: end_block(db, transaction),
    }
}

impl<'a, 't, V: Versions> Live<'a, 't, V> {
    /// The statement of the session's next step, or why it may not take it.
    fn due(
        &self,
        blockers: &AllBlockers,
        blocks: &'a [Block<'t>],
        mode: Mode,
        session: u32,
    ) -> Result<Due<'a, 't>, Refusal>
        requires blockers { AreBlockers self.now blockers.now }
        ensures within { IfOk result (λ d. d.place.next < d.at.count) }
        ensures fits { IfOk result (λ d. d.at.count < 2 ^ 64) }
        ensures tree { IfOk result (λ d. stmt_at (blocks_of blocks.now) (Some d.place) ≡ Some (stmt_of d.at.stmt.now)) }
        ensures ok { IfOk result (λ d. (s : SessionFacts) × (slice_get self.now.sessions session ≡ Some s) × (s.place ≡ Some d.place)
            × (is_still_blocked self.now.db s ≡ false)
            × (next (blocks_of blocks.now) mode self.now (Event.Step session)
            ≡ Ok (after_stmt self.now session d.place d.at.count (run_stmt self.now.db s.transaction s.statement (around self.now session s) (stmt_of d.at.stmt.now))))) }
        ensures refused { IfErr result (λ refusal. next (blocks_of blocks.now) mode self.now (Event.Step session) ≡ Err refusal) }
    {
        let Some(current) = self.session_at(session) else {
            return Err(Refusal::NoSession);
        };
        let Some(place) = current.place else {
            return Err(Refusal::Idle);
        };
        let Some(at) = stmt_at(blocks, &place) else {
            return Err(Refusal::Idle);
        };
        if self.must_wait_for_turn(blockers, mode, session as usize) {
            return Err(Refusal::NotYourTurn);
        }
        if self.is_still_blocked(blockers, session as usize) {
            return Err(Refusal::StillBlocked);
        }
        Ok(Due { place, at })
    }

    /// The session, out of which the statement that it is in the middle of is taken, if there is one.
    fn take_session(&mut self, session: u32) -> Session
        requires { session < length self.old.sessions }
        ensures was { slice_get self.old.sessions session ≡ Some result }
        ensures taken { self.new ≡ record self.old { sessions = slice_set self.old.sessions session (record result { statement = None }) } }
    {
        let current = &mut self.sessions[session as usize];
        Session {
            place: current.place,
            transaction: current.transaction,
            statement: current.statement.take(),
        }
    }

    /// The session stays at its statement, whose targets it keeps, or goes on behind it.
    fn go_on(
        &mut self,
        kept: &mut Kept,
        session: u32,
        place: Place,
        count: usize,
        did: Effect<'t>,
    ) -> Reply<'t>
        requires there { session < length self.old.sessions }
        requires room { self.old.events + 1 < 2 ^ 64 }
        requires opened { (t : OpenTransaction) → did.transaction ≡ Transaction.Open t → IsOpen self.old.db.content t.tx }
        requires within { place.next < count }
        requires fits { count < 2 ^ 64 }
        requires lists { session < length kept.old }
        ensures after { after_stmt self.old session place count
            (record { db = self.old.db; transaction = did.entry.transaction; statement = did.entry.statement; outcome = did.entry.outcome })
            ≡ record { machine = self.new; reply = result } }
        ensures stays { is_some did.entry.statement ≡ true → kept.new ≡ slice_set kept.old session did.entry.targets }
        ensures over { is_some did.entry.statement ≡ false → kept.new ≡ kept.old }
    {
        if did.statement.is_some() {
            kept.put(session, did.targets);
            self.set_session(
                session,
                Session {
                    place: Some(place),
                    transaction: did.transaction,
                    statement: did.statement,
                },
            );
            return Reply {
                outcome: did.outcome,
                ended: false,
            };
        }
        let after = after_end(&mut self.db, place, count, did.transaction, &did.outcome);
        let ended = after.place.is_none();
        self.set_session(
            session,
            Session {
                place: after.place,
                transaction: after.transaction,
                statement: None,
            },
        );
        Reply {
            outcome: did.outcome,
            ended,
        }
    }

    /// Runs the session's statement from its place on, over the targets that it has kept, if it waits.
    fn run(
        &mut self,
        kept: &mut Kept,
        session: u32,
        due: Due<'a, 't>,
    ) -> Result<Reply<'t>, AllocError>
        requires sound { IsSoundMachine self.old }
        requires room { self.old.events + 1 < 2 ^ 64 }
        requires current { (s : SessionFacts) × (slice_get self.old.sessions session ≡ Some s) × (s.place ≡ Some due.place) × (is_still_blocked self.old.db s ≡ false) }
        requires within { due.place.next < due.at.count }
        requires fits { due.at.count < 2 ^ 64 }
        requires long { length kept.old ≡ length self.old.sessions }
        requires kept { KeptAt self.old session (stmt_of due.at.stmt.now) kept.old }
        ensures reply { IfOk result (λ reply. IfSome (slice_get self.old.sessions session) (λ s.
            after_stmt self.old session due.entry.place due.entry.at.count
            (run_stmt self.old.db s.transaction s.statement (around self.old session s) (stmt_of due.entry.at.stmt.now))
            ≡ record { machine = self.new; reply = reply })) }
        ensures kept { OnOk result (KeepsOn self.old.db (stmt_of due.entry.at.stmt.now) session self.new kept.old kept.new) }
    {
        stays_sound();
        let targets = kept.take(session);
        let taken = self.take_session(session);
        let transaction = taken.transaction;
        let statement = taken.statement;
        let around = Surroundings {
            sessions: &self.sessions,
            number: self.events,
        };
        let did = run_statement(
            &mut self.db,
            &transaction,
            statement,
            targets,
            &around,
            due.at.stmt,
        )?;
        Ok(self.go_on(kept, session, due.place, due.at.count, did))
    }

    /// Begins the session's next statement, or goes on with the one that waits, or says why not.
    pub fn step(
        &mut self,
        kept: &mut Kept,
        blockers: &AllBlockers,
        blocks: &'a [Block<'t>],
        mode: Mode,
        session: u32,
    ) -> Result<Result<Reply<'t>, Refusal>, AllocError>
        requires sound { IsSoundMachine self.old }
        requires room { self.old.events + 1 < 2 ^ 64 }
        requires kept { AllKept (blocks_of blocks.now) self.old kept.old }
        requires blockers { AreBlockers self.old blockers.now }
        ensures answer { IfOk result (λ answer. engine_answer self.old (next (blocks_of blocks.now) mode self.old (Event.Step session)) ≡ record { machine = self.new; answer = answer }) }
        ensures kept { (count : ℕ) → Reaches (blocks_of blocks.now) mode count self.old → OnOk result (AllKept (blocks_of blocks.now) self.new kept.new) }
        ensures due { OnErr result (Goes (blocks_of blocks.now) mode self.old (Event.Step session)) }
    {
        match self.due(blockers, blocks, mode, session) {
            Ok(due) => Ok(Ok(self.run(kept, session, due)?)),
            Err(refusal) => Ok(Err(refusal)),
        }
    }
}
