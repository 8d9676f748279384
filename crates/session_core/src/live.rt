//! The machine over a store.
ghost use Rattle.std.specs.Prelude.{◌≡◌, ◌+◌, ◌<◌, ◌≤◌, ◌^◌, ℕ, List, IfOk, IfErr, IfSome, OnErr, OnOk, Ok, Err, Some, option_map, length, slice_get};
ghost use Rattle.std.specs.Global.{Vec as VecFacts};
ghost use Rattle.iso_lexer.specs.declared.limits.TheConstants.{MOST_SESSIONS};
ghost use Rattle.sql_blocks.specs.Blocks.{blocks_of};
ghost use Rattle.sql_values.specs.declared.value.Value.{Value as SqlValue};
ghost use Rattle.row_versions.specs.Log.{empty_content};
ghost use Rattle.session_machine.specs.Sound.{IsSoundMachine};
ghost use Rattle.session_machine.specs.Machine.{next, opening, session_of, visible, with_session};
ghost use Rattle.session_core.specs.Inner.Answers.{engine_answer};
ghost use Rattle.session_core.specs.Inner.Blocking.{AreBlockers};
ghost use Rattle.session_core.specs.Inner.Kept.{AllKept};
ghost use Rattle.session_machine.specs.Engine.{Goes};
ghost use Rattle.wait_laws.specs.Laws.{Reaches};

use crate::blockers::AllBlockers;
use crate::kept::Kept;
use crate::mending::Doer;
use iso_lexer::Name;
use row_versions::Versions;
use session_database::Database;
use session_machine::{Event, Mode, Refusal, Reply, Session, Transaction};
use sql_blocks::Block;
use sql_values::Row;
use std::alloc::{AllocError, Global};
use std::marker::Model;

/// The sessions over a store, and how many events there were, which contracts see as the machine.
#[derive(Drop)]
pub struct Live<'a, 't, V: Versions> {
    pub(crate) db: Database<'a, 't, V>,
    pub(crate) sessions: Vec<Session>,
    pub(crate) events: u64,
}

impl<'a, 't, V: Versions> Model for Live<'a, 't, V> {
    ghost use Rattle.session_machine.specs.Machine.{Machine};

    ghost Value = { Machine };

    ghost view = { λ e. record { db = e.db; sessions = e.sessions.items; events = e.events } };
}

/// The session that an event is of.
fn session_of(event: Event) -> u32
    ensures { result ≡ session_of event }
{
    match event {
        Event::Launch { session, block: _ } => session,
        Event::Step { session } => session,
        Event::Leave { session } => session,
    }
}

impl<'a, 't, V: Versions> Live<'a, 't, V> {
    /// A machine in which nothing has happened.
    pub fn new(alloc: Global, count: u32, store: V) -> Result<Self, AllocError>
        requires few { count ≤ MOST_SESSIONS }
        requires empty { V.content store ≡ empty_content }
        ensures { IfOk result (λ m. m ≡ opening count) }
    {
        let mut sessions = Vec::new(alloc);
        for _ in 0..count + 1 {
            sessions.push(Session::at_rest())?;
        }
        Ok(Live {
            db: Database::new(alloc, store),
            sessions,
            events: 0,
        })
    }

    /// Has the session of that number go on as this one, which ends an event.
    pub fn set_session(&mut self, session: u32, after: Session)
        requires within { session < length self.old.sessions }
        requires room { self.old.events + 1 < 2 ^ 64 }
        ensures { self.new ≡ with_session self.old self.old.db session after }
    {
        self.sessions[session as usize] = after;
        self.events += 1;
    }

    /// Does an event, and has the sessions that wait keep their targets.
    fn did(
        &mut self,
        kept: &mut Kept,
        blockers: &AllBlockers,
        blocks: &'a [Block<'t>],
        mode: Mode,
        event: Event,
    ) -> Result<Result<Reply<'t>, Refusal>, AllocError>
        requires sound { IsSoundMachine self.old }
        requires room { self.old.events + 1 < 2 ^ 64 }
        requires kept { AllKept (blocks_of blocks.now) self.old kept.old }
        requires blockers { AreBlockers self.old blockers.now }
        ensures answer { IfOk result (λ answer. engine_answer self.old (next (blocks_of blocks.now) mode self.old event) ≡ record { machine = self.new; answer = answer }) }
        ensures kept { (count : ℕ) → Reaches (blocks_of blocks.now) mode count self.old → OnOk result (AllKept (blocks_of blocks.now) self.new kept.new) }
        ensures due { OnErr result (Goes (blocks_of blocks.now) mode self.old event) }
    {
        match event {
            Event::Launch { session, block } => {
                Ok(self.launch(blockers, blocks, mode, session, block))
            }
            Event::Step { session } => self.step(kept, blockers, blocks, mode, session),
            Event::Leave { session } => Ok(self.leave(kept, blockers, mode, session)),
        }
    }

    /// The session's transaction, if there is such a session.
    fn transaction_of(&self, session: u32) -> Transaction
        ensures { IfSome (slice_get self.now.sessions session) (λ s. result ≡ s.transaction) }
    {
        match self.session_at(session) {
            Some(current) => current.transaction,
            None => Transaction::Closed,
        }
    }

    /// Does an event, has the sessions that wait keep their targets, and mends those who stand in their way.
    pub fn act(
        &mut self,
        kept: &mut Kept,
        blockers: &mut AllBlockers,
        blocks: &'a [Block<'t>],
        mode: Mode,
        event: Event,
    ) -> Result<Result<Reply<'t>, Refusal>, AllocError>
        requires sound { IsSoundMachine self.old }
        requires room { self.old.events + 1 < 2 ^ 64 }
        requires kept { AllKept (blocks_of blocks.now) self.old kept.old }
        requires blockers { AreBlockers self.old blockers.old }
        ensures answer { IfOk result (λ answer. engine_answer self.old (next (blocks_of blocks.now) mode self.old event) ≡ record { machine = self.new; answer = answer }) }
        ensures kept { (count : ℕ) → Reaches (blocks_of blocks.now) mode count self.old → OnOk result (AllKept (blocks_of blocks.now) self.new kept.new) }
        ensures blockers { (count : ℕ) → Reaches (blocks_of blocks.now) mode count self.old → OnOk result (AreBlockers self.new blockers.new) }
        ensures due { OnErr result (Goes (blocks_of blocks.now) mode self.old event) }
    {
        let session = session_of(event);
        let before = self.transaction_of(session);
        let answer = self.did(kept, blockers, blocks, mode, event)?;
        if answer.is_ok() {
            let after = self.transaction_of(session);
            self.mend(blockers, session as usize, Doer::of(&before, &after))?;
        }
        Ok(answer)
    }

    /// The session of that number, if there is one.
    pub fn session_at(&self, session: u32) -> Option<&Session>
        ensures { slice_get self.now.sessions session ≡ option_map (λ s. s.now) result }
    {
        self.sessions.get(session as usize)
    }

    /// What a SELECT of the session that begins now would show of the table: where there is none, that takes no memory.
    pub fn visible(
        &self,
        session: u32,
        table: &str,
    ) -> Result<Result<Option<Vec<Row>>, Refusal>, AllocError>
        requires sound { IsSoundMachine self.now }
        requires room { self.now.events + 1 < 2 ^ 64 }
        ensures ok { IfOk result (λ answer. IfOk answer (λ rows. visible self.now session table.now ≡ Ok (option_map (λ (v : VecFacts (List SqlValue)). v.items) rows))) }
        ensures refused { IfOk result (λ answer. IfErr answer (λ refusal. visible self.now session table.now ≡ Err refusal)) }
        ensures memory { OnErr result ((rows : List (List SqlValue)) × (visible self.now session table.now ≡ Ok (Some rows))) }
    {
        let Some(current) = self.session_at(session) else {
            return Ok(Err(Refusal::NoSession));
        };
        Ok(Ok(self.db.visible(current, &Name::Plain(table))?))
    }
}
