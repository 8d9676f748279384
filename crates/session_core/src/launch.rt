//! A session is given a block.
ghost use Rattle.std.specs.Prelude.{◌≡◌, ◌≤◌, ◌<◌, ◌+◌, ◌^◌, ◌==◌, true, false, not, ◌||◌, IfOk, IfErr, MatchOption, Option, Some, None, Ok, Err, is_none, length, map, slice_get};
ghost use Rattle.std.specs.List.{list_any};
ghost use Rattle.sql_trees.specs.Statements.{stmt_of};
ghost use Rattle.sql_blocks.specs.Blocks.{blocks_of};
ghost use Rattle.session_machine.specs.Running.{is_definition};
ghost use Rattle.session_machine.specs.Machine.{may_launch, next, stmts_of, with_session};
ghost use Rattle.session_machine.specs.Inner.Steps.{first_place};
ghost use Rattle.session_core.specs.Inner.Answers.{engine_answer};
ghost use Rattle.session_core.specs.Inner.Blocking.{AreBlockers};

use crate::block_stmts::block_stmts;
use crate::blockers::AllBlockers;
use crate::live::Live;
use row_versions::Versions;
use session_machine::{
    Event, Mode, Outcome, Place, Refusal, Reply, Session, Transaction, is_definition,
};
use sql_blocks::Block;
use sql_trees::Stmt;

fn has_definition(stmts: &[Stmt<'_>]) -> bool
    ensures { result ≡ list_any is_definition (map stmt_of stmts.now) }
{
    for stmt in stmts {
        if is_definition(stmt) {
            return true;
        }
    }
    false
}

fn may_define(session: u32, stmts: &[Stmt<'_>]) -> bool
    ensures { result ≡ ((session == 0) || not (list_any is_definition (map stmt_of stmts.now))) }
{
    session == 0 || !has_definition(stmts)
}

/// The statements of the block, if the session may be given it.
fn allowed_stmts<'a, 't>(
    blocks: &'a [Block<'t>],
    session: u32,
    block: u32,
) -> Option<&'a [Stmt<'t>]>
    ensures { MatchOption result (may_launch (blocks_of blocks.now) session block ≡ false)
        (λ stmts. (may_launch (blocks_of blocks.now) session block ≡ true) × (map stmt_of stmts.now ≡ stmts_of (blocks_of blocks.now) block)) }
{
    let stmts = block_stmts(blocks, block)?;
    if may_define(session, stmts) {
        Some(stmts)
    } else {
        None
    }
}

fn start_of(block: u32, stmts: &[Stmt<'_>]) -> Option<Place>
    ensures { result ≡ first_place block (map stmt_of stmts.now) }
{
    if stmts.is_empty() {
        None
    } else {
        Some(Place { block, next: 0 })
    }
}

/// Where a session stands that is given a block, and its transaction.
#[derive(Drop)]
struct Launching {
    place: Option<Place>,
    transaction: Transaction,
}

impl Launching {
    /// The session.
    fn session(self) -> Session
        ensures { result ≡ record { place = self.place; transaction = self.transaction; statement = None } }
    {
        Session {
            place: self.place,
            transaction: self.transaction,
            statement: None,
        }
    }
}

impl<'a, 't, V: Versions> Live<'a, 't, V> {
    /// Where the session stands once it is given the block, or why it may not be.
    fn place_at_launch(
        &self,
        blockers: &AllBlockers,
        blocks: &'a [Block<'t>],
        mode: Mode,
        session: u32,
        block: u32,
    ) -> Result<Launching, Refusal>
        requires blockers { AreBlockers self.now blockers.now }
        ensures within { IfOk result (λ _. session < length self.now.sessions) }
        ensures ok { IfOk result (λ after. next (blocks_of blocks.now) mode self.now (Event.Launch session block)
            ≡ Ok (record {
              machine = with_session self.now self.now.db session (record { place = after.place; transaction = after.transaction; statement = None });
              reply = record { outcome = Outcome.Launched; ended = is_none after.place };
            })) }
        ensures refused { IfErr result (λ refusal. next (blocks_of blocks.now) mode self.now (Event.Launch session block) ≡ Err refusal) }
    {
        let Some(current) = self.session_at(session) else {
            return Err(Refusal::NoSession);
        };
        let Some(stmts) = allowed_stmts(blocks, session, block) else {
            return Err(Refusal::BlockNotAllowed);
        };
        if current.place.is_some() {
            return Err(Refusal::Busy);
        }
        if self.must_wait_for_rest(blockers, mode) {
            return Err(Refusal::NotYourTurn);
        }
        Ok(Launching {
            place: start_of(block, stmts),
            transaction: current.transaction,
        })
    }

    /// Gives a session a block, or says why not.
    pub fn launch(
        &mut self,
        blockers: &AllBlockers,
        blocks: &'a [Block<'t>],
        mode: Mode,
        session: u32,
        block: u32,
    ) -> Result<Reply<'t>, Refusal>
        requires room { self.old.events + 1 < 2 ^ 64 }
        requires blockers { AreBlockers self.old blockers.now }
        ensures { engine_answer self.old (next (blocks_of blocks.now) mode self.old (Event.Launch session block)) ≡ record { machine = self.new; answer = result } }
    {
        match self.place_at_launch(blockers, blocks, mode, session, block) {
            Ok(after) => {
                let ended = after.place.is_none();
                self.set_session(session, after.session());
                Ok(Reply {
                    outcome: Outcome::Launched,
                    ended,
                })
            }
            Err(refusal) => Err(refusal),
        }
    }
}
