//! The engine: the machine over a store, with its history.
ghost use Rattle.std.specs.Prelude.{◌≡◌, ◌≢◌, ◌↔◌, IsTrue, ◌+◌, ◌<◌, ◌≤◌, ◌^◌, ℕ, List, [], ◌∷◌, ◌++◌, Some, None, IfOk, IfErr, IfSome, OnOk, OnErr, IsErrOf, Result, Ok, Err, length, option_map, slice_get};
ghost use Rattle.std.specs.Global.{Vec as VecFacts};
ghost use Rattle.iso_lexer.specs.declared.limits.TheConstants.{MOST_SESSIONS};
ghost use Rattle.sql_blocks.specs.Blocks.{blocks_of};
ghost use Rattle.sql_values.specs.declared.value.Value.{Value as SqlValue};
ghost use Rattle.row_versions.specs.Log.{empty_content};
ghost use Rattle.session_machine.specs.declared.reply.Reply.{Reply as ReplyFacts};
ghost use Rattle.session_machine.specs.Machine.{opening, Run};
ghost use Rattle.session_machine.specs.Engine.{EngineAnswered, IsDue, IsLegal, engine_after, fault_of, is_quiet_in, opened, spent_engine, turn_of, visible_in};
ghost use Rattle.session_core.specs.Engines.{IsOf, KeepsBlockers, KeepsTargets};

use crate::blockers::AllBlockers;
use crate::kept::Kept;
use crate::live::Live;
use row_versions::{Seen, TxId, Versions};
use session_laws::laws::stays_sound;
use session_machine::{Answers, Engine, EngineFault, Event, HistItem, Mode, Refusal, Reply, Turn};
use sql_blocks::{Block, same_blocks};
use sql_values::Row;
use std::alloc::{AllocError, Global};
use std::marker::Model;

/// For how many events the history has room from the beginning: most permutations have no more.
const ROOM: usize = 32;

/// Sessions over a store, in a run that is recorded. Contracts see it as what it was opened over, the machine's
/// state and the history; the state is that to which the history leads from the opening.
pub struct EngineState<'a, 't, V: Versions> {
    blocks: &'a [Block<'t>],
    count: u32,
    mode: Mode,
    live: Live<'a, 't, V>,
    kept: Kept,
    blockers: AllBlockers,
    history: Vec<HistItem<'t>>,
    /// Memory was refused in the middle of an event: nothing is known of the machine any more.
    spent: bool,
}

/// Written out, so that a crate that drops an engine calls this, and needn't prove anew how each of its parts is dropped.
impl<'a, 't, V: Versions> Drop for EngineState<'a, 't, V> {
    fn drop(self) {
        let EngineState {
            blocks: _,
            count: _,
            mode: _,
            live: _,
            kept: _,
            blockers: _,
            history: _,
            spent: _,
        } = self;
    }
}

impl<'a, 't, V: Versions> Model for EngineState<'a, 't, V> {
    ghost use Rattle.std.specs.Prelude.{◌≡◌, false, length, Some, None, if◌then◌else◌};
    ghost use Rattle.sql_blocks.specs.Blocks.{blocks_of};
    ghost use Rattle.session_machine.specs.Machine.{opening, Run};
    ghost use Rattle.session_machine.specs.Engine.{Engine, IsLegal};
    ghost use Rattle.session_machine.specs.Sound.{IsSoundMachine};
    ghost use Rattle.session_core.specs.Inner.Kept.{AllKept};
    ghost use Rattle.session_core.specs.Inner.Blocking.{AreBlockers};
    ghost use Rattle.session_machine.specs.Inner.TreeCodes.{tree_code};
    ghost use Rattle.std.specs.Coded.{codes};

    ghost Value = { Engine };

    ghost coded = { Prim.hlevel (codes, tree_code) };

    ghost view = { λ e. record {
      blocks = blocks_of e.blocks.now;
      count = e.count;
      mode = e.mode;
      machine = if e.spent then None else Some e.live;
      history = e.history.items;
    } };

    ghost invariant = { λ e. IsLegal (blocks_of e.blocks.now) e.count e.mode e.history.items
        × (e.spent ≡ false → IsSoundMachine e.live × (e.live.events ≡ length e.history.items)
        × Run (blocks_of e.blocks.now) e.mode (opening e.count) e.history.items e.live × AllKept (blocks_of e.blocks.now) e.live e.kept × AreBlockers e.live e.blockers) };
}

/// Adds an item to the history, and gives its reply.
fn note<'t>(
    history: &mut Vec<HistItem<'t>>,
    event: Event,
    reply: Reply<'t>,
) -> Result<Reply<'t>, AllocError>
    ensures ok { IfOk result (λ told. told ≡ reply.entry) }
    ensures history { OnOk result (history.new.items ≡ history.old.items ++ record { event = event; reply = reply.entry } ∷ []) }
    ensures err { OnErr result (history.new.items ≡ history.old.items) }
{
    let told = reply.copied(*history.allocator())?;
    history.push(HistItem { event, reply })?;
    Ok(told)
}

fn as_fault(refusal: Refusal) -> EngineFault
    ensures { result ≡ fault_of refusal }
{
    match refusal {
        Refusal::Busy => EngineFault::Busy,
        Refusal::NotYourTurn => EngineFault::NotYourTurn,
        Refusal::StillBlocked => EngineFault::StillBlocked,
        Refusal::Idle => EngineFault::Idle,
        Refusal::NoSession => EngineFault::NoSession,
        Refusal::BlockNotAllowed => EngineFault::BlockNotAllowed,
    }
}

impl<'a, 't, V: Versions> EngineState<'a, 't, V> {
    /// An engine in which nothing has happened: beside the control session, which is session 0, it has `count`
    /// sessions, numbered from 1.
    pub fn new(
        alloc: Global,
        blocks: &'a [Block<'t>],
        count: u32,
        mode: Mode,
        store: V,
    ) -> Result<Self, AllocError>
        requires few { count ≤ MOST_SESSIONS }
        requires empty { V.content store ≡ empty_content }
        ensures { IfOk result (λ e. e ≡ opened (blocks_of blocks.now) count mode) }
    {
        stays_sound();
        let live = Live::new(alloc, count, store)?;
        let kept = Kept::none(alloc, count)?;
        let blockers = AllBlockers::none(alloc, count)?;
        let history = Vec::with_capacity(alloc, ROOM)?;
        Ok(EngineState {
            blocks,
            count,
            mode,
            live,
            kept,
            blockers,
            history,
            spent: false,
        })
    }

    /// Does an event and answers nothing: the reply stands last in the history. After a want of memory the engine is spent.
    pub fn perform(&mut self, event: Event) -> Result<(), EngineFault>
        ensures memory { IsErrOf result EngineFault.Memory → self.new ≡ spent_engine self.old }
        ensures done { OnOk result ((reply : ReplyFacts) × (engine_after self.old event ≡ record { engine = self.new; answer = Ok reply })) }
        ensures refused { IfErr result (λ fault. fault ≢ EngineFault.Memory → engine_after self.old event ≡ record { engine = self.new; answer = Err fault }) }
        ensures due { IsErrOf result EngineFault.Memory → IsDue self.old event }
        ensures same { IsOf self.new self.old.blocks self.old.count self.old.mode }
    {
        stays_sound();
        if self.spent {
            return Err(EngineFault::Spent);
        }
        match self.live.act(
            &mut self.kept,
            &mut self.blockers,
            self.blocks,
            self.mode,
            event,
        ) {
            Ok(Ok(reply)) => match self.history.push(HistItem { event, reply }) {
                Ok(()) => Ok(()),
                Err(_) => {
                    self.spent = true;
                    Err(EngineFault::Memory)
                }
            },
            Ok(Err(refused)) => Err(as_fault(refused)),
            Err(_) => {
                self.spent = true;
                Err(EngineFault::Memory)
            }
        }
    }

    fn act(&mut self, event: Event) -> Result<Reply<'t>, EngineFault>
        ensures memory { IsErrOf result EngineFault.Memory → self.new ≡ spent_engine self.old }
        ensures answer { result ≢ Err EngineFault.Memory → engine_after self.old event ≡ record { engine = self.new; answer = result } }
        ensures due { IsErrOf result EngineFault.Memory → IsDue self.old event }
        ensures same { IsOf self.new self.old.blocks self.old.count self.old.mode }
    {
        stays_sound();
        if self.spent {
            return Err(EngineFault::Spent);
        }
        let answer = match self.live.act(
            &mut self.kept,
            &mut self.blockers,
            self.blocks,
            self.mode,
            event,
        ) {
            Ok(answer) => answer,
            Err(_) => {
                self.spent = true;
                return Err(EngineFault::Memory);
            }
        };
        match answer {
            Err(refusal) => Err(as_fault(refusal)),
            Ok(reply) => match note(&mut self.history, event, reply) {
                Ok(told) => Ok(told),
                Err(_) => {
                    self.spent = true;
                    Err(EngineFault::Memory)
                }
            },
        }
    }

    /// Gives a session a block. After a want of memory the engine is spent.
    pub fn launch(&mut self, session: u32, block: u32) -> Result<Reply<'t>, EngineFault>
        ensures memory { IsErrOf result EngineFault.Memory → self.new ≡ spent_engine self.old }
        ensures answer { result ≢ Err EngineFault.Memory → engine_after self.old (Event.Launch session block) ≡ record { engine = self.new; answer = result } }
        ensures due { IsErrOf result EngineFault.Memory → IsDue self.old (Event.Launch session block) }
        ensures same { IsOf self.new self.old.blocks self.old.count self.old.mode }
    {
        self.act(Event::Launch { session, block })
    }

    /// Begins the session's next statement, or goes on with the one that waits. After a want of memory the engine is spent.
    pub fn step(&mut self, session: u32) -> Result<Reply<'t>, EngineFault>
        ensures memory { IsErrOf result EngineFault.Memory → self.new ≡ spent_engine self.old }
        ensures answer { result ≢ Err EngineFault.Memory → engine_after self.old (Event.Step session) ≡ record { engine = self.new; answer = result } }
        ensures due { IsErrOf result EngineFault.Memory → IsDue self.old (Event.Step session) }
        ensures same { IsOf self.new self.old.blocks self.old.count self.old.mode }
    {
        self.act(Event::Step { session })
    }

    /// Rolls a session's open transaction back and drops its block. After a want of memory the engine is spent.
    pub fn leave(&mut self, session: u32) -> Result<Reply<'t>, EngineFault>
        ensures memory { IsErrOf result EngineFault.Memory → self.new ≡ spent_engine self.old }
        ensures answer { result ≢ Err EngineFault.Memory → engine_after self.old (Event.Leave session) ≡ record { engine = self.new; answer = result } }
        ensures due { IsErrOf result EngineFault.Memory → IsDue self.old (Event.Leave session) }
        ensures same { IsOf self.new self.old.blocks self.old.count self.old.mode }
    {
        self.act(Event::Leave { session })
    }

    /// What was answered so far: a legal history, also once the engine is spent, and one that leads to its state until
    /// then. It takes no memory.
    pub fn history(&self) -> &[HistItem<'t>]
        ensures lends { result.now ≡ self.now.history }
        ensures legal { IsLegal self.now.blocks self.now.count self.now.mode self.now.history }
        ensures leads { IfSome self.now.machine (λ m. Run self.now.blocks self.now.mode (opening self.now.count) self.now.history m) }
    {
        &self.history
    }

    /// Whether the engine was opened over blocks equal to these, with so many sessions beside the control session and
    /// in this mode. It takes no memory.
    pub fn is_of(&self, blocks: &[Block<'_>], sessions: u32, mode: Mode) -> bool
        ensures { IsTrue result ↔ IsOf self.now (blocks_of blocks.now) sessions mode }
    {
        self.count == sessions && self.mode == mode && same_blocks(self.blocks, blocks)
    }

    /// How many sessions it has beside the control session. It takes no memory.
    pub fn sessions(&self) -> u32
        ensures { result ≡ self.now.count }
    {
        self.count
    }

    /// The targets with which a session goes on that is in the middle of a statement: it has kept them since that began,
    /// and they are those of the statement in the present state. `None` for the others. It takes no memory.
    pub fn kept_targets(&self, session: u32) -> Option<&[Seen]>
        ensures { KeepsTargets self.now session (option_map (λ targets. targets.now) result) }
    {
        if self.spent {
            return None;
        }
        self.kept.of(session)
    }

    /// Those who stand in the way of what the session waits for, nobody for one that doesn't wait: they are kept, and are those of
    /// the present state. It takes no memory.
    pub fn kept_blockers(&self, session: u32) -> &[TxId]
        ensures { KeepsBlockers self.now session result.now }
    {
        if self.spent {
            return &[];
        }
        self.blockers.at(session as usize)
    }

    /// Whose turn it is. It takes no memory.
    pub fn turn(&self) -> Turn
        ensures { result ≡ turn_of self.now.machine }
    {
        if self.spent {
            return Turn::Spent;
        }
        match self.live.turn(&self.blockers) {
            Some(k) => Turn::Session(k as u32),
            None => Turn::Driver,
        }
    }

    /// Whether nothing goes on by itself. It takes no memory.
    pub fn quiet(&self) -> bool
        ensures { result ≡ is_quiet_in self.now.machine }
    {
        !self.spent && self.live.turn(&self.blockers).is_none()
    }

    /// Lets the engine go, as a drop does. A crate that drops one proves anew how each of its parts is dropped.
    pub fn end(self) {}

    /// What a SELECT of the session that begins now would show of the table: in the middle of a statement also what
    /// that has written so far; for a session without a transaction, or with one that has failed, what is committed.
    /// `None` stands for no such table, and takes no memory.
    pub fn visible(&self, session: u32, table: &str) -> Result<Option<Vec<Row>>, EngineFault>
        ensures ok { IfOk result (λ rows. visible_in self.now.machine session table.now ≡ Ok (option_map (λ (v : VecFacts (List SqlValue)). v.items) rows)) }
        ensures refused { IfErr result (λ fault. fault ≢ EngineFault.Memory → visible_in self.now.machine session table.now ≡ Err fault) }
        ensures memory { IsErrOf result EngineFault.Memory → (rows : List (List SqlValue)) × (visible_in self.now.machine session table.now ≡ Ok (Some rows)) }
    {
        if self.spent {
            return Err(EngineFault::Spent);
        }
        match self.live.visible(session, table) {
            Ok(Ok(rows)) => Ok(rows),
            Ok(Err(refusal)) => Err(as_fault(refusal)),
            Err(_) => Err(EngineFault::Memory),
        }
    }
}

impl<'a, 't, V: Versions> Engine for EngineState<'a, 't, V> {
    ghost engine = { λ e. e };

    fn events(&self) -> usize {
        self.history.len()
    }

    fn sessions(&self) -> u32 {
        self.count
    }

    fn turn(&self) -> Turn {
        EngineState::turn(self)
    }

    fn quiet(&self) -> bool {
        EngineState::quiet(self)
    }
}

impl<'a, 't, V: Versions> Answers<'t> for EngineState<'a, 't, V> {
    fn ask(&mut self, event: Event) -> Result<Reply<'t>, EngineFault> {
        self.act(event)
    }
}
