//! What the tests share: what they ask, blocks from their texts, and an engine over them.
ghost use Rattle.std.specs.Prelude.{◌≤◌};

use row_versions::ListStore;
use session_core::{EngineState, replays};
use session_machine::{EngineFault, Event, Mode, Turn};
use sql_parser::{Block, Role, parse_block};
use std::alloc::{AllocError, Global};
use std::process::Abort;

/// Fails the test where the claim is false; `of` says which case it is.
pub fn holds(rt: &impl Abort, claim: bool, of: &str) {
    assert!(rt; claim, "{of}");
}

/// Makes a run to its end, once more where it didn't come there: a want of memory stands in its way once, all else twice.
macro_rules! at_last {
    ($rt:expr, $run:expr) => {
        $crate::trial::holds($rt, $run.is_ok() || $run.is_ok(), "the end of a run")
    };
}

pub(crate) use at_last;

/// The block of this text. One with a fault is refused as for want of memory.
pub fn block(alloc: Global, text: &'static str, role: Role) -> Result<Block<'static>, AllocError> {
    if text.len() > 1_000 {
        return Err(AllocError);
    }
    match parse_block(alloc, text, role) {
        Ok(block) => Ok(block),
        Err(_) => Err(AllocError),
    }
}

fn role_of(session: u32) -> Role {
    if session == 0 {
        Role::Main
    } else {
        Role::Session
    }
}

/// A session is given a block, which says this.
pub type Line = (u32, &'static str, &'static str);

/// The blocks of these lines: those of session 0 are a setup's.
pub fn blocks(alloc: Global, lines: &[Line]) -> Result<Vec<Block<'static>>, AllocError> {
    let mut all = Vec::new(alloc);
    for line in lines {
        all.push(block(alloc, line.1, role_of(line.0))?)?;
    }
    Ok(all)
}

/// An engine over blocks that live as long.
pub type Engine<'a> = EngineState<'a, 'static, ListStore>;

pub fn engine_of<'a>(
    alloc: Global,
    blocks: &'a [Block<'static>],
    sessions: u32,
    mode: Mode,
) -> Result<Engine<'a>, AllocError>
    requires { sessions ≤ 64 }
{
    EngineState::new(alloc, blocks, sessions, mode, ListStore::new(alloc))
}

/// Steps until nothing goes on by itself.
fn rest(engine: &mut Engine<'_>) -> Result<(), EngineFault> {
    for _ in 0..64 {
        let Turn::Session(session) = engine.turn() else {
            return Ok(());
        };
        engine.perform(Event::Step { session })?;
    }
    Err(EngineFault::NotYourTurn)
}

/// Gives the session a block, and steps until nothing goes on by itself.
pub fn run(engine: &mut Engine<'_>, session: u32, block: u32) -> Result<(), EngineFault> {
    engine.perform(Event::Launch { session, block })?;
    rest(engine)
}

/// Whether the engine's history is one of these blocks in directed mode.
pub fn is_legal(
    alloc: Global,
    engine: &Engine<'_>,
    blocks: &[Block<'static>],
) -> Result<bool, AllocError> {
    let sessions = engine.sessions();
    if sessions > 64 {
        return Ok(false);
    }
    replays(alloc, blocks, sessions, Mode::Directed, engine.history())
}
