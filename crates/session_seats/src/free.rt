//! What the sessions of a free run are given, and how far they have come with it.
ghost use Rattle.std.specs.Prelude.{◌≡◌};
ghost use Rattle.std.specs.Option.{option_copied};
ghost use Rattle.session_seats.specs.Free.{block_state, is_over, may_release, scripts_in, script_of, state_at, stops};

use session_machine::{HistItem, Outcome, Reply};
use std::sync::Condvar;

/// The blocks of a free run, by their numbers.
#[derive(Drop)]
pub struct FreePlan {
    /// A session and a block for it, one after the other, before the threads start.
    pub before: Vec<(u32, u32)>,
    /// The blocks of each session, which its thread runs; the first is session 1.
    pub scripts: Vec<Vec<u32>>,
    /// The control session's blocks after the threads.
    pub after: Vec<u32>,
}

/// How far the block has come that a session was given last.
#[derive(Clone, Copy)]
pub enum BlockState {
    /// It has statements left, and its last one neither failed nor waits.
    GoesOn,
    /// Its last statement is over, and went well.
    Ended,
    /// A statement failed or waits; whether the block is over with it.
    Stopped { ended: bool },
}

fn stops(outcome: &Outcome<'_>) -> bool
    ensures { result ≡ stops outcome.now }
{
    matches!(outcome, Outcome::Waits | Outcome::Failed(_))
}

/// How far the block has come with this reply.
fn state_at(reply: &Reply<'_>) -> BlockState
    ensures { result ≡ state_at reply.now }
{
    if stops(&reply.outcome) {
        BlockState::Stopped { ended: reply.ended }
    } else if reply.ended {
        BlockState::Ended
    } else {
        BlockState::GoesOn
    }
}

/// How far the block has come that a session was given last, by what came last in its seat; it has ended where there was none.
pub fn block_state(last: Option<&HistItem<'_>>) -> BlockState
    ensures { result ≡ block_state (option_copied last.entry) }
{
    match last {
        Some(item) => state_at(&item.reply),
        None => BlockState::Ended,
    }
}

impl BlockState {
    /// Whether no statement of the block is left.
    pub fn is_over(self) -> bool
        ensures { result ≡ is_over self }
    {
        match self {
            BlockState::GoesOn => false,
            BlockState::Ended => true,
            BlockState::Stopped { ended } => ended,
        }
    }
}

/// What the thread of a session in a free run has: the session's seat, and the bell that all of them sleep at.
#[derive(Drop)]
pub struct Runner<'s, S> {
    pub bell: &'s Condvar,
    pub seat: &'s mut S,
}

/// The script of a session; the control session has none.
pub fn script_of(scripts: &[Vec<u32>], session: u32) -> Option<&[u32]>
    ensures { option_copied result ≡ script_of (scripts_in scripts.now) session }
{
    match session {
        0 => None,
        number => match scripts.get(number as usize - 1) {
            Some(script) => Some(script.as_slice()),
            None => None,
        },
    }
}

/// What came of trying an event.
#[derive(Clone, Copy)]
pub enum Tried {
    /// It was done.
    Done,
    /// What the session waits for still stood in its way when there were so many events.
    Blocked { events: usize },
    /// The run is over: a fault was met.
    Over,
}

/// Whether what came last in a seat may have released something: all but a Launch and a wait may.
pub fn may_release(last: Option<&HistItem<'_>>) -> bool
    ensures { result ≡ may_release (option_copied last.entry) }
{
    match last {
        Some(item) => !matches!(item.reply.outcome, Outcome::Launched | Outcome::Waits),
        None => false,
    }
}
