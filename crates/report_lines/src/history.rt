//! What is said of a permutation, and what is due next.

use session_machine::Order;

/// What is said of an instance at a try; `seen` is how many items of the history had come.
#[derive(Clone, Copy, PartialEq, Eq)]
pub enum Line {
    AtOnce { entry: usize, seen: usize },
    Waiting { entry: usize },
    Completed { entry: usize, seen: usize },
}

/// So many items have come, so many entries are launched, and so many of these may be on the waiting list.
#[derive(Clone, Copy)]
pub struct Moment {
    pub seen: usize,
    pub launched: usize,
    pub joined: usize,
}

/// How far a run has come: to an entry that is due, or to the end, or to where the permutation is found invalid.
#[derive(Clone, Copy, PartialEq, Eq)]
pub enum RunState {
    Due(usize),
    Whole,
    Invalid,
}

/// What a Launch is given: a session, and the block for it.
#[derive(Clone, Copy)]
pub struct PlannedLaunch {
    pub session: u32,
    pub block: u32,
}

/// The teardowns so far: so many orders came before the one that is due, or before the end.
#[derive(Clone, Copy)]
pub struct TeardownsSoFar {
    pub orders: usize,
    pub due: Option<Order>,
}
