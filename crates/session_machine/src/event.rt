//! Events, and whose they are.

/// Whether a driver orders the sessions.
#[derive(Clone, Copy, PartialEq, Eq)]
pub enum Mode {
    /// A block is launched only when the engine is quiet, and a step is that of the session whose turn it is.
    Directed,
    Free,
}

/// Whose turn it is.
#[derive(Clone, Copy, PartialEq, Eq)]
pub enum Turn {
    Session(u32),
    /// No session can go on.
    Driver,
    /// Memory was refused in the middle of an event.
    Spent,
}

/// What is done to a session.
#[derive(Clone, Copy, PartialEq, Eq)]
pub enum Event {
    /// The session is given a block.
    Launch { session: u32, block: u32 },
    /// Its next statement is begun, or its waiting one is resumed.
    Step { session: u32 },
    /// Its open transaction is rolled back and its block dropped.
    Leave { session: u32 },
}

/// What a driver orders when the engine is quiet.
#[derive(Clone, Copy, PartialEq, Eq)]
pub enum Order {
    Launch { session: u32, block: u32 },
    Leave { session: u32 },
    /// The run is over.
    Stop,
}
