//! What stops a statement, and what a row meets that is about to be written.

use session_machine::{Request, StmtFault};

/// What stops a statement: it has to wait for this, or fails.
#[derive(Drop)]
pub enum Stop<'t> {
    Blocked(Request),
    Fails(StmtFault<'t>),
}

/// What a row that is about to be written meets at a key that isn't free: the statement stops, or passes the row over.
#[derive(Drop)]
pub enum Meets<'t> {
    Stops(Stop<'t>),
    PassesOver,
}
