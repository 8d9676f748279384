//! What comes of events.

use crate::event::Event;
use crate::fault::StmtFault;
use query_results::ResultSet;

/// What came of an event.
#[derive(Drop)]
pub enum Outcome<'a> {
    Launched,
    /// The statement has no result.
    Done,
    Rows(ResultSet<'a>),
    Waits,
    Failed(StmtFault<'a>),
    Left,
}

/// The reply to an event, and whether the session's block is over after it.
#[derive(Drop)]
pub struct Reply<'a> {
    pub outcome: Outcome<'a>,
    pub ended: bool,
}

/// An event with its reply.
pub struct HistItem<'a> {
    pub event: Event,
    pub reply: Reply<'a>,
}

/// Written out, so that a crate that drops one calls this, and needn't prove anew how its reply is dropped.
impl<'a> Drop for HistItem<'a> {
    fn drop(self) {
        let HistItem { event: _, reply: _ } = self;
    }
}
