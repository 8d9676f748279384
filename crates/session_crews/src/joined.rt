//! What is left of a run when its threads are joined.

use session_seats::ThreadFault;

/// A run whose threads are joined: the engine that stood behind the lock, the seats that were handed in, the fault that was
/// met before the joins, if one was, and what was seen after them against the run's end.
#[derive(Drop)]
pub struct Joined<E, S> {
    pub engine: E,
    pub seats: Vec<S>,
    pub met: Option<ThreadFault>,
    pub late: Option<ThreadFault>,
}
