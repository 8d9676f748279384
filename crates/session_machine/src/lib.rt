//! The session machine: what sessions, statements and transactions are, and what an event makes of them.
#![tactic(auto)]

mod copies;
mod engine;
mod event;
mod fault;
mod paused;
mod reply;
mod running;
mod same;
mod session;

pub use engine::{Answers, Engine};
pub use event::{Event, Mode, Order, Turn};
pub use fault::{EngineFault, KeyName, Refusal, StmtFault};
pub use paused::Paused;
pub use reply::{HistItem, Outcome, Reply};
pub use running::is_definition;
pub use session::{
    Gathered, KeyAsked, OpenTransaction, Place, Progress, Request, Session, Transaction, Waiting,
};
