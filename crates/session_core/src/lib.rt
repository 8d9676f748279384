//! The engine: sessions over a store, what their events make of them, and the history of those events.
//!
//! An engine is run by events. Here block 0 is `CREATE TABLE t (x int); INSERT INTO t VALUES (7)`, and block 1 is
//! `SELECT x FROM t`:
//!
//! ```
//! /// Whether session 1 sees the row that the control session, which is session 0, has made.
//! fn sees_the_row(alloc: Global, blocks: &[Block<'static>]) -> Result<bool, EngineFault> {
//!     let mut engine = EngineState::new(alloc, blocks, 1, Mode::Directed, ListStore::new(alloc))?;
//!     engine.launch(0, 0)?;
//!     engine.step(0)?;
//!     engine.step(0)?;
//!     engine.launch(1, 1)?;
//!     let Reply { outcome, ended } = engine.step(1)?;
//!     match outcome {
//!         Outcome::Rows(set) => Ok(set.rows().len() == 1 && ended),
//!         _ => Ok(false),
//!     }
//! }
//! ```
#![tactic(auto)]

mod block_stmts;
mod blockers;
mod engine;
mod kept;
mod launch;
mod laws;
mod leave;
mod live;
mod mending;
mod replay;
mod step;
mod turns;
mod waits;

pub use engine::EngineState;
pub use replay::replays;
pub use session_machine::{EngineFault, Event, HistItem, Mode, Outcome, Reply, StmtFault, Turn};
