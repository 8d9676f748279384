//! Spec files: sessions, their steps, and the orders in which the steps are run, in the format of PostgreSQL's
//! isolation tester (README of `src/test/isolation`).
//!
//! ```
//! /// The SQL of a spec file's first step.
//! fn first_step(alloc: Global, file: &str) -> anyhow::Result<&str> {
//!     let spec = parse_spec(alloc, file)?;
//!     let Some(session) = spec.sessions.first() else {
//!         bail!("no session");
//!     };
//!     let Some(step) = session.steps.first() else {
//!         bail!("no step");
//!     };
//!     Ok(step.part.sql)
//! }
//! ```
#![tactic(auto)]

mod draft;
mod fault;
mod file;
mod known;
mod laws;
mod numbered;
mod parse;
mod perms;
mod reader;
mod resolve;
mod session;
mod tree;

pub use fault::{SpecFault, What};
pub use laws::{
    faults_are_first, files_are_read, limits_are_first, one_answer, reads_are_files,
    repeats_are_exact, specs_are_exact, specs_are_slices, specs_stand, undefined_are_exact,
};
pub use numbered::session_numbered;
pub use parse::parse_spec;
pub use tree::{Entry, Marker, Part, SessionPart, Spec, StepPart};
