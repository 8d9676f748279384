//! Statements: what a statement of a session makes of the tables and rows that all sessions share.
#![tactic(auto)]

mod act;
mod begin;
mod checks;
mod definitions;
mod effect;
mod faults;
mod insert;
mod lock;
mod returning;
mod run;
mod select;
mod settle;
mod targets;
mod transactions;
mod update;
mod walk;

pub use effect::Effect;
pub use run::run_statement;
