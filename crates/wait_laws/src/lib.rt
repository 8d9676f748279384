//! Laws of waits: what follows from the machine's definitions for sessions that wait, their locks and their turns.
#![tactic(auto)]

pub mod laws;
