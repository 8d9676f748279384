//! Laws of the session machine: what follows from its definitions, in the words of sessions, transactions and histories.
#![tactic(auto)]

pub mod laws;
