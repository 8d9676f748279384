//! Laws of histories: the machine accepts whatever a permutation orders next, so each permutation has a history, and each file a text.
#![tactic(auto)]

pub mod laws;
