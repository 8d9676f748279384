//! The permutations of a spec, in the order in which they run, and the lines that list them; and all orders of sessions' steps.
#![tactic(auto)]

mod interleavings;
mod laws;
mod line;
mod permutations;
mod steps;
mod turns;

pub use interleavings::Interleavings;
pub use laws::{
    interleavings_keep_counts, interleavings_rise, no_interleaving_twice, no_other_interleavings,
};
pub use line::line_of;
pub use permutations::Permutations;
