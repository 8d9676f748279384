//! Values in slots, in the order in which they were added.
#![tactic(auto)]

mod slots;
mod values;

pub use slots::OrderedSlots;
pub use values::Values;
