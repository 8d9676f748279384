//! What a permutation of a spec launches, and whether a history launched that.
#![tactic(auto)]

mod fit;
mod free_fit;
mod free_launches;
mod launches;
pub mod laws;

pub use fit::launches_fit;
pub use free_fit::free_fits;
pub use free_launches::FreeLaunches;
pub use launches::Launches;
