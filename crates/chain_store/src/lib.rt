//! A store of versions in which each row's versions are linked.
#![tactic(auto)]

mod chain_store;
mod links;
mod walk;

pub use chain_store::ChainStore;
