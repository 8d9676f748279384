//! The verdict on an outcome, as far as no permutation is run for it: the transactions of a permutation and their orders, which of
//! them failed and can be left out, and which of some serial orders has the outcome.
#![tactic(auto)]

mod failures;
mod judged;
mod mixed;
mod numbers;
mod orders;
mod same_but;
mod serial_orders;
mod transactions;
mod verdict;

pub use failures::{failed_of, rest_of, sessions_of};
pub use judged::{Judged, Outcomes};
pub use mixed::mixed_step;
pub use numbers::step_number;
pub use orders::{counts_of, entries_in_order};
pub use serial_orders::{SerialOrder, add_order, order_with, order_without};
pub use transactions::{Transaction, transactions_of};
pub use verdict::Verdict;
