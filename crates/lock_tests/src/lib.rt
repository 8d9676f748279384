//! Tests of row locks, waits and the update recheck.
#![tactic(auto)]

#[cfg(test)]
mod asking;
#[cfg(test)]
mod cells;
#[cfg(test)]
mod locks_and_waits;
#[cfg(test)]
mod memory;
#[cfg(test)]
mod random_orders;
#[cfg(test)]
mod sizes;
#[cfg(test)]
mod stores;
#[cfg(test)]
mod strengths;
