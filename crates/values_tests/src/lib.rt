//! Tests of values, row versions, unique keys, updates that leave them, and tables, by what these crates give to callers. They pass where any one allocation fails, too: what was refused memory
//! is asked again.
#![tactic(auto)]

#[cfg(test)]
mod example;
#[cfg(test)]
mod expressions;
#[cfg(test)]
mod keys;
#[cfg(test)]
mod leaving;
#[cfg(test)]
mod random_notes;
#[cfg(test)]
mod sizes;
#[cfg(test)]
mod sorting;
#[cfg(test)]
mod stores;
#[cfg(test)]
mod summing;
#[cfg(test)]
mod tables;
#[cfg(test)]
mod told;
#[cfg(test)]
mod versions;
