//! Tests of the engine, and of what queries answer and statements change at given rows, over public calls alone.
#![tactic(auto)]

#[cfg(test)]
mod at_rows;
#[cfg(test)]
mod blocked;
#[cfg(test)]
mod by_events;
#[cfg(test)]
mod calls;
#[cfg(test)]
mod changes;
#[cfg(test)]
mod counts;
#[cfg(test)]
mod driven;
#[cfg(test)]
mod inserts;
#[cfg(test)]
mod kept;
#[cfg(test)]
mod keys;
#[cfg(test)]
mod listed;
#[cfg(test)]
mod orders;
#[cfg(test)]
mod random_keys;
#[cfg(test)]
mod refusals;
#[cfg(test)]
mod returning;
#[cfg(test)]
mod selects;
#[cfg(test)]
mod sessions;
#[cfg(test)]
mod sizes;
#[cfg(test)]
mod stores;
#[cfg(test)]
mod strengths;
#[cfg(test)]
mod tables;
#[cfg(test)]
mod trial;
#[cfg(test)]
mod waits;
#[cfg(test)]
mod words;
