//! The tests of `session_threads`, and of `permutations` with several threads, over their public calls alone: what no clause says, as that
//! each session has a thread of its own.
#![tactic(auto)]

#[cfg(test)]
mod asking;
#[cfg(test)]
mod free_gates;
#[cfg(test)]
mod free_order;
#[cfg(test)]
mod free_runs;
#[cfg(test)]
mod free_texts;
#[cfg(test)]
mod gates;
#[cfg(test)]
mod giving;
#[cfg(test)]
mod meeting;
#[cfg(test)]
mod refused;
#[cfg(test)]
mod run_faults;
#[cfg(test)]
mod run_limits;
#[cfg(test)]
mod seats;
#[cfg(test)]
mod signs;
#[cfg(test)]
mod telling;
#[cfg(test)]
mod two_faults;
#[cfg(test)]
mod worked;
