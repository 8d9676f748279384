//! Tests of runs to which something is refused on their way: memory, a thread's start, a read, a put, the rest of a file; and of runs over files of
//! each size, to which nothing is. They go over public calls alone, and take no memory for what they compare.
#![tactic(auto)]

#[cfg(test)]
mod asking;
#[cfg(test)]
mod cuts;
#[cfg(test)]
mod devices;
#[cfg(test)]
mod files;
#[cfg(test)]
mod listing;
#[cfg(test)]
mod rows;
#[cfg(test)]
mod seats;
#[cfg(test)]
mod sizes;
