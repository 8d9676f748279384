//! The tests of `permutations` and `program_words`, over their public calls alone: the words of a command line, devices that fail,
//! the longest file, want of memory, what a terminal shows besides, and the printed line of each fault. What an example file shows has no test.
#![tactic(auto)]

#[cfg(test)]
mod alone;
#[cfg(test)]
mod asking;
#[cfg(test)]
mod failures;
#[cfg(test)]
mod fault_lines;
#[cfg(test)]
mod files;
#[cfg(test)]
mod main_call;
#[cfg(test)]
mod memory;
#[cfg(test)]
mod plans;
#[cfg(test)]
mod terminal;
#[cfg(test)]
mod words;
