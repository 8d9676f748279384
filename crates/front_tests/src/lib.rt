//! Worked texts, printed faults, failing devices, want of memory and long lists of `iso_lexer` and `spec_parser`, over their
//! public calls.
#![tactic(auto)]

#[cfg(test)]
mod asking;
#[cfg(test)]
mod devices;
#[cfg(test)]
mod errors;
#[cfg(test)]
mod faults;
#[cfg(test)]
mod memory;
#[cfg(test)]
mod names;
#[cfg(test)]
mod rows;
#[cfg(test)]
mod sizes;
#[cfg(test)]
mod spec_files;
#[cfg(test)]
mod spec_tokens;
#[cfg(test)]
mod sql_tokens;
#[cfg(test)]
mod uses;
