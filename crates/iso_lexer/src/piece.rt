//! What stands at the front of a text.

use crate::fault::FaultKind;

/// What stands at the front of a text, and what follows it.
#[derive(Drop)]
pub enum Piece<'a, T> {
    /// Nothing that counts.
    Gap(&'a str),
    Token(T, &'a str),
    /// A fault, so many bytes on.
    Fault(FaultKind, usize),
}
