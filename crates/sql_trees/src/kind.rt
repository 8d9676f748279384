//! Kinds of values, and directions of sorting.

/// The kind of a column.
#[derive(Clone, Copy, PartialEq, Eq)]
pub enum Kind {
    /// integer, of 32 bits
    Int,
    /// bigint, of 64 bits
    Big,
    Text,
    Bool,
}

/// How the values of one key are sorted.
#[derive(Clone, Copy, PartialEq, Eq)]
pub struct Dir {
    pub desc: bool,
    pub nulls_first: bool,
}
