//! A token's place.

/// The bytes from `start` up to `end`.
#[derive(Clone, Copy)]
pub struct Span {
    pub start: usize,
    pub end: usize,
}

/// A token, and where it stands.
#[derive(Clone, Copy)]
pub struct At<T> {
    pub tok: T,
    pub span: Span,
}
