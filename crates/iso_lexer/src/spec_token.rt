//! Tokens of spec files.

use crate::name::Name;

#[derive(Clone, Copy, PartialEq, Eq)]
pub enum Keyword {
    Permutation,
    Session,
    Setup,
    Step,
    Teardown,
    Notices,
}

#[derive(Clone, Copy, PartialEq, Eq)]
pub enum Sign {
    Open,
    Close,
    Comma,
    Star,
}

/// A token of a spec file, over slices of the file.
#[derive(Clone, Copy)]
pub enum SpecTok<'a> {
    Keyword(Keyword),
    Name(Name<'a>),
    Digits(&'a str),
    Sign(Sign),
    /// What stands between the braces: so many blanks, which count for nothing, and then the text, without the
    /// blanks at its end.
    Block { blanks: usize, sql: &'a str },
}
