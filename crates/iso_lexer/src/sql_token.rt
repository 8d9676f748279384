//! Tokens of SQL text.

#[derive(Clone, Copy, PartialEq, Eq)]
pub enum SqlSign {
    /// `<>` or `!=`
    NotEqual,
    /// `<=`
    AtMost,
    /// `>=`
    AtLeast,
    /// `||`
    Concat,
    /// `::`
    Cast,
    Open,
    Close,
    Comma,
    Semicolon,
    Plus,
    Minus,
    Star,
    Slash,
    Percent,
    Equal,
    Less,
    Greater,
    Dot,
}

/// A token of SQL text, over slices of the text.
#[derive(Clone, Copy)]
pub enum SqlTok<'a> {
    /// An unquoted word: a keyword in any case, or a name.
    Word(&'a str),
    /// What stands between the quotes of a quoted name; a doubled quote stands for one.
    Quoted(&'a str),
    /// What stands between the quotes of a string; a doubled quote stands for one.
    Text(&'a str),
    /// A whole number of at most 9223372036854775807.
    Number(u64),
    Sign(SqlSign),
}
