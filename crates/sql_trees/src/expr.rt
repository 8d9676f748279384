//! The trees of expressions.

use iso_lexer::Name;

#[derive(Clone, Copy, PartialEq, Eq)]
pub enum Operator {
    Or,
    And,
    Equal,
    NotEqual,
    Less,
    AtMost,
    Greater,
    AtLeast,
    Concat,
    Add,
    Subtract,
    Multiply,
    Divide,
    Remainder,
}

/// What an `IS` asks for.
#[derive(Clone, Copy, PartialEq, Eq)]
pub enum Truth {
    Null,
    True,
    False,
    Unknown,
}

/// An expression. Its names and strings are slices of the text, as they are written.
#[derive(Drop)]
pub enum Expr<'a> {
    Null,
    Bool(bool),
    /// A whole number by its digits' value, below 0 where the flag says so.
    Number { negative: bool, digits: u64 },
    /// What stands between the quotes of a string; a doubled quote stands for one.
    Text(&'a str),
    Column(Name<'a>),
    Plus(Box<Expr<'a>>),
    Minus(Box<Expr<'a>>),
    Not(Box<Expr<'a>>),
    Binary(Operator, Box<Expr<'a>>, Box<Expr<'a>>),
    /// The flag says `NOT`.
    Is(Box<Expr<'a>>, bool, Truth),
    /// The flag says `NOT`.
    In(Box<Expr<'a>>, bool, Vec<Expr<'a>>),
    /// The flag says `NOT`; then the lower and the upper end.
    Between(Box<Expr<'a>>, bool, Box<Expr<'a>>, Box<Expr<'a>>),
}

#[derive(Clone, Copy, PartialEq, Eq)]
pub enum AggKind {
    Count,
    Sum,
    Min,
    Max,
}

/// An aggregate.
#[derive(Drop)]
pub enum Agg<'a> {
    /// `count(*)`
    CountRows,
    Of(AggKind, Expr<'a>),
}
