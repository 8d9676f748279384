use sql_trees::Expr;

/// An expression, and its depth as it was written.
#[derive(Drop)]
pub struct Parsed<'a> {
    pub expr: Box<Expr<'a>>,
    pub depth: usize,
}
