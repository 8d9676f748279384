//! The example in the first comment of `sql_values`.

use crate::told::{at_last, holds, is_answer};
use sql_trees::{Expr, Operator};
use sql_values::{Columns, Row, Value, ValueFault, eval};
use std::alloc::{AllocError, Global};

fn joined(alloc: Global) -> Result<Value, ValueFault<'static>> {
    let a = Box::new(alloc, Expr::Text("a"))?;
    let b = Box::new(alloc, Expr::Text("b"))?;
    let expr = Expr::Binary(Operator::Concat, a, b);
    let columns = Columns::of(&[]);
    let row = Row::from_vec(Vec::new(alloc));
    eval(alloc, &expr, &columns, &row)
}

fn is_joined(alloc: Global) -> Result<bool, AllocError> {
    is_answer(joined(alloc), "text ab")
}

#[test]
fn an_expression_is_evaluated(rt: HostRuntime) {
    holds(&rt, at_last!(is_joined(rt.alloc())), "'a' || 'b'");
}
