//! The value of an expression at a row.

ghost use Rattle.std.specs.Prelude.{◌≡◌, ◌≢◌, length, option_map, true, false, Ok, None, IfSome, IsErrOf};
ghost use Rattle.iso_lexer.specs.Names.{name_view, decoded};
ghost use Rattle.sql_trees.specs.Trees.{Tree, tree_of, trees, Binary, Column as NamedColumn};
ghost use Rattle.sql_trees.specs.declared.expr.Operator.TheVariants.{AtMost, Concat};
ghost use Rattle.sql_values.specs.Values.{Answers, if_ok};
ghost use Rattle.sql_values.specs.Logic.{decided_by};
ghost use Rattle.sql_values.specs.Expressions.{value, compares, is_among, passes};
ghost use Rattle.sql_values.specs.Growing.{may_grow, some_may_grow};
ghost use Rattle.sql_values.specs.Inner.Connectives.{binary};

use crate::arithmetic::{minus, number, plus};
use crate::columns::Columns;
use crate::fault::ValueFault;
use crate::literal::literal;
use crate::logic::{and, boolean, condition, is_test, or, truth};
use crate::operation::operate;
use crate::row::Row;
use crate::value::Value;
use iso_lexer::{Ident, Name};
use sql_trees::{Expr, Operator};
use std::alloc::Global;

/// The value of the first column of that name.
fn column<'a>(
    alloc: Global,
    name: &Name<'a>,
    cols: &Columns<'_>,
    row: &Row,
) -> Result<Value, ValueFault<'a>>
    requires { length row.now ≡ length cols.now }
    ensures { Answers result (value (NamedColumn (decoded (name_view name.now))) cols.now row.now) }
{
    match cols.place(name) {
        Some(i) => Ok(row.values()[i].copied(alloc)?),
        None => Err(ValueFault::NoColumn(Ident::new(*name))),
    }
}

/// The value of the expression at the row, which has the columns.
#[cycle(eval)]
#[tactic(auto, using(crate::proofs::Growing::or_left, crate::proofs::Growing::or_right))]
pub fn eval<'a>(
    alloc: Global,
    expr: &Expr<'a>,
    cols: &Columns<'_>,
    row: &Row,
) -> Result<Value, ValueFault<'a>>
    requires { length row.now ≡ length cols.now }
    ensures value { Answers result (value (tree_of expr.now) cols.now row.now) }
    ensures memory { IsErrOf result ValueFault.Memory → may_grow (tree_of expr.now) ≡ true }
{
    match expr {
        Expr::Null => Ok(Value::Null),
        Expr::Bool(b) => Ok(Value::Bool(*b)),
        Expr::Number { negative, digits } => number(*negative, *digits),
        Expr::Text(written) => literal(alloc, written),
        Expr::Column(name) => column(alloc, name, cols, row),
        Expr::Plus(a) => plus(eval(alloc, a, cols, row)?),
        Expr::Minus(a) => minus(eval(alloc, a, cols, row)?),
        Expr::Not(a) => condition(true, truth(&eval(alloc, a, cols, row)?)),
        Expr::Binary(operator, a, b) => {
            binary(alloc, *operator, &eval(alloc, a, cols, row)?, b, cols, row)
        }
        Expr::Is(a, negated, asked) => {
            condition(*negated, is_test(*asked, &eval(alloc, a, cols, row)?))
        }
        Expr::In(a, negated, items) => {
            let a = eval(alloc, a, cols, row)?;
            condition(*negated, is_among(alloc, &a, items, cols, row))
        }
        Expr::Between(a, negated, low, high) => {
            let a = eval(alloc, a, cols, row)?;
            let above = compares(alloc, Operator::AtLeast, &a, low, cols, row)?;
            condition(*negated, is_at_most_too(alloc, above, &a, high, cols, row))
        }
    }
}

/// An operator on a value and on that of the expression, which is not evaluated where OR or AND is decided.
#[cycle(eval)]
fn binary<'a>(
    alloc: Global,
    operator: Operator,
    left: &Value,
    right: &Expr<'a>,
    cols: &Columns<'_>,
    row: &Row,
) -> Result<Value, ValueFault<'a>>
    requires { length row.now ≡ length cols.now }
    ensures value { Answers result (binary operator (Ok left.now) (value (tree_of right.now) cols.now row.now)) }
    ensures memory { IsErrOf result ValueFault.Memory → (left : Tree) → may_grow (Binary operator left (tree_of right.now)) ≡ true }
{
    match operator {
        Operator::Or => {
            let left = truth(left)?;
            if let Some(true) = left {
                return Ok(Value::Bool(true));
            }
            let right = eval(alloc, right, cols, row)?;
            Ok(boolean(or(left, truth(&right)?)))
        }
        Operator::And => {
            let left = truth(left)?;
            if let Some(false) = left {
                return Ok(Value::Bool(false));
            }
            let right = eval(alloc, right, cols, row)?;
            Ok(boolean(and(left, truth(&right)?)))
        }
        _ => {
            let right = eval(alloc, right, cols, row)?;
            operate(alloc, operator, left, &right)
        }
    }
}

/// Whether the comparison holds of the value and of that of the expression.
#[cycle(eval)]
fn compares<'a>(
    alloc: Global,
    operator: Operator,
    left: &Value,
    right: &Expr<'a>,
    cols: &Columns<'_>,
    row: &Row,
) -> Result<Option<bool>, ValueFault<'a>>
    requires { length row.now ≡ length cols.now }
    ensures known { Answers result (compares operator left.now (value (tree_of right.now) cols.now row.now)) }
    ensures memory { IsErrOf result ValueFault.Memory → operator ≢ Concat → may_grow (tree_of right.now) ≡ true }
{
    let right = eval(alloc, right, cols, row)?;
    truth(&operate(alloc, operator, left, &right)?)
}

/// Whether what is known holds and the value is at most that of the expression, which is not evaluated where that is decided.
#[cycle(eval)]
fn is_at_most_too<'a>(
    alloc: Global,
    above: Option<bool>,
    left: &Value,
    high: &Expr<'a>,
    cols: &Columns<'_>,
    row: &Row,
) -> Result<Option<bool>, ValueFault<'a>>
    requires { length row.now ≡ length cols.now }
    ensures known { Answers result (decided_by false (Ok above) (compares AtMost left.now (value (tree_of high.now) cols.now row.now))) }
    ensures memory { IsErrOf result ValueFault.Memory → may_grow (tree_of high.now) ≡ true }
{
    if let Some(false) = above {
        return Ok(Some(false));
    }
    Ok(and(
        above,
        compares(alloc, Operator::AtMost, left, high, cols, row)?,
    ))
}

/// Whether the value is equal to that of one of the expressions: it goes from the left, and stops at an equal one.
#[cycle(eval)]
#[tactic(auto, using(crate::proofs::Growing::some_at))]
fn is_among<'a>(
    alloc: Global,
    left: &Value,
    items: &[Expr<'a>],
    cols: &Columns<'_>,
    row: &Row,
) -> Result<Option<bool>, ValueFault<'a>>
    requires { length row.now ≡ length cols.now }
    ensures known { Answers result (is_among (trees items.now) left.now cols.now row.now) }
    ensures memory { IsErrOf result ValueFault.Memory → some_may_grow (trees items.now) ≡ true }
{
    let mut unknown = false;
    for item in items {
        match compares(alloc, Operator::Equal, left, item, cols, row)? {
            Some(true) => return Ok(Some(true)),
            Some(false) => {}
            None => unknown = true,
        }
    }
    Ok(if unknown { None } else { Some(false) })
}

/// Whether WHERE passes the row: its condition is true there, or it has none.
pub fn passes<'a>(
    alloc: Global,
    filter: Option<&Expr<'a>>,
    cols: &Columns<'_>,
    row: &Row,
) -> Result<bool, ValueFault<'a>>
    requires { length row.now ≡ length cols.now }
    ensures exact { Answers result (passes (option_map (λ expr. tree_of expr.now) filter.entry) cols.now row.now) }
    // Without a condition there is nothing to grow.
    ensures unasked { filter.entry ≡ None → result ≡ Ok true }
    ensures memory { IsErrOf result ValueFault.Memory → IfSome filter.entry (λ expr. may_grow (tree_of expr.now) ≡ true) }
{
    let Some(filter) = filter else {
        return Ok(true);
    };
    let value = eval(alloc, filter, cols, row)?;
    Ok(truth(&value)? == Some(true))
}
