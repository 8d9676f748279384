//! Expressions bound to the columns of a table: each column is looked up once, and not again at each row.

ghost use Rattle.std.specs.Prelude.{◌≡◌, ◌≢◌, length, option_map, true, false, Ok, Err, IfOk, IsErrOf, IsTrue, MatchResult, OnErr, Some, unwrap_or, slice_get};
ghost use Rattle.sql_trees.specs.Trees.{Tree, tree_of};
ghost use Rattle.sql_values.specs.declared.value.Value.TheVariants.{Null};
ghost use Rattle.sql_values.specs.Values.{Answers};
ghost use Rattle.sql_values.specs.Expressions.{value, passes};
ghost use Rattle.sql_values.specs.Growing.{may_grow};
ghost use Rattle.sql_values.specs.Sorting.{key};
ghost use Rattle.sql_values.specs.Inner.Bound.{IsFormOf, asks, lent, value_by_place};
ghost use Rattle.sql_values.specs.Inner.Connectives.{binary};

use crate::arithmetic::number;
use crate::columns::Columns;
use crate::evaluation::eval;
use crate::fault::ValueFault;
use crate::lent::Lent;
use crate::literal::literal;
use crate::logic::{and, boolean, or, truth};
use crate::operation::operate;
use crate::row::Row;
use crate::value::Value;
use sql_trees::{Expr, Operator};
use std::alloc::{AllocError, Global};
use std::marker::Model;

/// How an expression is evaluated at a row.
#[derive(Drop)]
pub enum Form<'e, 'a> {
    /// As it is written: its columns are looked up at each row.
    Written(&'e Expr<'a>),
    /// It has this value at each row.
    Constant(Value),
    /// It has the row's value at this place.
    Column(usize),
    Binary(Operator, Box<Form<'e, 'a>>, Box<Form<'e, 'a>>),
}

/// An expression with the columns of the rows that it is evaluated at.
#[derive(Drop)]
pub struct Bound<'e, 'a> {
    expr: &'e Expr<'a>,
    columns: &'e Columns<'e>,
    form: Form<'e, 'a>,
}

impl<'e, 'a> Model for Bound<'e, 'a> {
    ghost use Rattle.std.specs.Prelude.{[]};
    ghost use Rattle.std.specs.Coded.{codes};
    ghost use mir.Syntax.{named};
    ghost use Rattle.sql_trees.specs.contracts.expr.Expr as code;
    ghost use Rattle.sql_trees.specs.Trees.{tree_of};
    ghost use Rattle.sql_values.specs.Bound.{BoundExpr};
    ghost use Rattle.sql_values.specs.Inner.Bound.{IsBoundAs};

    ghost Value = { BoundExpr };

    ghost coded = { Prim.hlevel (codes, (code.the_row (record { mir = named 1; lft = [] })).coded) };

    ghost view = { λ b. record { expr = b.expr.now; columns = b.columns.now } };

    ghost invariant = { λ b. IsBoundAs b.columns.now (tree_of b.expr.now) b.form };
}

/// Whether there is something to look up once: a column, or a string, outside of NOT, IS, IN and BETWEEN.
fn is_worth_it(expr: &Expr<'_>) -> bool
    ensures { result ≡ true → may_grow (tree_of expr.now) ≡ true }
{
    match expr {
        Expr::Column(_) | Expr::Text(_) => true,
        Expr::Binary(_, a, b) => is_worth_it(a) || is_worth_it(b),
        _ => false,
    }
}

/// The form in which the columns are looked up, and constants are made.
#[tactic(auto, using(crate::proofs::ByPlace::at_its_place, crate::proofs::ByPlace::of_both))]
fn form_of<'e, 'a>(
    alloc: Global,
    expr: &'e Expr<'a>,
    cols: &Columns<'_>,
) -> Result<Form<'e, 'a>, AllocError>
    ensures { IfOk result (IsFormOf cols.now (tree_of expr.now)) }
{
    match expr {
        Expr::Column(name) => match cols.place(name) {
            Some(place) => Ok(Form::Column(place)),
            None => Ok(Form::Written(expr)),
        },
        Expr::Number { negative, digits } => match number(*negative, *digits) {
            Ok(value) => Ok(Form::Constant(value)),
            Err(_) => Ok(Form::Written(expr)),
        },
        Expr::Text(written) => match literal(alloc, written) {
            Ok(value) => Ok(Form::Constant(value)),
            Err(_) => Ok(Form::Written(expr)),
        },
        Expr::Binary(operator, a, b) => {
            let a = Box::new(alloc, form_of(alloc, a, cols)?)?;
            let b = Box::new(alloc, form_of(alloc, b, cols)?)?;
            Ok(Form::Binary(*operator, a, b))
        }
        _ => Ok(Form::Written(expr)),
    }
}

/// The row's value at that place, or NULL where it has none.
fn at_place<'r>(place: usize, row: &'r Row) -> Lent<'r>
    ensures { lent result ≡ key place row.now }
{
    match row.values().get(place) {
        Some(value) => Lent::Of(value),
        None => Lent::Made(Value::Null),
    }
}

/// The value of the form at the row, which has the columns.
#[cycle(lent)]
fn lent_at<'r, 'e, 'a>(
    alloc: Global,
    form: &'r Form<'e, 'a>,
    cols: &Columns<'_>,
    row: &'r Row,
) -> Result<Lent<'r>, ValueFault<'a>>
    requires { length row.now ≡ length cols.now }
    ensures value { MatchResult result (λ v. value_by_place form.now cols.now row.now ≡ Ok (lent v)) (λ fault. fault ≢ ValueFault.Memory → value_by_place form.now cols.now row.now ≡ Err fault) }
    ensures memory { IsErrOf result ValueFault.Memory → asks form.now ≡ true }
{
    match form {
        Form::Written(expr) => Ok(Lent::Made(eval(alloc, expr, cols, row)?)),
        Form::Constant(value) => Ok(Lent::Of(value)),
        Form::Column(place) => Ok(at_place(*place, row)),
        Form::Binary(operator, a, b) => {
            let a = lent_at(alloc, a, cols, row)?;
            Ok(Lent::Made(binary(alloc, *operator, a.value(), b, cols, row)?))
        }
    }
}

/// An operator on a value and on that of the form, which is not evaluated where OR or AND is decided.
#[cycle(lent)]
fn binary<'a>(
    alloc: Global,
    operator: Operator,
    left: &Value,
    right: &Form<'_, 'a>,
    cols: &Columns<'_>,
    row: &Row,
) -> Result<Value, ValueFault<'a>>
    requires { length row.now ≡ length cols.now }
    ensures { Answers result (binary operator (Ok left.now) (value_by_place right.now cols.now row.now)) }
{
    match operator {
        Operator::Or => {
            let left = truth(left)?;
            if let Some(true) = left {
                return Ok(Value::Bool(true));
            }
            let right = lent_at(alloc, right, cols, row)?;
            Ok(boolean(or(left, truth(right.value())?)))
        }
        Operator::And => {
            let left = truth(left)?;
            if let Some(false) = left {
                return Ok(Value::Bool(false));
            }
            let right = lent_at(alloc, right, cols, row)?;
            Ok(boolean(and(left, truth(right.value())?)))
        }
        _ => {
            let right = lent_at(alloc, right, cols, row)?;
            operate(alloc, operator, left, right.value())
        }
    }
}

impl<'e, 'a> Bound<'e, 'a> {
    /// The expression, for rows of these columns.
    pub fn of(
        alloc: Global,
        expr: &'e Expr<'a>,
        columns: &'e Columns<'e>,
    ) -> Result<Bound<'e, 'a>, AllocError>
        ensures bound { IfOk result (λ b. b ≡ record { expr = expr.now; columns = columns.now }) }
        ensures memory { OnErr result (may_grow (tree_of expr.now) ≡ true) }
    {
        let form = if is_worth_it(expr) {
            form_of(alloc, expr, columns)?
        } else {
            Form::Written(expr)
        };
        Ok(Bound {
            expr,
            columns,
            form,
        })
    }

    /// The value of the expression at the row.
    pub fn value(&self, alloc: Global, row: &Row) -> Result<Value, ValueFault<'a>>
        requires { length row.now ≡ length self.now.columns }
        ensures { Answers result (value (tree_of self.now.expr) self.now.columns row.now) }
    {
        let value = lent_at(alloc, &self.form, self.columns, row)?;
        Ok(value.owned(alloc)?)
    }

    /// Whether a WHERE of the expression passes the row.
    pub fn passes(&self, alloc: Global, row: &Row) -> Result<bool, ValueFault<'a>>
        requires { length row.now ≡ length self.now.columns }
        ensures exact { Answers result (passes (Some (tree_of self.now.expr)) self.now.columns row.now) }
        ensures memory { IsErrOf result ValueFault.Memory → may_grow (tree_of self.now.expr) ≡ true }
    {
        let value = lent_at(alloc, &self.form, self.columns, row)?;
        Ok(truth(value.value())? == Some(true))
    }
}
