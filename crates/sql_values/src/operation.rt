//! Operators on two values.

ghost use Rattle.std.specs.Prelude.{◌≡◌, ◌≢◌, ◌++◌, Err, IfOk, IsErrOf, ◌↔◌, IsTrue};
ghost use Rattle.sql_trees.specs.declared.expr.Operator.TheVariants.{Concat};
ghost use Rattle.sql_values.specs.Values.{Answers, is_null};
ghost use Rattle.sql_values.specs.Expressions.{operate};
ghost use Rattle.sql_values.specs.Inner.Operators.{holds, comparison, operation};

use crate::arithmetic::arithmetic;
use crate::comparison::compare;
use crate::fault::ValueFault;
use crate::text::Text;
use crate::value::Value;
use sql_trees::Operator;
use std::alloc::{AllocError, Global};
use std::cmp::Ordering;

pub fn is_null(value: &Value) -> bool
    ensures { result ≡ is_null value.now }
{
    matches!(value, Value::Null)
}

/// Two texts, one after the other.
fn joined(alloc: Global, a: &Text, b: &Text) -> Result<Text, AllocError>
    ensures { IfOk result (λ text. text ≡ a.now ++ b.now) }
{
    let (a, b) = (a.as_str(), b.as_str());
    let mut text = String::with_capacity(alloc, a.len())?;
    text.push_str(a)?;
    text.push_str(b)?;
    Ok(Text::from_string(text))
}

fn concatenation<'a>(alloc: Global, a: &Value, b: &Value) -> Result<Value, ValueFault<'a>>
    ensures { Answers result (operation Concat a.now b.now) }
{
    match (a, b) {
        (Value::Text(a), Value::Text(b)) => Ok(Value::Text(joined(alloc, a, b)?)),
        _ => Err(ValueFault::TypeMismatch),
    }
}

/// Whether a comparison holds of an order.
fn holds(operator: Operator, order: Ordering) -> bool
    ensures { result ≡ holds operator order }
{
    match operator {
        Operator::Equal => order.is_eq(),
        Operator::NotEqual => order.is_ne(),
        Operator::Less => order.is_lt(),
        Operator::AtMost => order.is_le(),
        Operator::Greater => order.is_gt(),
        Operator::AtLeast => order.is_ge(),
        _ => false,
    }
}

fn comparison<'a>(operator: Operator, a: &Value, b: &Value) -> Result<Value, ValueFault<'a>>
    ensures value { result ≡ comparison operator a.now b.now }
    ensures never { result ≢ Err ValueFault.Memory }
{
    match compare(a, b) {
        Some(order) => Ok(Value::Bool(holds(operator, order))),
        None => Err(ValueFault::TypeMismatch),
    }
}

fn operation<'a>(
    alloc: Global,
    operator: Operator,
    a: &Value,
    b: &Value,
) -> Result<Value, ValueFault<'a>>
    ensures value { Answers result (operation operator a.now b.now) }
    ensures memory { IsErrOf result ValueFault.Memory → operator ≡ Concat }
{
    match operator {
        Operator::Equal
        | Operator::NotEqual
        | Operator::Less
        | Operator::AtMost
        | Operator::Greater
        | Operator::AtLeast => comparison(operator, a, b),
        Operator::Concat => concatenation(alloc, a, b),
        _ => arithmetic(operator, a, b),
    }
}

/// An operator other than AND and OR on two values: NULL with a NULL.
pub fn operate<'a>(
    alloc: Global,
    operator: Operator,
    a: &Value,
    b: &Value,
) -> Result<Value, ValueFault<'a>>
    ensures value { Answers result (operate operator a.now b.now) }
    ensures memory { IsErrOf result ValueFault.Memory → operator ≡ Concat }
{
    if is_null(a) || is_null(b) {
        return Ok(Value::Null);
    }
    operation(alloc, operator, a, b)
}
