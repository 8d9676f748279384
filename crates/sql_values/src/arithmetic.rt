//! Arithmetic on whole numbers.

ghost use Rattle.std.specs.Prelude.{◌≡◌, ◌≢◌, ◌||◌, pos, is_some, Ok, Err, if◌then◌else◌};
ghost use Rattle.sql_trees.specs.declared.expr.Operator.TheVariants.{Subtract};
ghost use Rattle.sql_values.specs.declared.value.Value.TheVariants.{Int as SqlInt};
ghost use Rattle.sql_values.specs.Values.{integer, bigint, is_null, number_of};
ghost use Rattle.sql_values.specs.Arithmetic.{signed};
ghost use Rattle.sql_values.specs.Expressions.{operate};
ghost use Rattle.sql_values.specs.Inner.Operators.{calculate, arithmetic, number};

use crate::fault::ValueFault;
use crate::value::Value;
use sql_trees::Operator;

/// The number as an integer, where it has 32 bits.
fn integer<'a>(z: i128) -> Result<Value, ValueFault<'a>>
    ensures value { result ≡ integer z }
    ensures never { result ≢ Err ValueFault.Memory }
{
    match i32::try_from(z) {
        Ok(n) => Ok(Value::Int(n)),
        Err(_) => Err(ValueFault::IntegerRange),
    }
}

/// The number as a bigint, where it has 64 bits.
pub fn bigint<'a>(z: i128) -> Result<Value, ValueFault<'a>>
    ensures value { result ≡ bigint z }
    ensures never { result ≢ Err ValueFault.Memory }
{
    match i64::try_from(z) {
        Ok(n) => Ok(Value::Big(n)),
        Err(_) => Err(ValueFault::BigintRange),
    }
}

/// The exact result.
fn calculate<'a>(operator: Operator, a: i64, b: i64) -> Result<i128, ValueFault<'a>>
    ensures value { result ≡ calculate operator a b }
    ensures never { result ≢ Err ValueFault.Memory }
{
    let (a, b) = (a as i128, b as i128);
    match operator {
        Operator::Add => Ok(a + b),
        Operator::Subtract => Ok(a - b),
        Operator::Multiply => Ok(a * b),
        Operator::Divide if b == 0 => Err(ValueFault::DivisionByZero),
        Operator::Divide => Ok(a / b),
        Operator::Remainder if b == 0 => Err(ValueFault::DivisionByZero),
        Operator::Remainder => Ok(a % b),
        _ => Err(ValueFault::TypeMismatch),
    }
}

/// An arithmetic operator on two values: of two integers an integer, with a bigint a bigint.
pub fn arithmetic<'a>(operator: Operator, a: &Value, b: &Value) -> Result<Value, ValueFault<'a>>
    ensures value { result ≡ arithmetic operator a.now b.now }
    ensures never { result ≢ Err ValueFault.Memory }
{
    match (a, b) {
        (Value::Int(a), Value::Int(b)) => integer(calculate(operator, *a as i64, *b as i64)?),
        (Value::Int(a), Value::Big(b)) => bigint(calculate(operator, *a as i64, *b)?),
        (Value::Big(a), Value::Int(b)) => bigint(calculate(operator, *a, *b as i64)?),
        (Value::Big(a), Value::Big(b)) => bigint(calculate(operator, *a, *b)?),
        _ => Err(ValueFault::TypeMismatch),
    }
}

/// The value behind a plus sign.
pub fn plus<'a>(value: Value) -> Result<Value, ValueFault<'a>>
    ensures value { result ≡ (if is_null value || is_some (number_of value) then Ok value else Err ValueFault.TypeMismatch) }
    ensures never { result ≢ Err ValueFault.Memory }
{
    match value {
        Value::Null => Ok(Value::Null),
        Value::Int(n) => Ok(Value::Int(n)),
        Value::Big(n) => Ok(Value::Big(n)),
        _ => Err(ValueFault::TypeMismatch),
    }
}

/// The value behind a minus sign.
#[tactic(auto, using(crate::proofs::Negation::from_zero))]
pub fn minus<'a>(value: Value) -> Result<Value, ValueFault<'a>>
    ensures value { result ≡ operate Subtract (SqlInt (pos 0)) value }
    ensures never { result ≢ Err ValueFault.Memory }
{
    match value {
        Value::Null => Ok(Value::Null),
        Value::Int(n) => integer(-(n as i128)),
        Value::Big(n) => bigint(-(n as i128)),
        _ => Err(ValueFault::TypeMismatch),
    }
}

/// A literal, by its sign and its size.
pub fn number<'a>(negative: bool, digits: u64) -> Result<Value, ValueFault<'a>>
    ensures value { result ≡ number (signed negative digits) }
    ensures never { result ≢ Err ValueFault.Memory }
{
    let size = digits as i128;
    let z = if negative { -size } else { size };
    match i32::try_from(z) {
        Ok(n) => Ok(Value::Int(n)),
        Err(_) => bigint(z),
    }
}
