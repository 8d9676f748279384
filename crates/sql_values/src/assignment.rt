//! What a column takes.

ghost use Rattle.std.specs.Prelude.{◌≡◌};
ghost use Rattle.sql_values.specs.Values.{assign};

use crate::fault::ValueFault;
use crate::value::Value;
use sql_trees::Kind;

/// The value as a column of the kind takes it: NULL as it is, an integer as a bigint, a bigint as an integer where it has 32 bits, and otherwise a value of that kind alone.
pub fn assign<'a>(value: Value, kind: Kind) -> Result<Value, ValueFault<'a>>
    ensures { result ≡ assign value kind }
{
    match (value, kind) {
        (Value::Null, _) => Ok(Value::Null),
        (Value::Int(n), Kind::Int) => Ok(Value::Int(n)),
        (Value::Int(n), Kind::Big) => Ok(Value::Big(n as i64)),
        (Value::Big(n), Kind::Int) => match i32::try_from(n) {
            Ok(n) => Ok(Value::Int(n)),
            Err(_) => Err(ValueFault::IntegerRange),
        },
        (Value::Big(n), Kind::Big) => Ok(Value::Big(n)),
        (Value::Text(text), Kind::Text) => Ok(Value::Text(text)),
        (Value::Bool(b), Kind::Bool) => Ok(Value::Bool(b)),
        _ => Err(ValueFault::TypeMismatch),
    }
}
