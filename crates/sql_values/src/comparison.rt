//! How two values compare.

ghost use Rattle.std.specs.Prelude.{◌≡◌};
ghost use Rattle.sql_values.specs.Values.{compare};

use crate::value::Value;
use std::cmp::Ordering;

/// The order of two values: numbers by size, texts by their bytes, false before true. NULL compares with nothing, nor does a value of another kind.
pub fn compare(a: &Value, b: &Value) -> Option<Ordering>
    ensures { result ≡ compare a.now b.now }
{
    match (a, b) {
        (Value::Int(a), Value::Int(b)) => Some(a.cmp(b)),
        (Value::Int(a), Value::Big(b)) => Some((*a as i64).cmp(b)),
        (Value::Big(a), Value::Int(b)) => Some(a.cmp(&(*b as i64))),
        (Value::Big(a), Value::Big(b)) => Some(a.cmp(b)),
        (Value::Text(a), Value::Text(b)) => Some(a.as_str().cmp(b.as_str())),
        (Value::Bool(a), Value::Bool(b)) => Some(a.cmp(b)),
        _ => None,
    }
}
