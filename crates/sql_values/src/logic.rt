//! Three-valued logic: what is known of a condition is true, false, or nothing.

ghost use Rattle.std.specs.Prelude.{◌≡◌, ◌≢◌, Ok, Err, IsErrOf, Some, true, false, not, option_map, if◌then◌else◌};
ghost use Rattle.std.specs.Option.{option_map_or};
ghost use Rattle.sql_values.specs.declared.value.Value.TheVariants.{Null as SqlNull, Bool as SqlBool};
ghost use Rattle.sql_values.specs.Values.{is_null};
ghost use Rattle.sql_values.specs.Logic.{truth, is_test, condition, decided_by};
ghost use Rattle.sql_values.specs.Inner.Asked.{truth_asked};

use crate::fault::ValueFault;
use crate::value::Value;
use sql_trees::Truth;

/// A value as a condition: a boolean, or NULL.
pub fn truth<'a>(value: &Value) -> Result<Option<bool>, ValueFault<'a>>
    ensures known { result ≡ truth value.now }
    ensures never { result ≢ Err ValueFault.Memory }
{
    match value {
        Value::Null => Ok(None),
        Value::Bool(b) => Ok(Some(*b)),
        _ => Err(ValueFault::TypeMismatch),
    }
}

pub fn boolean(known: Option<bool>) -> Value
    ensures { result ≡ option_map_or SqlBool known SqlNull }
{
    match known {
        None => Value::Null,
        Some(b) => Value::Bool(b),
    }
}

pub fn or(a: Option<bool>, b: Option<bool>) -> Option<bool>
    ensures { decided_by true (Ok a) (Ok b) ≡ Ok result }
{
    match (a, b) {
        (Some(true), _) | (_, Some(true)) => Some(true),
        (Some(false), Some(false)) => Some(false),
        _ => None,
    }
}

pub fn and(a: Option<bool>, b: Option<bool>) -> Option<bool>
    ensures { decided_by false (Ok a) (Ok b) ≡ Ok result }
{
    match (a, b) {
        (Some(false), _) | (_, Some(false)) => Some(false),
        (Some(true), Some(true)) => Some(true),
        _ => None,
    }
}

/// The negation where the flag says so.
fn not_if(negated: bool, known: Option<bool>) -> Option<bool>
    ensures { result ≡ option_map (λ b. if negated then not b else b) known }
{
    match known {
        Some(b) => Some(b != negated),
        None => None,
    }
}

/// The value of a condition, or of its negation where the flag says so.
pub fn condition<'a>(
    negated: bool,
    known: Result<Option<bool>, ValueFault<'a>>,
) -> Result<Value, ValueFault<'a>>
    ensures value { result ≡ condition negated known.entry }
    ensures memory { IsErrOf result ValueFault.Memory → known.entry ≡ Err ValueFault.Memory }
{
    match known {
        Ok(known) => Ok(boolean(not_if(negated, known))),
        Err(fault) => Err(fault),
    }
}

/// Whether `IS` finds in a condition what it asks for.
fn asks(truth: Truth, known: Option<bool>) -> bool
    ensures { result ≡ truth_asked truth known }
{
    match (truth, known) {
        (Truth::Null | Truth::Unknown, known) => known.is_none(),
        (Truth::True, Some(b)) => b,
        (Truth::False, Some(b)) => !b,
        (Truth::True | Truth::False, None) => false,
    }
}

/// What `IS` answers of a value: `IS NULL` of any, the others of a condition.
pub fn is_test<'a>(asked: Truth, value: &Value) -> Result<Option<bool>, ValueFault<'a>>
    ensures known { result ≡ is_test asked value.now }
    ensures never { result ≢ Err ValueFault.Memory }
{
    match asked {
        Truth::Null => Ok(Some(matches!(value, Value::Null))),
        _ => Ok(Some(asks(asked, truth(value)?))),
    }
}
