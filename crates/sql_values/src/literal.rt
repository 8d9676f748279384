//! The texts that string literals stand for.

ghost use Rattle.std.specs.Prelude.{◌≡◌, [], IfOk, MatchOption, true, false};
ghost use Rattle.std.specs.Str.{is_utf8};
ghost use Rattle.sql_trees.specs.Trees.{undoubled, Text as TextTree};
ghost use Rattle.sql_values.specs.Values.{Answers};
ghost use Rattle.sql_values.specs.Expressions.{value};

use crate::fault::ValueFault;
use crate::text::Text;
use crate::value::Value;
use std::alloc::{AllocError, Global};

/// What stands between the quotes of a string, where a doubled quote is one.
#[tactic(auto, unfolding(sql_trees::specs::Trees::undoubled))]
fn undoubled(alloc: Global, written: &str) -> Result<Vec<u8>, AllocError>
    ensures { IfOk result (λ bytes. bytes.items ≡ undoubled written.now) }
{
    let mut bytes = Vec::with_capacity(alloc, written.len())?;
    let mut left = written.as_bytes();
    while let Some((first, behind)) = left.split_first() {
        bytes.push(*first)?;
        left = match behind {
            [next, after @ ..] if *first == b'\'' && *next == b'\'' => after,
            _ => behind,
        };
    }
    Ok(bytes)
}

/// The bytes as a text, where they are UTF-8.
fn text_of(bytes: Vec<u8>) -> Option<Text>
    ensures { MatchOption result (is_utf8 bytes.items ≡ false) (λ text. (is_utf8 bytes.items ≡ true) × (text ≡ bytes.items)) }
{
    match String::from_utf8(bytes) {
        Ok(text) => Some(Text::from_string(text)),
        Err(_) => None,
    }
}

/// The value of a string literal, by what stands between its quotes.
pub fn literal<'a>(alloc: Global, written: &str) -> Result<Value, ValueFault<'a>>
    ensures { Answers result (value (TextTree (undoubled written.now)) [] []) }
{
    match text_of(undoubled(alloc, written)?) {
        Some(text) => Ok(Value::Text(text)),
        None => Err(ValueFault::TypeMismatch),
    }
}
