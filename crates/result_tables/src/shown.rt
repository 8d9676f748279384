//! What titles and values show in a table.

ghost use Rattle.std.specs.Prelude.{◌≡◌, ℕ, List, ◌++◌, length, OnOk};
ghost use Rattle.std.specs.Fmt.{signed_decimal};
ghost use Rattle.result_tables.specs.Printed.{printed};
ghost use Rattle.result_tables.specs.Titles.{title_text};
ghost use Rattle.result_tables.specs.Inner.Columns.{is_textual};

use crate::name_bytes::{append_name, name_len};
use crate::numeric::is_numeric;
use itoa::Buffer;
use query_results::Title;
use sql_values::Value;
use std::alloc::AllocError;

/// What fills a cell of a table.
pub trait Shown {
    /// The bytes that it shows.
    ghost shown: { Self → List ℕ };

    fn shown_len(&self) -> usize
        ensures { result ≡ length (shown self.now) };

    fn append_to(&self, line: &mut Vec<u8>) -> Result<(), AllocError>
        ensures { OnOk result (line.new.items ≡ line.old.items ++ shown self.now) };
}

impl Shown for Title<'_> {
    ghost shown = { title_text };

    fn shown_len(&self) -> usize {
        match self {
            Title::Column(name) => name_len(&name.name()),
            Title::Unnamed => "?column?".len(),
            Title::Count => "count".len(),
            Title::Sum => "sum".len(),
            Title::Min => "min".len(),
            Title::Max => "max".len(),
        }
    }

    fn append_to(&self, line: &mut Vec<u8>) -> Result<(), AllocError> {
        match self {
            Title::Column(name) => append_name(line, &name.name()),
            Title::Unnamed => line.extend_from_slice(b"?column?"),
            Title::Count => line.extend_from_slice(b"count"),
            Title::Sum => line.extend_from_slice(b"sum"),
            Title::Min => line.extend_from_slice(b"min"),
            Title::Max => line.extend_from_slice(b"max"),
        }
    }
}

fn decimal_len(number: i64) -> usize
    ensures { result ≡ length (signed_decimal number) }
{
    Buffer::new().format(number).len()
}

fn append_decimal(line: &mut Vec<u8>, number: i64) -> Result<(), AllocError>
    ensures { OnOk result (line.new.items ≡ line.old.items ++ signed_decimal number) }
{
    line.extend_from_slice(Buffer::new().format(number).as_bytes())
}

impl Shown for Value {
    ghost shown = { printed };

    fn shown_len(&self) -> usize {
        match self {
            Value::Null => 0,
            Value::Int(number) => decimal_len(i64::from(*number)),
            Value::Big(number) => decimal_len(*number),
            Value::Text(text) => text.as_str().len(),
            Value::Bool(_) => 1,
        }
    }

    fn append_to(&self, line: &mut Vec<u8>) -> Result<(), AllocError> {
        match self {
            Value::Null => Ok(()),
            Value::Int(number) => append_decimal(line, i64::from(*number)),
            Value::Big(number) => append_decimal(line, *number),
            Value::Text(text) => line.extend_from_slice(text.as_str().as_bytes()),
            Value::Bool(holds) => line.extend_from_slice(if *holds { b"t" } else { b"f" }),
        }
    }
}

/// A number in decimal is never a word.
fn decimal_is_word(number: i64) -> bool
    ensures { result ≡ is_textual (signed_decimal number) }
{
    let _ = number;
    false
}

/// Whether a value prints some text that is no number.
pub fn shows_word(value: &Value) -> bool
    ensures { result ≡ is_textual (printed value.now) }
{
    match value {
        Value::Null => false,
        Value::Int(number) => decimal_is_word(i64::from(*number)),
        Value::Big(number) => decimal_is_word(*number),
        Value::Text(text) => {
            let bytes = text.as_str().as_bytes();
            !bytes.is_empty() && !is_numeric(bytes)
        }
        Value::Bool(_) => true,
    }
}
