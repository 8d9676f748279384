//! Codes of keys.
ghost use Rattle.std.specs.Prelude.{◌≡◌, slice_get};
ghost use Rattle.std.specs.Option.{option_copied};
ghost use Rattle.unique_keys.specs.Inner.Codes.{bytes_code, key_code, mix, value_code};

use row_versions::TableId;
use sql_values::Value;

/// The number behind the code, which makes a new code.
#[tactic(auto, unfolding(crate::specs::Inner::Codes::mix))]
pub fn mix(code: u64, number: u64) -> u64
    ensures { result ≡ mix code number }
{
    code.wrapping_mul(1_000_003).wrapping_add(number)
}

fn bytes_code(bytes: &[u8]) -> u64
    ensures { result ≡ bytes_code 1 bytes.now }
{
    let mut code = 1;
    for byte in bytes {
        code = mix(code, u64::from(*byte));
    }
    code
}

/// The code of a value: an integer and a bigint of one value have one, NULL has none.
fn value_code(value: Option<&Value>) -> Option<u64>
    ensures { result ≡ value_code (option_copied value.entry) }
{
    match value {
        None | Some(Value::Null) => None,
        Some(Value::Int(n)) => Some(i64::from(*n).cast_unsigned()),
        Some(Value::Big(n)) => Some(n.cast_unsigned()),
        Some(Value::Text(text)) => Some(bytes_code(text.as_str().as_bytes())),
        Some(Value::Bool(b)) => Some(u64::from(*b)),
    }
}

fn code_at(row: &[Value], column: u32) -> Option<u64>
    ensures { result ≡ value_code (slice_get row.now column) }
{
    value_code(row.get(column as usize))
}

/// The code of the row's key of these columns of the table. A key with a NULL has none.
pub fn key_code(table: TableId, columns: &[u32], row: &[Value]) -> Option<u64>
    ensures { result ≡ key_code table columns.now row.now }
{
    let mut code = table.0;
    for column in columns {
        match code_at(row, *column) {
            Some(number) => code = mix(mix(code, u64::from(*column)), number),
            None => return None,
        }
    }
    Some(code)
}
