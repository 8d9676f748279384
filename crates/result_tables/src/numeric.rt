//! Texts that look like numbers.

ghost use Rattle.std.specs.Prelude.{◌≡◌, ◌-◌, false, length};
ghost use Rattle.std.specs.List.{list_all, slice_get};
ghost use Rattle.std.specs.Option.{option_map_or};
ghost use Rattle.std.specs.Char.{is_ascii_digit};
ghost use Rattle.result_tables.specs.Numeric.{is_numeric};
ghost use Rattle.result_tables.specs.Inner.Numeric.{is_exponent, is_numeric_byte};

fn is_exponent(byte: u8) -> bool
    ensures { result ≡ is_exponent byte }
{
    byte == b'E' || byte == b'e'
}

fn is_numeric_byte(byte: u8) -> bool
    ensures { result ≡ is_numeric_byte byte }
{
    byte.is_ascii_digit() || byte == b'.' || is_exponent(byte) || byte == b' ' || byte == b'-'
}

fn starts_with_exponent(text: &[u8]) -> bool
    ensures { result ≡ option_map_or is_exponent (slice_get text.now 0) false }
{
    match text.first() {
        Some(byte) => is_exponent(*byte),
        None => false,
    }
}

fn ends_in_digit(text: &[u8]) -> bool
    ensures { result ≡ option_map_or is_ascii_digit (slice_get text.now (length text.now - 1)) false }
{
    match text.last() {
        Some(byte) => byte.is_ascii_digit(),
        None => false,
    }
}

fn has_numeric_bytes(text: &[u8]) -> bool
    ensures { result ≡ list_all is_numeric_byte text.now }
{
    text.iter().all(|byte| is_numeric_byte(*byte))
}

/// Whether a text looks like a number: digits, `.`, `E`, `e`, blanks and `-` alone, no `E` or `e` in front, and a digit
/// at its end.
pub fn is_numeric(text: &[u8]) -> bool
    ensures { result ≡ is_numeric text.now }
{
    has_numeric_bytes(text) && !starts_with_exponent(text) && ends_in_digit(text)
}
