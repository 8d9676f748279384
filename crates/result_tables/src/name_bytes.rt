//! The bytes that a name stands for.

ghost use Rattle.std.specs.Prelude.{◌≡◌, ◌+◌, ◌++◌, ◌∷◌, ◌<◌, [], length, map, MatchOption, OnOk};
ghost use Rattle.std.specs.Char.{to_ascii_lowercase};
ghost use Rattle.iso_lexer.specs.Names.{name_view, decoded, unquoted};
ghost use Rattle.result_tables.specs.Inner.NameBytes.{FirstUnquoted};

use iso_lexer::Name;
use std::alloc::AllocError;

/// The first byte that a part of a quoted name stands for, and the part behind it.
#[tactic(auto, unfolding(iso_lexer::specs::Names::unquoted))]
fn first_unquoted(part: &[u8]) -> Option<(u8, &[u8])>
    ensures { MatchOption result (unquoted part.now ≡ [])
        (λ x. FirstUnquoted part.now x.0 x.1.now) }
{
    let (first, rest) = part.split_first()?;
    match rest {
        [_, behind @ ..] if *first == b'"' => Some((*first, behind)),
        _ => Some((*first, rest)),
    }
}

fn unquoted_len(text: &[u8]) -> usize
    ensures { result ≡ length (unquoted text.now) }
{
    let mut count = 0;
    let mut rest = text;
    while let Some((_, behind)) = first_unquoted(rest) {
        count += 1;
        rest = behind;
    }
    count
}

fn append_unquoted(line: &mut Vec<u8>, text: &[u8]) -> Result<(), AllocError>
    ensures { OnOk result (line.new.items ≡ line.old.items ++ unquoted text.now) }
{
    let mut rest = text;
    while let Some((byte, behind)) = first_unquoted(rest) {
        line.push(byte)?;
        rest = behind;
    }
    Ok(())
}

fn append_lowered(line: &mut Vec<u8>, text: &[u8]) -> Result<(), AllocError>
    ensures { OnOk result (line.new.items ≡ line.old.items ++ map to_ascii_lowercase text.now) }
{
    for byte in text {
        line.push(byte.to_ascii_lowercase())?;
    }
    Ok(())
}

/// How many bytes a name stands for.
pub fn name_len(name: &Name<'_>) -> usize
    ensures { result ≡ length (decoded (name_view name.now)) }
{
    match *name {
        Name::Plain(text) => text.len(),
        Name::Quoted(text) => unquoted_len(text.as_bytes()),
        Name::Folded(text) => text.len(),
    }
}

/// Appends the bytes that a name stands for.
pub fn append_name(line: &mut Vec<u8>, name: &Name<'_>) -> Result<(), AllocError>
    ensures { OnOk result (line.new.items ≡ line.old.items ++ decoded (name_view name.now)) }
{
    match *name {
        Name::Plain(text) => line.extend_from_slice(text.as_bytes()),
        Name::Quoted(text) => append_unquoted(line, text.as_bytes()),
        Name::Folded(text) => append_lowered(line, text.as_bytes()),
    }
}
