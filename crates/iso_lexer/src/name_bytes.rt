//! The bytes that a name stands for.

ghost use Rattle.std.specs.Prelude.{◌≡◌, ◌<◌, ◌++◌, ◌∷◌, [], IfOk, MatchOption, length, map};
ghost use Rattle.std.specs.Char.{to_ascii_lowercase};
ghost use Rattle.iso_lexer.specs.Names.{name_view, decoded, unquoted};

use crate::name::Name;
use std::alloc::{AllocError, Global};

// The first byte that stands for one of a quoted name, and the part behind it.
#[tactic(auto, unfolding(crate::specs::Names::unquoted))]
fn first_unquoted(part: &[u8]) -> Option<(u8, &[u8])>
    ensures { MatchOption result (part.now ≡ []) (λ x. (unquoted part.now ≡ x.0 ∷ unquoted x.1.now) × (length x.1.now < length part.now)) }
{
    let (first, rest) = part.split_first()?;
    match rest {
        [_, behind @ ..] if *first == b'"' => Some((*first, behind)),
        _ => Some((*first, rest)),
    }
}

// What stands between quotes, each doubled quote as one, behind these bytes.
#[tactic(auto, unfolding(crate::specs::Names::unquoted))]
fn push_unquoted(mut text: Vec<u8>, quoted: &[u8]) -> Result<Vec<u8>, AllocError>
    ensures { IfOk result (λ v. v.items ≡ text.items ++ unquoted quoted.now) }
{
    let mut rest = quoted;
    while let Some((first, behind)) = first_unquoted(rest) {
        text.push(first)?;
        rest = behind;
    }
    Ok(text)
}

// A word in lower case.
fn lowered(alloc: Global, word: &str) -> Result<Vec<u8>, AllocError>
    ensures { IfOk result (λ v. v.items ≡ map to_ascii_lowercase word.now) }
{
    word.as_bytes()
        .iter()
        .map(|b| b.to_ascii_lowercase())
        .collect(alloc)
}

impl Name<'_> {
    /// The bytes that the name stands for, behind these.
    pub fn push_to(&self, alloc: Global, mut text: Vec<u8>) -> Result<Vec<u8>, AllocError>
        ensures { IfOk result (λ v. v.items ≡ text.items ++ decoded (name_view self.now)) }
    {
        match self {
            Name::Plain(plain) => {
                text.extend_from_slice(plain.as_bytes())?;
                Ok(text)
            }
            Name::Quoted(quoted) => push_unquoted(text, quoted.as_bytes()),
            Name::Folded(folded) => {
                let lower = lowered(alloc, folded)?;
                text.extend_from_slice(&lower)?;
                Ok(text)
            }
        }
    }
}
