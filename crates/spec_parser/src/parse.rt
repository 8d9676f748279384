//! Spec files, whole.

ghost use Rattle.spec_parser.specs.SpecText.{SpecAnswers};

use crate::fault::SpecFault;
use crate::known::{first_repeat, known_steps};
use crate::reader::Reader;
use crate::resolve::{known_perms, session_parts};
use crate::tree::Spec;
use iso_lexer::{spec_tokens, tokens_are_few, tokens_are_slices};
use std::alloc::Global;

/// What a spec file says. Of several faults that of the tokens comes first, then the first that reading the tokens meets,
/// then the first step name that stands earlier, then the first undefined name of a permutation.
pub fn parse_spec<'a>(alloc: Global, text: &'a str) -> Result<Spec<'a>, SpecFault>
    ensures { SpecAnswers text.now result }
{
    let tokens = spec_tokens(alloc, text)?;
    tokens_are_few();
    tokens_are_slices();
    let mut reader = Reader::new(&tokens, text.len());
    let file = reader.file(alloc)?;
    let known = known_steps(alloc, &file.sessions)?;
    if let Some(at) = first_repeat(&known) {
        return Err(SpecFault::DuplicateStep { at });
    }
    let perms = known_perms(alloc, &known, &file.perms)?;
    let sessions = session_parts(alloc, &file.sessions)?;
    Ok(Spec {
        setups: file.setups,
        teardown: file.teardown,
        sessions,
        perms,
    })
}
