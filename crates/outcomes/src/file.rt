//! What can happen in a file.

ghost use Rattle.spec_parser.specs.Stands.{Stands};
ghost use Rattle.spec_parser.specs.Trees.{spec_view};

use crate::counting::outcomes_of;
use outcome_text::{Answer, Watch, answer_in};
use spec_files::{RunFault, read_file};
use spec_parser::Spec;
use sql_blocks::Block;
use std::alloc::Global;

/// Runs the permutations of a spec, and says what can happen.
fn answer_of_spec<W: Watch>(
    alloc: Global,
    spec: &Spec<'_>,
    blocks: &[Block<'_>],
    limit: u64,
    is_html: bool,
    watch: &mut W,
) -> Result<Answer, RunFault>
    requires { Stands (spec_view spec.now) }
{
    let outcomes = outcomes_of(alloc, spec, blocks, limit, watch)?;
    Ok(answer_in(alloc, spec, &outcomes, is_html)?)
}

/// Runs the permutations of the spec file that these bytes are, up to so many, and says what can happen: as text, or as a page of
/// HTML. Who watches is told behind each permutation how many have run.
pub fn answer_of<W: Watch>(
    alloc: Global,
    bytes: &[u8],
    limit: u64,
    is_html: bool,
    watch: &mut W,
) -> Result<Answer, RunFault> {
    let file = read_file(alloc, bytes)?;
    answer_of_spec(alloc, &file.spec, &file.blocks, limit, is_html, watch)
}
