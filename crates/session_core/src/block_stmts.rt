//! The statements of the blocks that an engine is opened over.
ghost use Rattle.std.specs.Prelude.{◌≡◌, ◌≤◌, ◌<◌, MatchOption, None, Some, length, map, slice_get};
ghost use Rattle.sql_trees.specs.Statements.{stmt_of};
ghost use Rattle.sql_blocks.specs.Blocks.{blocks_of};
ghost use Rattle.session_machine.specs.Machine.{stmts_of};

use session_machine::Place;
use sql_blocks::Block;
use sql_trees::Stmt;

/// The statements of the block of that number, if it is there.
#[tactic(auto, using(crate::proofs::BlockLemmas::stmts_are))]
pub fn block_stmts<'a, 't>(blocks: &'a [Block<'t>], block: u32) -> Option<&'a [Stmt<'t>]>
    ensures { MatchOption result (length blocks.now ≤ block)
        (λ stmts. (block < length blocks.now) × (map stmt_of stmts.now ≡ stmts_of (blocks_of blocks.now) block)) }
{
    Some(blocks.get(block as usize)?.stmts())
}

/// The statement at a place, and how many its block has.
#[derive(Clone, Copy)]
pub struct StmtAt<'a, 't> {
    pub stmt: &'a Stmt<'t>,
    pub count: usize,
}

/// The statement at a place, if there is one.
pub fn stmt_at<'a, 't>(blocks: &'a [Block<'t>], place: &Place) -> Option<StmtAt<'a, 't>>
    ensures { MatchOption result (slice_get (stmts_of (blocks_of blocks.now) place.now.block) place.now.next ≡ None)
        (λ at. (slice_get (stmts_of (blocks_of blocks.now) place.now.block) place.now.next ≡ Some (stmt_of at.stmt.now))
        × (length (stmts_of (blocks_of blocks.now) place.now.block) ≡ at.count)
        × (place.now.next < at.count)) }
{
    let stmts = block_stmts(blocks, place.block)?;
    Some(StmtAt {
        stmt: stmts.get(place.next)?,
        count: stmts.len(),
    })
}
