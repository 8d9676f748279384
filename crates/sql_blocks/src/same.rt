//! Whether two lists of blocks are one.
ghost use Rattle.std.specs.Prelude.{◌≡◌, ◌↔◌, IsTrue};
ghost use Rattle.sql_blocks.specs.Blocks.{blocks_of};

use crate::block::Block;
use sql_equality::same_stmts;

/// Whether two lists of blocks are one: the same statements in the same order, block for block.
pub fn same_blocks(blocks: &[Block<'_>], others: &[Block<'_>]) -> bool
    ensures { IsTrue result ↔ (blocks_of blocks.now ≡ blocks_of others.now) }
{
    let mut left = others;
    for block in blocks {
        let [other, rest @ ..] = left else {
            return false;
        };
        if !same_stmts(block.stmts(), other.stmts()) {
            return false;
        }
        left = rest;
    }
    left.is_empty()
}
