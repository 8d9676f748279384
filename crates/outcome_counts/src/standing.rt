//! What a session has open, by a history.

ghost use Rattle.std.specs.Prelude.{◌≡◌, map};
ghost use Rattle.sql_trees.specs.Statements.{stmt_of};
ghost use Rattle.sql_blocks.specs.Blocks.{blocks_of};
ghost use Rattle.session_machine.specs.Machine.{stmts_of};
ghost use Rattle.outcome_counts.specs.Serial.{after_answer, after_item, after_launch, after_next, after_work, at_first, is_in_queries};

use session_machine::{Event, HistItem, Outcome};
use sql_blocks::Block;
use sql_trees::Stmt;

/// What a session has open: a transaction or none, and whether a query has run in it. And the statement that comes next, by its
/// block and its place there.
#[derive(Clone, Copy)]
pub struct Standing {
    pub begun: bool,
    pub queried: bool,
    pub block: u32,
    pub next: usize,
}

impl Standing {
    /// Nothing is open, before any block.
    pub fn at_first() -> Standing
        ensures { result ≡ at_first }
    {
        Standing {
            begun: false,
            queried: false,
            block: 0,
            next: 0,
        }
    }

    /// After the statement, which has worked.
    pub fn after_work(self, stmt: &Stmt<'_>) -> Standing
        ensures { result ≡ after_work self (stmt_of stmt.now) }
    {
        match stmt {
            Stmt::Begin(_) => Standing {
                begun: true,
                ..self
            },
            Stmt::Commit | Stmt::Rollback => Standing {
                begun: false,
                queried: false,
                ..self
            },
            Stmt::SetTransaction(_) | Stmt::SetDeadlockTimeout => self,
            _ => Standing {
                queried: true,
                ..self
            },
        }
    }

    /// After the start of a block.
    pub fn after_launch(self, block: u32) -> Standing
        ensures { result ≡ after_launch self block }
    {
        Standing {
            begun: self.begun,
            queried: self.begun && self.queried,
            block,
            next: 0,
        }
    }
}

/// The statements of the block of this number; none where there is no such block.
pub fn stmts_at<'b, 't>(blocks: &'b [Block<'t>], number: u32) -> &'b [Stmt<'t>]
    ensures { map stmt_of result.now ≡ stmts_of (blocks_of blocks.now) number }
{
    let number = number as usize;
    if number >= blocks.len() {
        return &[];
    }
    blocks[number].stmts()
}

fn after_next(blocks: &[Block<'_>], s: Standing) -> Standing
    ensures { result ≡ after_next (blocks_of blocks.now) s }
{
    match stmts_at(blocks, s.block).get(s.next) {
        Some(stmt) => Standing {
            next: s.next + 1,
            ..s.after_work(stmt)
        },
        None => s,
    }
}

/// What is open after a statement that is over with this, or waits.
fn after_answer(blocks: &[Block<'_>], s: Standing, outcome: &Outcome<'_>) -> Standing
    ensures { result ≡ after_answer (blocks_of blocks.now) s outcome.now }
{
    match outcome {
        Outcome::Done | Outcome::Rows(_) => after_next(blocks, s),
        Outcome::Failed(_) => Standing {
            begun: false,
            queried: false,
            ..s
        },
        _ => s,
    }
}

/// What the session has open after one more item.
fn after_item(blocks: &[Block<'_>], session: u32, s: Standing, item: &HistItem<'_>) -> Standing
    ensures { result ≡ after_item (blocks_of blocks.now) session s item.now }
{
    match item.event {
        Event::Launch { session: k, block } if k == session => s.after_launch(block),
        Event::Step { session: k } if k == session => after_answer(blocks, s, &item.reply.outcome),
        Event::Leave { session: k } if k == session => Standing::at_first(),
        _ => s,
    }
}

/// Whether the session has a transaction open behind these items, in which a query has run.
pub fn is_in_queries(blocks: &[Block<'_>], session: u32, items: &[HistItem<'_>]) -> bool
    ensures { result ≡ is_in_queries (blocks_of blocks.now) session items.now }
{
    let mut s = Standing::at_first();
    for item in items {
        s = after_item(blocks, session, s, item);
    }
    s.begun && s.queried
}
