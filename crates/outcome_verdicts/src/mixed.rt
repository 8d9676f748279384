//! Whether transactions can be left out: a step that is part of another one too can't.

ghost use Rattle.std.specs.Prelude.{◌≡◌, false, true, Contains, MatchOption, map, option_map};
ghost use Rattle.std.specs.List.{list_any};
ghost use Rattle.sql_trees.specs.Statements.{stmt_of};
ghost use Rattle.sql_blocks.specs.Blocks.{blocks_of};
ghost use Rattle.spec_parser.specs.Trees.{StepTree, spec_view};
ghost use Rattle.spec_parser.specs.Numbered.{step_numbered};
ghost use Rattle.outcome_verdicts.specs.Transactions.{transaction_view};
ghost use Rattle.outcome_verdicts.specs.Failures.{CanBeLeftOut, IsMixed, goes_on, is_end, stmts_go_on};

use crate::transactions::Transaction;
use outcome_counts::stmts_at;
use spec_parser::Spec;
use sql_blocks::Block;
use sql_trees::Stmt;

fn is_end(stmt: &Stmt<'_>) -> bool
    ensures { result ≡ is_end (stmt_of stmt.now) }
{
    matches!(stmt, Stmt::Commit | Stmt::Rollback)
}

fn any_end(stmts: &[Stmt<'_>]) -> bool
    ensures { result ≡ list_any is_end (map stmt_of stmts.now) }
{
    for stmt in stmts {
        if is_end(stmt) {
            return true;
        }
    }
    false
}

/// Whether one that isn't the last ends a transaction.
fn stmts_go_on(stmts: &[Stmt<'_>]) -> bool
    ensures { result ≡ stmts_go_on (map stmt_of stmts.now) }
{
    any_end(&stmts[..stmts.len().saturating_sub(1)])
}

/// The block of a session's step.
fn block_of(spec: &Spec<'_>, session: u32, step: u32) -> Option<u32>
    ensures { result ≡ option_map (λ (s : StepTree). s.part.block) (step_numbered (spec_view spec.now) session step) }
{
    Some(spec.step_numbered(session, step)?.part.block)
}

/// Whether the session's step goes on behind the end of a transaction.
fn goes_on(spec: &Spec<'_>, blocks: &[Block<'_>], session: u32, step: u32) -> bool
    ensures { result ≡ goes_on (spec_view spec.now) (blocks_of blocks.now) session step }
{
    match block_of(spec, session, step) {
        Some(block) => stmts_go_on(stmts_at(blocks, block)),
        None => false,
    }
}

/// The first of these steps of a session that does.
fn step_that_goes_on(
    spec: &Spec<'_>,
    blocks: &[Block<'_>],
    session: u32,
    steps: &[u32],
) -> Option<u32>
    ensures { MatchOption result (list_any (goes_on (spec_view spec.now) (blocks_of blocks.now) session) steps.now ≡ false)
        (λ step. Contains steps.now step × (goes_on (spec_view spec.now) (blocks_of blocks.now) session step ≡ true)) }
{
    for step in steps {
        if goes_on(spec, blocks, session, *step) {
            return Some(*step);
        }
    }
    None
}

/// The first step of these transactions that goes on behind the end of one, with its session: they can't be left out then.
pub fn mixed_step(
    spec: &Spec<'_>,
    blocks: &[Block<'_>],
    transactions: &[Transaction],
) -> Option<(u32, u32)>
    ensures { MatchOption result (CanBeLeftOut (spec_view spec.now) (blocks_of blocks.now) (map transaction_view transactions.now))
        (λ it. IsMixed (spec_view spec.now) (blocks_of blocks.now) (map transaction_view transactions.now) it.0 it.1) }
{
    for transaction in transactions {
        let session = transaction.session;
        if let Some(step) = step_that_goes_on(spec, blocks, session, &transaction.steps) {
            return Some((session, step));
        }
    }
    None
}
