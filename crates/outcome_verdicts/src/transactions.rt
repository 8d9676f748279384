//! The transactions of a permutation, each with its steps.

ghost use Rattle.std.specs.Prelude.{◌≡◌, ◌≤◌, ◌∷◌, [], List, ℕ, IfOk, OnOk, fold, length, map, if◌then◌else◌};
ghost use Rattle.std.specs.List.{enumerate_from};
ghost use Rattle.iso_lexer.specs.declared.limits.TheConstants.{MOST_SESSIONS};
ghost use Rattle.sql_trees.specs.Statements.{stmt_of};
ghost use Rattle.sql_blocks.specs.Blocks.{blocks_of};
ghost use Rattle.spec_parser.specs.Trees.{entry_view, part_view, session_view, spec_view};
ghost use Rattle.spec_parser.specs.Stands.{Stands};
ghost use Rattle.outcome_verdicts.specs.Transactions.{cut, in_front, is_open_after, is_open_at_first, is_open_behind, is_open_behind_step, list_view, of_session, steps_of, transaction_view, transactions_in, transactions_of};
ghost use Rattle.outcome_verdicts.specs.Inner.Cutting.{with_rest};

use outcome_counts::stmts_at;
use spec_parser::{Entry, Part, SessionPart, Spec};
use sql_blocks::Block;
use sql_trees::Stmt;
use std::alloc::{AllocError, Global};

/// A transaction, or what of one a permutation has: steps of one session, by their numbers in it.
pub struct Transaction {
    pub session: u32,
    pub steps: Vec<u32>,
}

/// Written out, as that of `RunOutcome`.
impl Drop for Transaction {
    fn drop(self) {
        let Transaction {
            session: _,
            steps: _,
        } = self;
    }
}

impl Transaction {
    /// The same transaction again.
    pub fn copied(&self, alloc: Global) -> Result<Transaction, AllocError>
        ensures { IfOk result (λ copy. transaction_view copy ≡ transaction_view self.now) }
    {
        let steps = Vec::from_slice(alloc, self.steps.as_slice())?;
        Ok(Transaction {
            session: self.session,
            steps,
        })
    }
}

fn is_open_after(begun: bool, stmt: &Stmt<'_>) -> bool
    ensures { result ≡ is_open_after begun (stmt_of stmt.now) }
{
    match stmt {
        Stmt::Begin(_) => true,
        Stmt::Commit | Stmt::Rollback => false,
        _ => begun,
    }
}

fn is_open_after_all(begun: bool, stmts: &[Stmt<'_>]) -> bool
    ensures { result ≡ fold is_open_after begun (map stmt_of stmts.now) }
{
    let mut open = begun;
    for stmt in stmts {
        open = is_open_after(open, stmt);
    }
    open
}

/// Whether a transaction is open behind a block, all of whose statements worked.
fn is_open_behind(blocks: &[Block<'_>], begun: bool, part: &Part<'_>) -> bool
    ensures { result ≡ is_open_behind (blocks_of blocks.now) begun (part_view part.now) }
{
    is_open_after_all(begun, stmts_at(blocks, part.block))
}

/// Whether one is open behind the session's setup.
fn is_open_at_first(blocks: &[Block<'_>], session: &SessionPart<'_>) -> bool
    ensures { result ≡ is_open_at_first (blocks_of blocks.now) (session_view session.now) }
{
    match &session.setup {
        Some(part) => is_open_behind(blocks, false, part),
        None => false,
    }
}

/// Whether one is open behind the session's step of this number.
fn is_open_behind_step(
    blocks: &[Block<'_>],
    session: &SessionPart<'_>,
    begun: bool,
    step: u32,
) -> bool
    ensures { result ≡ is_open_behind_step (blocks_of blocks.now) (session_view session.now) begun step }
{
    match session.steps.get(step as usize) {
        Some(part) => is_open_behind(blocks, begun, &part.part),
        None => begun,
    }
}

/// The steps that a session has among the entries.
fn steps_of(alloc: Global, session: u32, entries: &[Entry]) -> Result<Vec<u32>, AllocError>
    ensures { IfOk result (λ steps. steps.items ≡ steps_of session (map entry_view entries.now)) }
{
    let mut steps = Vec::new(alloc);
    for entry in entries {
        if entry.session == session {
            steps.push(entry.step)?;
        }
    }
    Ok(steps)
}

/// Adds a step to the transaction that goes on, which is over then unless it is still open.
fn add_step(
    alloc: Global,
    session: u32,
    over: &mut Vec<Transaction>,
    now: &mut Vec<u32>,
    step: u32,
    still: bool,
) -> Result<(), AllocError>
    ensures { OnOk result ((rest : List (List ℕ)) → with_rest session over.new.items now.new.items rest
        ≡ with_rest session over.old.items now.old.items (if still then in_front step rest else (step ∷ []) ∷ rest)) }
{
    now.push(step)?;
    if still {
        return Ok(());
    }
    let steps = std::mem::replace(now, Vec::new(alloc));
    over.push(Transaction { session, steps })?;
    Ok(())
}

/// Cuts a session's steps into transactions, in their order. One ends with the step behind which none is open.
fn cut(
    alloc: Global,
    blocks: &[Block<'_>],
    number: u32,
    session: &SessionPart<'_>,
    steps: &[u32],
) -> Result<Vec<Transaction>, AllocError>
    ensures { IfOk result (λ ts. list_view ts ≡ map (of_session number) (cut (blocks_of blocks.now) (session_view session.now)
        (is_open_at_first (blocks_of blocks.now) (session_view session.now)) steps.now)) }
{
    let mut over = Vec::new(alloc);
    let mut now = Vec::new(alloc);
    let mut begun = is_open_at_first(blocks, session);
    for step in steps {
        begun = is_open_behind_step(blocks, session, begun, *step);
        add_step(alloc, number, &mut over, &mut now, *step, begun)?;
    }
    if now.is_empty() {
        return Ok(over);
    }
    over.push(Transaction {
        session: number,
        steps: now,
    })?;
    Ok(over)
}

/// The transactions of a session, which has this number.
fn transactions_in(
    alloc: Global,
    blocks: &[Block<'_>],
    entries: &[Entry],
    number: u32,
    session: &SessionPart<'_>,
) -> Result<Vec<Transaction>, AllocError>
    ensures { IfOk result (λ ts. list_view ts ≡ transactions_in (blocks_of blocks.now) (map entry_view entries.now) (record { 0 = number; 1 = session_view session.now })) }
{
    let steps = steps_of(alloc, number, entries)?;
    cut(alloc, blocks, number, session, &steps)
}

/// The transactions of each of these sessions.
fn lists_of(
    alloc: Global,
    blocks: &[Block<'_>],
    entries: &[Entry],
    sessions: &[SessionPart<'_>],
) -> Result<Vec<Vec<Transaction>>, AllocError>
    requires { length sessions.now ≤ MOST_SESSIONS }
    ensures { IfOk result (λ lists. map list_view lists.items ≡ map (transactions_in (blocks_of blocks.now) (map entry_view entries.now)) (enumerate_from 1 (map session_view sessions.now))) }
{
    let mut lists = Vec::new(alloc);
    for (place, session) in sessions.iter().enumerate() {
        let number = place as u32 + 1;
        lists.push(transactions_in(alloc, blocks, entries, number, session)?)?;
    }
    Ok(lists)
}

/// The transactions of each session, the first session's first.
pub fn transactions_of(
    alloc: Global,
    spec: &Spec<'_>,
    blocks: &[Block<'_>],
    entries: &[Entry],
) -> Result<Vec<Vec<Transaction>>, AllocError>
    requires { Stands (spec_view spec.now) }
    ensures { IfOk result (λ lists. map list_view lists.items ≡ transactions_of (spec_view spec.now) (blocks_of blocks.now) (map entry_view entries.now)) }
{
    lists_of(alloc, blocks, entries, &spec.sessions)
}
