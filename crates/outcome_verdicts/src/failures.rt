//! Transactions that failed in an outcome, and the others.

ghost use Rattle.std.specs.Prelude.{◌≡◌, ◌++◌, false, not, IfOk, OnOk, filter, map, slice_get};
ghost use Rattle.std.specs.List.{list_any};
ghost use Rattle.std.specs.Option.{option_map_or};
ghost use Rattle.session_machine.specs.Machine.{is_failed};
ghost use Rattle.spec_parser.specs.Trees.{spec_view};
ghost use Rattle.outcome_verdicts.specs.Transactions.{list_view, transaction_view};
ghost use Rattle.outcome_verdicts.specs.Failures.{failed_of, has_failed, has_step_failed, rest_of};

use crate::numbers::step_number;
use crate::transactions::Transaction;
use outcome_counts::RunOutcome;
use session_machine::Outcome;
use spec_parser::Spec;
use std::alloc::{AllocError, Global};

fn is_failed(answer: &Outcome<'_>) -> bool
    ensures { result ≡ is_failed answer.now }
{
    matches!(answer, Outcome::Failed(_))
}

fn any_failed(answers: &[Outcome<'_>]) -> bool
    ensures { result ≡ list_any is_failed answers.now }
{
    for answer in answers {
        if is_failed(answer) {
            return true;
        }
    }
    false
}

/// Whether a statement of the step of this number failed.
fn has_failed_at(answers: &[Vec<Outcome<'_>>], number: usize) -> bool
    ensures { result ≡ option_map_or (λ step. list_any is_failed step.items) (slice_get answers.now number) false }
{
    match answers.get(number) {
        Some(step) => any_failed(step.as_slice()),
        None => false,
    }
}

/// Whether a statement of the step failed.
fn has_step_failed(spec: &Spec<'_>, outcome: &RunOutcome<'_>, session: u32, step: u32) -> bool
    ensures { result ≡ has_step_failed (spec_view spec.now) outcome.now session step }
{
    has_failed_at(&outcome.answers, step_number(spec, session, step))
}

/// Whether a step of the transaction failed.
fn has_failed(spec: &Spec<'_>, outcome: &RunOutcome<'_>, transaction: &Transaction) -> bool
    ensures { result ≡ has_failed (spec_view spec.now) outcome.now (transaction_view transaction.now) }
{
    for step in &transaction.steps {
        if has_step_failed(spec, outcome, transaction.session, *step) {
            return true;
        }
    }
    false
}

/// Adds those of a session's transactions that failed.
fn push_failed(
    alloc: Global,
    failed: &mut Vec<Transaction>,
    spec: &Spec<'_>,
    outcome: &RunOutcome<'_>,
    list: &[Transaction],
) -> Result<(), AllocError>
    ensures { OnOk result (list_view failed.new ≡ list_view failed.old ++ filter (has_failed (spec_view spec.now) outcome.now) (map transaction_view list.now)) }
{
    for transaction in list {
        if has_failed(spec, outcome, transaction) {
            failed.push(transaction.copied(alloc)?)?;
        }
    }
    Ok(())
}

/// The transactions that failed.
pub fn failed_of(
    alloc: Global,
    spec: &Spec<'_>,
    outcome: &RunOutcome<'_>,
    lists: &[Vec<Transaction>],
) -> Result<Vec<Transaction>, AllocError>
    ensures { IfOk result (λ failed. list_view failed ≡ failed_of (spec_view spec.now) outcome.now (map list_view lists.now)) }
{
    let mut failed = Vec::new(alloc);
    for list in lists {
        push_failed(alloc, &mut failed, spec, outcome, list)?;
    }
    Ok(failed)
}

/// Those of a session's transactions that didn't fail.
fn kept_of(
    alloc: Global,
    spec: &Spec<'_>,
    outcome: &RunOutcome<'_>,
    list: &[Transaction],
) -> Result<Vec<Transaction>, AllocError>
    ensures { IfOk result (λ kept. list_view kept ≡ filter (λ t. not (has_failed (spec_view spec.now) outcome.now t)) (map transaction_view list.now)) }
{
    let mut kept = Vec::new(alloc);
    for transaction in list {
        if !has_failed(spec, outcome, transaction) {
            kept.push(transaction.copied(alloc)?)?;
        }
    }
    Ok(kept)
}

/// Each session's transactions that didn't fail.
pub fn rest_of(
    alloc: Global,
    spec: &Spec<'_>,
    outcome: &RunOutcome<'_>,
    lists: &[Vec<Transaction>],
) -> Result<Vec<Vec<Transaction>>, AllocError>
    ensures { IfOk result (λ rest. map list_view rest.items ≡ rest_of (spec_view spec.now) outcome.now (map list_view lists.now)) }
{
    let mut rest = Vec::new(alloc);
    for list in lists {
        rest.push(kept_of(alloc, spec, outcome, list)?)?;
    }
    Ok(rest)
}

/// The sessions of transactions.
pub fn sessions_of(alloc: Global, transactions: &[Transaction]) -> Result<Vec<u32>, AllocError>
    ensures { IfOk result (λ sessions. sessions.items ≡ map (λ t. t.session) (map transaction_view transactions.now)) }
{
    let mut sessions = Vec::new(alloc);
    for transaction in transactions {
        sessions.push(transaction.session)?;
    }
    Ok(sessions)
}
