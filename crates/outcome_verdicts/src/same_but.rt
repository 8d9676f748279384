//! Outcomes that are one but for what the steps of some transactions answered.

ghost use Rattle.std.specs.Prelude.{◌≡◌, ◌↔◌, ◌<◌, ◌==◌, IsTrue, false, map};
ghost use Rattle.std.specs.List.{list_any};
ghost use Rattle.spec_parser.specs.Trees.{spec_view};
ghost use Rattle.outcome_counts.specs.Outcomes.{SameAnswers};
ghost use Rattle.outcome_verdicts.specs.Transactions.{transaction_view};
ghost use Rattle.outcome_verdicts.specs.Failures.{SameBut, is_of, number_of};
ghost use Rattle.outcome_verdicts.specs.Inner.Others.{SameOthers};

use crate::numbers::is_number_of;
use crate::transactions::Transaction;
use outcome_counts::{RunOutcome, same_answers, same_tables};
use session_machine::Outcome;
use spec_parser::Spec;

/// Whether the step of this number in the file is one of the transaction's.
fn is_of_one(spec: &Spec<'_>, transaction: &Transaction, number: usize) -> bool
    requires { number < usize.MAX }
    ensures { result ≡ list_any (λ step. number_of (spec_view spec.now) transaction.now.session step == number) transaction.now.steps.items }
{
    for step in &transaction.steps {
        if is_number_of(spec, transaction.session, *step, number) {
            return true;
        }
    }
    false
}

/// Whether it is one of these transactions'.
fn is_of(spec: &Spec<'_>, transactions: &[Transaction], number: usize) -> bool
    requires { number < usize.MAX }
    ensures { result ≡ is_of (spec_view spec.now) (map transaction_view transactions.now) number }
{
    for transaction in transactions {
        if is_of_one(spec, transaction, number) {
            return true;
        }
    }
    false
}

/// Whether a step that isn't one of theirs answered the same.
fn same_unless_theirs(
    spec: &Spec<'_>,
    transactions: &[Transaction],
    number: usize,
    a: &Vec<Outcome<'_>>,
    b: &Vec<Outcome<'_>>,
) -> bool
    requires { number < usize.MAX }
    ensures { IsTrue result ↔ (is_of (spec_view spec.now) (map transaction_view transactions.now) number ≡ false → SameAnswers a.now b.now) }
{
    if is_of(spec, transactions, number) {
        return true;
    }
    same_answers(a.as_slice(), b.as_slice())
}

/// Whether each step that isn't one of theirs answered the same.
fn same_others(
    spec: &Spec<'_>,
    transactions: &[Transaction],
    a: &[Vec<Outcome<'_>>],
    b: &[Vec<Outcome<'_>>],
) -> bool
    ensures { IsTrue result ↔ SameOthers (spec_view spec.now) (map transaction_view transactions.now) a.now b.now }
{
    if a.len() != b.len() {
        return false;
    }
    for number in 0..a.len() {
        let x = &a[number];
        let y = &b[number];
        if !same_unless_theirs(spec, transactions, number, x, y) {
            return false;
        }
    }
    true
}

/// Whether the outcomes are one but for what the steps of these transactions answered.
pub fn same_but(
    spec: &Spec<'_>,
    transactions: &[Transaction],
    a: &RunOutcome<'_>,
    b: &RunOutcome<'_>,
) -> bool
    ensures { IsTrue result ↔ SameBut (spec_view spec.now) (map transaction_view transactions.now) a.now b.now }
{
    same_others(spec, transactions, &a.answers, &b.answers) && same_tables(&a.tables, &b.tables)
}
