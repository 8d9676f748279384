//! Serial orders with their outcomes, and the search for an outcome among them.

ghost use Rattle.std.specs.Prelude.{MatchOption, OnOk, map};
ghost use Rattle.spec_parser.specs.Trees.{spec_view};
ghost use Rattle.outcome_counts.specs.Outcomes.{SameOutcome};
ghost use Rattle.outcome_verdicts.specs.Transactions.{transaction_view};
ghost use Rattle.outcome_verdicts.specs.Failures.{SameBut};
ghost use Rattle.outcome_verdicts.specs.Verdicts.{IsFound, IsNotFound};
ghost use Rattle.outcome_verdicts.specs.Code.Adding.{IsAdded};

use crate::same_but::same_but;
use crate::transactions::Transaction;
use outcome_counts::RunOutcome;
use spec_parser::Spec;
use std::alloc::{AllocError, Global};

/// A serial order of transactions, by their sessions, and its outcome.
pub struct SerialOrder<'t> {
    pub sessions: Vec<u32>,
    pub outcome: RunOutcome<'t>,
}

/// Written out, as that of `RunOutcome`.
impl<'t> Drop for SerialOrder<'t> {
    fn drop(self) {
        let SerialOrder {
            sessions: _,
            outcome: _,
        } = self;
    }
}

/// The first of the orders that has the outcome.
pub fn order_with<'o, 't>(
    orders: &'o [SerialOrder<'t>],
    outcome: &RunOutcome<'_>,
) -> Option<&'o SerialOrder<'t>>
    ensures { MatchOption result (IsNotFound orders.now (λ s. SameOutcome s outcome.now)) (λ order. IsFound orders.now (λ s. SameOutcome s outcome.now) order.now.sessions.items) }
{
    for order in orders {
        if order.outcome.same(outcome) {
            return Some(order);
        }
    }
    None
}

/// The first of the orders that has the outcome but for the steps of these transactions.
pub fn order_without<'o, 't>(
    spec: &Spec<'_>,
    transactions: &[Transaction],
    orders: &'o [SerialOrder<'t>],
    outcome: &RunOutcome<'_>,
) -> Option<&'o SerialOrder<'t>>
    ensures { MatchOption result (IsNotFound orders.now (λ s. SameBut (spec_view spec.now) (map transaction_view transactions.now) s outcome.now))
        (λ order. IsFound orders.now (λ s. SameBut (spec_view spec.now) (map transaction_view transactions.now) s outcome.now) order.now.sessions.items) }
{
    for order in orders {
        if same_but(spec, transactions, &order.outcome, outcome) {
            return Some(order);
        }
    }
    None
}

/// Adds a serial order with its outcome, unless one that has the outcome is there.
pub fn add_order<'t>(
    alloc: Global,
    orders: &mut Vec<SerialOrder<'t>>,
    order: &[u32],
    outcome: RunOutcome<'t>,
) -> Result<(), AllocError>
    ensures { OnOk result (IsAdded orders.old.items orders.new.items order.now outcome.entry) }
{
    match order_with(orders, &outcome) {
        Some(_) => Ok(()),
        None => {
            let sessions = Vec::from_slice(alloc, order)?;
            orders.push(SerialOrder { sessions, outcome })?;
            Ok(())
        }
    }
}
