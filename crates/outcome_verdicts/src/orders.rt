//! Orders of transactions, told by their sessions: the turns of a session are its transactions, one after the other.

ghost use Rattle.std.specs.Prelude.{◌≡◌, ◌++◌, ◌==◌, [], IfOk, OnOk, count_by, flat_map, length, map, option_map, option_to_list};
ghost use Rattle.spec_parser.specs.Trees.{entry_view};
ghost use Rattle.outcome_verdicts.specs.Transactions.{entries_in, in_order, in_turn, list_view, transaction_view};

use crate::transactions::Transaction;
use spec_parser::Entry;
use std::alloc::{AllocError, Global};

/// How many transactions each session has. More than a number goes are as many as memory is refused for.
pub fn counts_of(alloc: Global, lists: &[Vec<Transaction>]) -> Result<Vec<u32>, AllocError>
    ensures { IfOk result (λ counts. counts.items ≡ map length (map list_view lists.now)) }
{
    let mut counts = Vec::new(alloc);
    for list in lists {
        match u32::try_from(list.len()) {
            Ok(count) => counts.push(count)?,
            Err(_) => return Err(AllocError),
        }
    }
    Ok(counts)
}

/// Adds the steps of a transaction.
fn push_steps(
    alloc: Global,
    entries: &mut Vec<Entry>,
    transaction: &Transaction,
) -> Result<(), AllocError>
    ensures { OnOk result (map entry_view entries.new.items ≡ map entry_view entries.old.items ++ entries_in (transaction_view transaction.now)) }
{
    for step in &transaction.steps {
        entries.push(Entry {
            session: transaction.session,
            step: *step,
            markers: Vec::new(alloc),
        })?;
    }
    Ok(())
}

/// How often a session's turn came among these.
fn turns_of(turns: &[u32], session: u32) -> usize
    ensures { result ≡ count_by (λ x. x == session) turns.now }
{
    let mut count = 0usize;
    for turn in turns {
        if *turn == session {
            count += 1;
        }
    }
    count
}

/// The transaction whose turn it is, after so many of its session.
fn in_turn<'l>(
    lists: &'l [Vec<Transaction>],
    session: u32,
    before: usize,
) -> Option<&'l Transaction>
    ensures { option_map (λ t. transaction_view t.now) result ≡ in_turn (map list_view lists.now) (record { session = session; step = before; markers = [] }) }
{
    let list = lists.get((session as usize).saturating_sub(1))?;
    list.get(before)
}

/// Adds the steps of a turn, after so many of its session.
fn push_turn(
    alloc: Global,
    entries: &mut Vec<Entry>,
    lists: &[Vec<Transaction>],
    session: u32,
    before: usize,
) -> Result<(), AllocError>
    ensures { OnOk result (map entry_view entries.new.items ≡ map entry_view entries.old.items
        ++ flat_map entries_in (option_to_list (in_turn (map list_view lists.now) (record { session = session; step = before; markers = [] })))) }
{
    match in_turn(lists, session, before) {
        Some(transaction) => push_steps(alloc, entries, transaction),
        None => Ok(()),
    }
}

/// The entries of these transactions, one transaction after the other in this order.
pub fn entries_in_order(
    alloc: Global,
    lists: &[Vec<Transaction>],
    order: &[u32],
) -> Result<Vec<Entry>, AllocError>
    ensures { IfOk result (λ entries. map entry_view entries.items ≡ in_order (map list_view lists.now) order.now) }
{
    let mut entries = Vec::new(alloc);
    for (place, session) in order.iter().enumerate() {
        let before = turns_of(&order[..place], *session);
        push_turn(alloc, &mut entries, lists, *session, before)?;
    }
    Ok(entries)
}
