//! Whether a history is serial.

ghost use Rattle.std.specs.Prelude.{◌≡◌, ◌↔◌, ◌<◌, ◌≤◌, IsTrue, ℕ};
ghost use Rattle.std.specs.List.{list_any};
ghost use Rattle.sql_blocks.specs.Blocks.{blocks_of};
ghost use Rattle.outcome_counts.specs.Serial.{BeginsAlone, IsAloneAt, IsSerial, is_beside, is_wait};

use crate::standing::is_in_queries;
use session_machine::{Event, HistItem, Outcome};
use sql_blocks::Block;

fn is_wait(item: &HistItem<'_>) -> bool
    ensures { result ≡ is_wait item.now }
{
    matches!(item.reply.outcome, Outcome::Waits)
}

fn any_waits(items: &[HistItem<'_>]) -> bool
    ensures { result ≡ list_any is_wait items.now }
{
    for item in items {
        if is_wait(item) {
            return true;
        }
    }
    false
}

/// Whether the session is another one, and has a transaction open behind these items, in which a query has run.
fn is_beside(blocks: &[Block<'_>], session: u32, items: &[HistItem<'_>], other: u32) -> bool
    ensures { result ≡ is_beside (blocks_of blocks.now) session items.now other }
{
    other != session && is_in_queries(blocks, other, items)
}

/// Whether what begins with the event behind these items begins alone among so many sessions.
fn begins_alone(blocks: &[Block<'_>], count: u32, items: &[HistItem<'_>], event: &Event) -> bool
    ensures { IsTrue result ↔ BeginsAlone (blocks_of blocks.now) count items.now event.now }
{
    let Event::Launch { session, .. } = *event else {
        return true;
    };
    for other in 0..count {
        if is_beside(blocks, session, items, other) {
            return false;
        }
    }
    true
}

/// Whether the item at this place begins alone.
fn is_alone_at(blocks: &[Block<'_>], count: u32, items: &[HistItem<'_>], k: usize) -> bool
    ensures { IsTrue result ↔ IsAloneAt (blocks_of blocks.now) count items.now k }
{
    match items.get(k) {
        Some(item) => begins_alone(blocks, count, &items[..k], &item.event),
        None => true,
    }
}

fn all_alone(blocks: &[Block<'_>], count: u32, setups: usize, items: &[HistItem<'_>]) -> bool
    ensures { IsTrue result ↔ ((k : ℕ) → setups ≤ k → IsAloneAt (blocks_of blocks.now) count items.now k) }
{
    for k in setups..items.len() {
        if !is_alone_at(blocks, count, items, k) {
            return false;
        }
    }
    true
}

/// Whether the history is serial, of so many sessions, in which so many items are setups.
pub fn is_serial(blocks: &[Block<'_>], count: u32, setups: usize, items: &[HistItem<'_>]) -> bool
    ensures { IsTrue result ↔ IsSerial (blocks_of blocks.now) count setups items.now }
{
    !any_waits(items) && all_alone(blocks, count, setups, items)
}
