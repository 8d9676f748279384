//! A history with the places of its orders.
ghost use Rattle.std.specs.Prelude.{◌≡◌, ◌≢◌, ◌+◌, ◌<◌, ◌≤◌, ◌^◌, ◌++◌, [], length, IfOk, OnErr, slice_range};
ghost use Rattle.std.specs.List.{list_any};
ghost use Rattle.report_lines.specs.Starts.{segment_start, ends_in};
ghost use Rattle.session_machine.specs.Machine.{is_failed};
ghost use Rattle.report_lines.specs.Due.{segment, is_over, went_well, orders};
ghost use Rattle.report_lines.specs.Code.Places.{starts_from};

use crate::entries::{self, is_order};
use session_machine::{HistItem, Outcome};
use std::alloc::{AllocError, Global};
use std::marker::Model;

/// A history, cut into segments: each begins with a Launch or a Leave, and the Steps after it belong to it.
#[derive(Drop)]
pub struct Segments<'a> {
    history: &'a [HistItem<'a>],
    starts: &'a [usize],
}

impl<'a> Model for Segments<'a> {
    ghost use Rattle.std.specs.Prelude.{List};
    ghost use Rattle.session_machine.specs.declared.reply.HistItem.{HistItem};

    ghost Value = { List HistItem };

    ghost use Rattle.report_lines.specs.Inner.Places.{IsFound};

    ghost view = { λ s. s.history.now };

    ghost invariant = { λ s. IsFound s.history.now s.starts.now };
}

impl<'a> Segments<'a> {
    ghost use Rattle.report_lines.specs.Starts.{segment_start};
    ghost use Rattle.report_lines.specs.Due.{segment, is_over, went_well, orders};
    ghost use Rattle.report_lines.specs.Code.Places.{starts_from};

    /// A history whose orders stand at these places.
    pub(crate) fn new(items: &'a [HistItem<'a>], starts: &'a [usize]) -> Segments<'a>
        requires { starts.now ≡ starts_from 0 items.now }
        ensures { result ≡ items.now }
    {
        Segments {
            history: items,
            starts,
        }
    }

    /// The whole history.
    pub fn items(&self) -> &'a [HistItem<'a>]
        ensures { result.now ≡ self.now }
    {
        self.history
    }

    /// How many segments there are.
    pub fn count(&self) -> usize
        ensures { result ≡ orders self.now }
    {
        self.starts.len()
    }

    /// How many items come before the order of this number; all where there are fewer orders.
    pub fn start(&self, number: usize) -> usize
        ensures exact { result ≡ segment_start self.now number }
        ensures within { result ≤ length self.now }
    {
        match self.starts.get(number) {
            Some(place) => *place,
            None => self.items().len(),
        }
    }

    /// The segment of this number; it is empty where there are fewer.
    pub fn segment(&self, number: usize) -> &'a [HistItem<'a>]
        requires { number + 1 < 2 ^ 64 }
        ensures { result.now ≡ segment self.now number }
    {
        let from = self.start(number);
        let to = self.start(number + 1);
        if from <= to {
            &self.items()[from..to]
        } else {
            &[]
        }
    }

    /// Whether the session's block ended in this segment.
    pub fn is_over(&self, number: usize, session: u32) -> bool
        requires { number + 1 < 2 ^ 64 }
        ensures { result ≡ is_over self.now number session }
    {
        any_ends(self.segment(number), session)
    }

    /// Whether the session's block ended in this segment, and nothing in it failed.
    pub fn went_well(&self, number: usize, session: u32) -> bool
        requires { number + 1 < 2 ^ 64 }
        ensures { result ≡ went_well self.now number session }
    {
        let over = self.is_over(number, session);
        let failed = any_fails(self.segment(number));
        over && !failed
    }
}

/// Whether an item of these ends the session's block.
pub fn any_ends(items: &[HistItem<'_>], session: u32) -> bool
    ensures { result ≡ list_any (ends_in session) items.now }
{
    for item in items {
        if entries::ends_in(session, item) {
            return true;
        }
    }
    false
}

/// Whether a reply of these is a failure.
pub fn any_fails(items: &[HistItem<'_>]) -> bool
    ensures { result ≡ list_any (λ item. is_failed item.reply.outcome) items.now }
{
    for item in items {
        if is_failed(&item.reply.outcome) {
            return true;
        }
    }
    false
}

fn is_failed(outcome: &Outcome<'_>) -> bool
    ensures { result ≡ is_failed outcome.now }
{
    matches!(outcome, Outcome::Failed(_))
}

/// The places of the orders of a history. Fails only where memory is refused.
pub(crate) fn starts(alloc: Global, items: &[HistItem<'_>]) -> Result<Vec<usize>, AllocError>
    ensures starts { IfOk result (λ starts. starts.items ≡ starts_from 0 items.now) }
    ensures memory { OnErr result (items.now ≢ []) }
{
    let mut starts = Vec::with_capacity(alloc, items.len())?;
    for (place, item) in items.iter().enumerate() {
        if is_order(&item.event) {
            starts.push(place)?;
        }
    }
    Ok(starts)
}
