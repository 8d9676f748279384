//! Whether the seats hold what the history says.
ghost use Rattle.std.specs.Prelude.{◌≡◌, ◌≢◌, ◌<◌, ◌↔◌, ℕ, [], true, IsTrue, MatchOption};
ghost use Rattle.session_seats.specs.Seats.{items_of, seats_of, seat_if, AllFitIn, IsMisfitIn};
ghost use Rattle.session_machine.specs.Machine.{session_of};
ghost use Rattle.session_seats.specs.Inner.Least.{is_less};

use crate::seat::Seat;
use session_machine::{Event, HistItem};

/// The least session whose seats aren't what the history says, where the control session and so many sessions beside it are
/// to have one each.
pub fn first_misfit(history: &[HistItem<'_>], sessions: u32, seats: &[Seat<'_>]) -> Option<u32>
    ensures { MatchOption result (AllFitIn history.now sessions seats.now) (λ s. IsMisfitIn history.now sessions seats.now s) }
{
    for session in 0..sessions {
        if !fits(history, seats, session) {
            return Some(session);
        }
    }
    if !fits(history, seats, sessions) {
        return Some(sessions);
    }
    least_over(seats, sessions)
}

/// Whether the session has one seat, which holds its items.
fn fits(history: &[HistItem<'_>], seats: &[Seat<'_>], session: u32) -> bool
    ensures { IsTrue result ↔ (seats_of session seats.now ≡ seat_if true session history.now) }
{
    let mut wanted = true;
    for seat in seats {
        if seat.session() == session {
            if !wanted || !same_items(history, &seat.items, session) {
                return false;
            }
            wanted = false;
        }
    }
    !wanted
}

/// Whether the items are the history's items of the session.
fn same_items(history: &[HistItem<'_>], items: &[HistItem<'_>], session: u32) -> bool
    ensures { IsTrue result ↔ (items.now ≡ items_of session history.now) }
{
    let mut rest = items;
    for item in history {
        if number_of(item.event) == session {
            let [own, others @ ..] = rest else {
                return false;
            };
            if !is_same(own, item) {
                return false;
            }
            rest = others;
        }
    }
    rest.is_empty()
}

fn is_same(a: &HistItem<'_>, b: &HistItem<'_>) -> bool
    ensures { IsTrue result ↔ (a.now ≡ b.now) }
{
    a.event == b.event && a.reply.same(&b.reply)
}

/// The session of an event.
pub fn number_of(event: Event) -> u32
    ensures { result ≡ session_of event }
{
    match event {
        Event::Launch { session, .. } | Event::Step { session } | Event::Leave { session } => {
            session
        }
    }
}

/// The least session over `last` that has a seat.
fn least_over(seats: &[Seat<'_>], last: u32) -> Option<u32>
    ensures { MatchOption result ((s : ℕ) → last < s → seats_of s seats.now ≡ []) (λ t. (last < t) × (seats_of t seats.now ≢ []) × ((s : ℕ) → last < s → s < t → seats_of s seats.now ≡ [])) }
{
    let mut least = None;
    for seat in seats {
        let own = seat.session();
        if own > last && is_less(own, least) {
            least = Some(own);
        }
    }
    least
}

/// Whether the number is less than the other, if there is one.
fn is_less(own: u32, other: Option<u32>) -> bool
    ensures { result ≡ is_less own other }
{
    match other {
        Some(least) => own < least,
        None => true,
    }
}
