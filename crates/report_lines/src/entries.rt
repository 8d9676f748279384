//! Entries of a permutation, and items of a history.
ghost use Rattle.std.specs.Prelude.{◌≡◌, ◌==◌, not, length, map, slice_get};
ghost use Rattle.std.specs.List.{list_any};
ghost use Rattle.std.specs.Option.{option_map_or};
ghost use Rattle.spec_parser.specs.Trees.{EntryTree, entry_view};
ghost use Rattle.report_lines.specs.Code.Walk.{names, is_star};
ghost use Rattle.session_machine.specs.Machine.{session_of};
ghost use Rattle.report_lines.specs.Starts.{is_order, ends_in};

use session_machine::{Event, HistItem};
use spec_parser::{Entry, Marker};

fn is_star(marker: &Marker) -> bool
    ensures { result ≡ is_star marker.now }
{
    matches!(marker, Marker::Star)
}

/// Whether the entry's step is the marker's.
fn is_step(entry: &Entry, marker: &Marker) -> bool
    ensures { result ≡ names (entry_view entry.now) marker.now }
{
    match *marker {
        Marker::Star => false,
        Marker::Step { session, step } => session == entry.session && step == entry.step,
    }
}

/// The session of the entry at this place; 0 where there is none.
pub fn session_at(entries: &[Entry], place: usize) -> u32
    ensures { result ≡ option_map_or (λ (e : EntryTree). e.session) (slice_get (map entry_view entries.now) place) 0 }
{
    match entries.get(place) {
        None => 0,
        Some(entry) => entry.session,
    }
}

/// Whether a marker of the entry names the other one's step.
pub fn waits_for(entry: &Entry, other: &Entry) -> bool
    ensures { result ≡ list_any (names (entry_view other.now)) entry.now.markers.items }
{
    for marker in &entry.markers {
        if is_step(other, marker) {
            return true;
        }
    }
    false
}

pub fn is_starred(entry: &Entry) -> bool
    ensures { result ≡ list_any is_star entry.now.markers.items }
{
    for marker in &entry.markers {
        if is_star(marker) {
            return true;
        }
    }
    false
}

pub fn is_marked(entry: &Entry) -> bool
    ensures { result ≡ not (length entry.now.markers.items == 0) }
{
    !entry.markers.is_empty()
}

/// Whether the event begins a segment: it is a Launch or a Leave.
pub fn is_order(event: &Event) -> bool
    ensures { result ≡ is_order event.now }
{
    match event {
        Event::Launch { .. } | Event::Leave { .. } => true,
        Event::Step { .. } => false,
    }
}

/// The session of an event.
pub fn session_of(event: &Event) -> u32
    ensures { result ≡ session_of event.now }
{
    match *event {
        Event::Launch { session, .. } => session,
        Event::Step { session } => session,
        Event::Leave { session } => session,
    }
}

/// Whether this item ends the session's block.
pub fn ends_in(session: u32, item: &HistItem<'_>) -> bool
    ensures { result ≡ ends_in session item.now }
{
    session_of(&item.event) == session && item.reply.ended
}
