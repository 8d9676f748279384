//! The run of a permutation, as far as its history has come.
ghost use Rattle.std.specs.Prelude.{◌≡◌, ◌+◌, ◌<◌, ◌≤◌, ◌^◌, length, map};
ghost use Rattle.std.specs.List.{list_any};
ghost use Rattle.spec_parser.specs.Trees.{entry_view};
ghost use Rattle.report_lines.specs.Due.{orders};
ghost use Rattle.report_lines.specs.Code.Places.{IsSeen};

use crate::entries;
use crate::history::Moment;
use crate::segments::{Segments, any_ends};
use session_machine::HistItem;
use spec_parser::Entry;
use std::marker::Model;

/// Entries, the history so far, and how many segments come before the first entry's.
#[derive(Drop)]
pub(crate) struct RunSoFar<'a> {
    steps: &'a [Entry],
    segments: Segments<'a>,
    setups: usize,
    // Behind which item the last block of each session ended.
    last: &'a [usize],
}

impl<'a> Model for RunSoFar<'a> {
    ghost use Rattle.std.specs.Prelude.{map};
    ghost use Rattle.spec_parser.specs.Trees.{entry_view};
    ghost use Rattle.report_lines.specs.History.{PermutationRun};

    ghost Value = { PermutationRun };

    ghost use Rattle.report_lines.specs.Code.Places.{IsTimed};

    ghost view = { λ c. record { entries = map entry_view c.steps.now; items = c.segments; setups = c.setups } };

    ghost invariant = { λ c. IsTimed (record { entries = map entry_view c.steps.now; items = c.segments; setups = c.setups }) c.last.now };
}

impl<'a> RunSoFar<'a> {
    ghost use Rattle.std.specs.List.{list_any};
    ghost use Rattle.report_lines.specs.Report.{moment_of};
    ghost use Rattle.report_lines.specs.History.{seen_before};
    ghost use Rattle.report_lines.specs.Code.Walk.{block_ended, is_awaited, is_star, markers_of, session_of_entry};
    ghost use Rattle.report_lines.specs.Inner.Trying.{is_marked};
    ghost use Rattle.report_lines.specs.Due.{orders};
    ghost use Rattle.report_lines.specs.Code.Places.{IsSeen};

    /// These entries with a history, whose orders stand at these places, and in which the last blocks end behind those.
    pub(crate) fn new(
        entries: &'a [Entry],
        items: &'a [HistItem<'a>],
        setups: usize,
        starts: &'a [usize],
        last: &'a [usize],
    ) -> RunSoFar<'a>
        requires { IsSeen (record { entries = map entry_view entries.now; items = items.now; setups = setups }) starts.now last.now }
        ensures { result ≡ record { entries = map entry_view entries.now; items = items.now; setups = setups } }
    {
        RunSoFar {
            steps: entries,
            segments: Segments::new(items, starts),
            setups,
            last,
        }
    }

    pub(crate) fn entries(&self) -> &'a [Entry]
        ensures { map entry_view result.now ≡ self.now.entries }
    {
        self.steps
    }

    pub(crate) fn len(&self) -> usize
        ensures exact { result ≡ length self.now.entries }
        ensures room { result + 1 < 2 ^ 64 }
    {
        self.entries().len()
    }

    /// How many items come before an entry's Launch.
    fn seen_before(&self, entry: usize) -> usize
        requires { entry ≤ length self.now.entries }
        ensures exact { result ≡ seen_before self.now entry }
        ensures within { result ≤ length self.now.items }
    {
        self.segments.start(self.setups + entry)
    }

    /// The moment that has come, before the Launch of an entry, or at the end.
    pub(crate) fn before(&self, entry: usize) -> Moment
        requires entry { entry ≤ length self.now.entries }
        requires now { orders self.now.items ≤ self.now.setups + entry }
        ensures moment { result ≡ moment_of self.now entry entry }
        ensures seen { result.seen ≡ length self.now.items }
        ensures room { length self.now.entries + 1 < 2 ^ 64 }
    {
        let _ = &self.setups;
        Moment {
            seen: self.seen_before(entry),
            launched: entry,
            joined: entry,
        }
    }

    /// The moment that has come, after the Launch of an entry.
    pub(crate) fn after(&self, entry: usize) -> Moment
        requires entry { entry < length self.now.entries }
        requires now { orders self.now.items ≤ self.now.setups + entry + 1 }
        ensures moment { result ≡ moment_of self.now (entry + 1) entry }
        ensures seen { result.seen ≡ length self.now.items }
        ensures room { length self.now.entries + 1 < 2 ^ 64 }
    {
        let _ = &self.setups;
        Moment {
            seen: self.seen_before(entry + 1),
            launched: entry + 1,
            joined: entry,
        }
    }

    /// The session of an entry; 0 where there is no such entry.
    pub(crate) fn session_at(&self, entry: usize) -> u32
        ensures { result ≡ session_of_entry self.now entry }
    {
        entries::session_at(self.entries(), entry)
    }

    /// Whether a marker of the first entry names the step of the other.
    pub(crate) fn is_named(&self, entry: usize, other: usize) -> bool
        ensures { result ≡ is_awaited self.now entry other }
    {
        match (self.entries().get(entry), self.entries().get(other)) {
            (Some(e), Some(o)) => entries::waits_for(e, o),
            _ => false,
        }
    }

    pub(crate) fn is_starred(&self, entry: usize) -> bool
        ensures { result ≡ list_any is_star (markers_of self.now entry) }
    {
        match self.entries().get(entry) {
            None => false,
            Some(e) => entries::is_starred(e),
        }
    }

    pub(crate) fn is_marked(&self, entry: usize) -> bool
        ensures { result ≡ is_marked self.now entry }
    {
        match self.entries().get(entry) {
            None => false,
            Some(e) => entries::is_marked(e),
        }
    }

    /// Whether an entry's block has ended by now.
    pub(crate) fn has_ended(&self, entry: usize) -> bool
        requires { entry < length self.now.entries }
        ensures { result ≡ block_ended self.now (length self.now.items) entry }
    {
        let session = self.session_at(entry);
        let from = self.seen_before(entry);
        match self.last.get(session as usize) {
            Some(last) => from < *last,
            None => any_ends(&self.segments.items()[from..], session),
        }
    }
}
