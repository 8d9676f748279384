//! The run of a permutation: its entries with a history of theirs.
ghost use Rattle.std.specs.Prelude.{◌≡◌, ◌≢◌, ◌+◌, ◌<◌, ◌≤◌, ◌^◌, [], length, map, IfOk, OnErr};
ghost use Rattle.spec_parser.specs.Trees.{entry_view};

use crate::entries;
use crate::segments::{Segments, starts};
use session_machine::HistItem;
use spec_parser::Entry;
use std::alloc::{AllocError, Global};
use std::marker::Model;

/// Entries, the history, and how many segments come before the first entry's.
#[derive(Drop)]
pub struct PermutationRun<'a> {
    steps: &'a [Entry],
    history: &'a [HistItem<'a>],
    setups: usize,
    starts: Vec<usize>,
}

impl<'a> Model for PermutationRun<'a> {
    ghost use Rattle.std.specs.Prelude.{map};
    ghost use Rattle.spec_parser.specs.Trees.{entry_view};
    ghost use Rattle.report_lines.specs.History.{PermutationRun};

    ghost Value = { PermutationRun };

    ghost use Rattle.report_lines.specs.Inner.Places.{IsCut};

    ghost view = { λ c. record { entries = map entry_view c.steps.now; items = c.history.now; setups = c.setups } };

    ghost invariant = { λ c. IsCut (record { entries = map entry_view c.steps.now; items = c.history.now; setups = c.setups }) c.starts.items };
}

impl<'a> PermutationRun<'a> {
    ghost use Rattle.report_lines.specs.History.{PermutationRun, seen_before};
    ghost use Rattle.report_lines.specs.Code.Walk.{session_of_entry};

    /// These entries with a history, in which so many segments come before the first entry's. Fails only where memory is refused.
    pub fn new(
        alloc: Global,
        entries: &'a [Entry],
        items: &'a [HistItem<'a>],
        setups: usize,
    ) -> Result<PermutationRun<'a>, AllocError>
        requires { setups + length entries.now + 1 < 2 ^ 64 }
        ensures run { IfOk result (λ run. run ≡ record { entries = map entry_view entries.now; items = items.now; setups = setups }) }
        ensures memory { OnErr result (items.now ≢ []) }
    {
        let starts = starts(alloc, items)?;
        Ok(PermutationRun {
            steps: entries,
            history: items,
            setups,
            starts,
        })
    }

    pub fn entries(&self) -> &'a [Entry]
        ensures { map entry_view result.now ≡ self.now.entries }
    {
        self.steps
    }

    /// How many segments come before the first entry's.
    pub(crate) fn setups(&self) -> usize
        ensures exact { result ≡ self.now.setups }
        ensures room { result + length self.now.entries + 1 < 2 ^ 64 }
    {
        let _ = &self.starts;
        self.setups
    }

    /// The whole history.
    pub fn items(&self) -> &'a [HistItem<'a>]
        ensures { result.now ≡ self.now.items }
    {
        self.history
    }

    /// The history, cut into segments.
    pub fn segments(&self) -> Segments<'_>
        ensures { result ≡ self.now.items }
    {
        Segments::new(self.history, &self.starts)
    }

    /// How many items come before an entry's Launch.
    pub fn seen_before(&self, entry: usize) -> usize
        requires { entry ≤ length self.now.entries }
        ensures exact { result ≡ seen_before self.now entry }
        ensures within { result ≤ length self.now.items }
    {
        self.segments().start(self.setups + entry)
    }

    /// The session of an entry; 0 where there is no such entry.
    pub fn session_at(&self, entry: usize) -> u32
        ensures { result ≡ session_of_entry self.now entry }
    {
        entries::session_at(self.entries(), entry)
    }
}
