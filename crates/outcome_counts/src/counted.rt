//! Permutations by what came of them.

ghost use Rattle.std.specs.Prelude.{◌≡◌, ◌+◌, ◌<◌, ◌^◌, ◌∷◌, ◌++◌, [], IfOk, MatchOption, OnOk, length, map, slice_index, slice_set};
ghost use Rattle.spec_parser.specs.Trees.{entry_view};
ghost use Rattle.outcome_counts.specs.Counts.{HasRoom, counts_view};
ghost use Rattle.outcome_counts.specs.Code.Adding.{IsAdded, IsAt, IsNew, outcomes_in};

use crate::outcome::RunOutcome;
use spec_parser::Entry;
use std::alloc::{AllocError, Global};

/// Permutations of one outcome: how many, and of these the one that goes least often from one session to another, with how often
/// it does.
pub struct Group<'t> {
    pub outcome: RunOutcome<'t>,
    pub count: u64,
    pub nearest: Vec<Entry>,
    pub switches: usize,
}

/// Written out, as that of `RunOutcome`.
impl<'t> Drop for Group<'t> {
    fn drop(self) {
        let Group {
            outcome: _,
            count: _,
            nearest: _,
            switches: _,
        } = self;
    }
}

/// How many permutations can't be run, how many end in a wait, and the others by their outcomes.
pub struct Counted<'t> {
    pub blocked: u64,
    pub waiting: u64,
    pub groups: Vec<Group<'t>>,
}

/// Written out, as that of `RunOutcome`.
impl<'t> Drop for Counted<'t> {
    fn drop(self) {
        let Counted {
            blocked: _,
            waiting: _,
            groups: _,
        } = self;
    }
}

/// How often the entries go from one session to another.
fn switches_in(entries: &[Entry]) -> usize {
    let mut switches = 0usize;
    let mut last = 0;
    for entry in entries {
        if entry.session != last {
            switches = switches.saturating_add(1);
        }
        last = entry.session;
    }
    switches
}

/// The same entries again.
pub fn copied_entries(alloc: Global, entries: &[Entry]) -> Result<Vec<Entry>, AllocError>
    ensures { IfOk result (λ copies. map entry_view copies.items ≡ map entry_view entries.now) }
{
    let mut copies = Vec::new(alloc);
    for entry in entries {
        copies.push(Entry {
            session: entry.session,
            step: entry.step,
            markers: Vec::from_slice(alloc, entry.markers.as_slice())?,
        })?;
    }
    Ok(copies)
}

impl<'t> Group<'t> {
    /// The first permutation of an outcome.
    fn new(
        alloc: Global,
        outcome: RunOutcome<'t>,
        entries: &[Entry],
    ) -> Result<Group<'t>, AllocError>
        ensures { IfOk result (λ group. (group.outcome ≡ outcome.entry) × (group.count ≡ 1)) }
    {
        let nearest = copied_entries(alloc, entries)?;
        let switches = switches_in(entries);
        Ok(Group {
            outcome,
            count: 1,
            nearest,
            switches,
        })
    }

    /// Keeps the permutation if it is nearer.
    fn keep_nearer(&mut self, alloc: Global, entries: &[Entry]) -> Result<(), AllocError>
        ensures { OnOk result ((self.new.outcome ≡ self.old.outcome) × (self.new.count ≡ self.old.count)) }
    {
        let switches = switches_in(entries);
        if switches < self.switches {
            self.nearest = copied_entries(alloc, entries)?;
            self.switches = switches;
        }
        Ok(())
    }

    /// One more permutation of the outcome.
    fn add(&mut self, alloc: Global, entries: &[Entry]) -> Result<(), AllocError>
        requires { self.old.count + 1 < 2 ^ 64 }
        ensures { OnOk result ((self.new.outcome ≡ self.old.outcome) × (self.new.count ≡ self.old.count + 1)) }
    {
        self.keep_nearer(alloc, entries)?;
        self.count += 1;
        Ok(())
    }
}

/// The number of the group that has the outcome.
fn place_of(groups: &[Group<'_>], outcome: &RunOutcome<'_>) -> Option<usize>
    ensures { MatchOption result (IsNew (outcomes_in groups.now) outcome.now) (λ k. IsAt (outcomes_in groups.now) outcome.now k) }
{
    for k in 0..groups.len() {
        let group = &groups[k];
        if group.outcome.same(outcome) {
            return Some(k);
        }
    }
    None
}

impl<'t> Counted<'t> {
    /// None is counted yet.
    pub fn new(alloc: Global) -> Counted<'t>
        ensures { counts_view result ≡ record { blocked = 0; waiting = 0; outcomes = []; counts = [] } }
    {
        Counted {
            blocked: 0,
            waiting: 0,
            groups: Vec::new(alloc),
        }
    }

    /// Counts a permutation that can't be run.
    pub fn add_blocked(&mut self)
        requires { HasRoom (counts_view self.old) }
        ensures { counts_view self.new ≡ record (counts_view self.old) { blocked = self.old.blocked + 1 } }
    {
        self.blocked += 1;
    }

    /// Counts a permutation that ends in a wait.
    pub fn add_waiting(&mut self)
        requires { HasRoom (counts_view self.old) }
        ensures { counts_view self.new ≡ record (counts_view self.old) { waiting = self.old.waiting + 1 } }
    {
        self.waiting += 1;
    }

    /// Counts a permutation of an outcome that is known.
    fn add_known(&mut self, alloc: Global, k: usize, entries: &[Entry]) -> Result<(), AllocError>
        requires within { k < length self.old.groups.items }
        requires room { HasRoom (counts_view self.old) }
        ensures outcomes { OnOk result ((counts_view self.new).outcomes ≡ (counts_view self.old).outcomes) }
        ensures counts { OnOk result ((counts_view self.new).counts ≡ slice_set (counts_view self.old).counts k (slice_index (counts_view self.old).counts k + 1)) }
        ensures others { OnOk result ((self.new.blocked ≡ self.old.blocked) × (self.new.waiting ≡ self.old.waiting)) }
    {
        self.groups[k].add(alloc, entries)?;
        Ok(())
    }

    /// Counts the first permutation of an outcome.
    fn add_new(
        &mut self,
        alloc: Global,
        outcome: RunOutcome<'t>,
        entries: &[Entry],
    ) -> Result<(), AllocError>
        ensures outcomes { OnOk result ((counts_view self.new).outcomes ≡ (counts_view self.old).outcomes ++ outcome.entry ∷ []) }
        ensures counts { OnOk result ((counts_view self.new).counts ≡ (counts_view self.old).counts ++ 1 ∷ []) }
        ensures others { OnOk result ((self.new.blocked ≡ self.old.blocked) × (self.new.waiting ≡ self.old.waiting)) }
    {
        let group = Group::new(alloc, outcome, entries)?;
        self.groups.push(group)?;
        Ok(())
    }

    /// Counts a permutation that ran to its end with this outcome.
    pub fn add(
        &mut self,
        alloc: Global,
        outcome: RunOutcome<'t>,
        entries: &[Entry],
    ) -> Result<(), AllocError>
        requires { HasRoom (counts_view self.old) }
        ensures { OnOk result (IsAdded (counts_view self.old) (counts_view self.new) outcome.entry) }
    {
        match place_of(self.groups.as_slice(), &outcome) {
            Some(k) => {
                self.add_known(alloc, k, entries)?;
                Ok(())
            }
            None => {
                self.add_new(alloc, outcome, entries)?;
                Ok(())
            }
        }
    }
}
