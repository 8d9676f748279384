//! What is kept of a permutation between two of its orders, so that its plan goes on from where it stood.
ghost use Rattle.std.specs.Prelude.{◌≡◌, ◌≢◌, ◌+◌, ◌-◌, ◌<◌, ◌≤◌, ◌^◌, ◌++◌, ◌⊎◌, [], ◌∷◌, length, IfOk, OnOk, OnErr, IsTrue, true};
ghost use Rattle.report_lines.specs.Starts.{is_order};
ghost use Rattle.report_lines.specs.Due.{orders};
ghost use Rattle.report_lines.specs.Report.{report};
ghost use Rattle.report_lines.specs.Code.Places.{starts_from};
ghost use Rattle.report_lines.specs.Inner.Places.{starts_after, ended_behind, ends_after, IsZeros};
ghost use Rattle.report_lines.specs.Code.Progress.{Keeps, KeepsFront, IsSettled, permutation_run};
ghost use Rattle.report_lines.specs.Inner.Progress.{Lags, IsNext, IsNoted};

use crate::entries::{is_order, session_of};
use crate::history::RunState;
use crate::lines_so_far::LinesSoFar;
use crate::permutation_run::PermutationRun;
use crate::run_so_far::RunSoFar;
use crate::segments::Segments;
use session_machine::HistItem;
use spec_parser::Entry;
use std::alloc::{AllocError, Global};

/// The orders so far, the lines of the entries, and how far they have come.
#[derive(Drop)]
pub struct PlanProgress {
    starts: Vec<usize>,
    // Behind which item the last block of each session ended.
    last: Vec<usize>,
    so_far: LinesSoFar,
    state: RunState,
    // So many items have come, and the lines are those of so many segments of entries.
    seen: usize,
    segments_done: usize,
}

/// As many zeros as the entries' sessions need.
fn no_ends(alloc: Global, entries: &[Entry]) -> Result<Vec<usize>, AllocError>
    ensures zeros { IfOk result (λ last. IsZeros last.items) }
    ensures memory { OnErr result (entries.now ≢ []) }
{
    if entries.is_empty() {
        return Ok(Vec::new(alloc));
    }
    let mut sessions = 0;
    for entry in entries {
        sessions = sessions.max(entry.session as usize + 1);
    }
    vec![in alloc; 0; sessions]
}

/// A block of the session ended behind this item.
fn end_behind(last: &mut Vec<usize>, session: u32, place: usize)
    ensures { last.new.items ≡ ended_behind last.old.items session place }
{
    if let Some(end) = last.get_mut(session as usize) {
        *end = place;
    }
}

/// Where the item ends a block, that block ended behind it.
fn note_end(last: &mut Vec<usize>, item: &HistItem<'_>, place: usize)
    ensures { last.new.items ≡ ends_after item.now place last.old.items }
{
    if item.reply.ended {
        end_behind(last, session_of(&item.event), place);
    }
}

/// Where the item is an order, it stands at this place.
fn note_start(starts: &mut Vec<usize>, item: &HistItem<'_>, place: usize) -> Result<(), AllocError>
    ensures starts { OnOk result (starts.new.items ≡ starts_after item.now place starts.old.items) }
    ensures memory { OnErr result (is_order item.now.event ≡ true) }
{
    if is_order(&item.event) {
        starts.push(place)?;
    }
    Ok(())
}

impl PlanProgress {
    /// Before anything has come.
    pub fn new(alloc: Global, entries: &[Entry], setups: usize) -> Result<PlanProgress, AllocError>
        requires { setups + length entries.now + 1 < 2 ^ 64 }
        ensures kept { IfOk result (λ p. Keeps (permutation_run entries.now [] setups) p) }
        ensures memory { OnErr result (entries.now ≢ []) }
    {
        let last = no_ends(alloc, entries)?;
        let so_far = LinesSoFar::new(alloc, entries.len())?;
        let state = if entries.is_empty() {
            RunState::Whole
        } else {
            RunState::Due(0)
        };
        Ok(PlanProgress {
            starts: Vec::new(alloc),
            last,
            so_far,
            state,
            seen: 0,
            segments_done: 0,
        })
    }

    /// Adds the lines of the last segment, if it is an entry's and they are missing.
    fn settle(
        &mut self,
        entries: &[Entry],
        setups: usize,
        items: &[HistItem<'_>],
    ) -> Result<(), AllocError>
        requires { Keeps (permutation_run entries.now items.now setups) self.old }
        ensures settled { OnOk result (IsSettled (permutation_run entries.now items.now setups) self.new) }
        ensures memory { OnErr result (IsSettled (permutation_run entries.now items.now setups) self.old → ⊥) }
    {
        if self.starts.len().saturating_sub(setups) == self.segments_done {
            return Ok(());
        }
        let run = RunSoFar::new(entries, items, setups, &self.starts, &self.last);
        self.state = self.so_far.go_on(&run, self.state, self.segments_done)?;
        self.segments_done += 1;
        Ok(())
    }

    /// The next item has come.
    fn note(&mut self, item: &HistItem<'_>) -> Result<(), AllocError>
        requires { self.old.seen + 1 < 2 ^ 64 }
        ensures noted { OnOk result (IsNoted item.now self.old self.new) }
        ensures memory { OnErr result (is_order item.now.event ≡ true) }
    {
        note_start(&mut self.starts, item, self.seen)?;
        note_end(&mut self.last, item, self.seen + 1);
        self.seen += 1;
        Ok(())
    }

    /// The next item has come: an order, or a Step of the last one's segment.
    fn see(
        &mut self,
        entries: &[Entry],
        setups: usize,
        front: &[HistItem<'_>],
        item: &HistItem<'_>,
    ) -> Result<(), AllocError>
        requires kept { Keeps (permutation_run entries.now front.now setups) self.old }
        requires next { (is_order item.now.event ≡ true) ⊎ Lags (permutation_run entries.now front.now setups) self.old }
        requires room { length front.now + 1 < 2 ^ 64 }
        ensures kept { OnOk result (Keeps (permutation_run entries.now (front.now ++ item.now ∷ []) setups) self.new) }
        ensures lags { OnOk result (Lags (permutation_run entries.now (front.now ++ item.now ∷ []) setups) self.new) }
        ensures memory { OnErr result (is_order item.now.event ≡ true) }
    {
        if is_order(&item.event) {
            self.settle(entries, setups, front)?;
            self.note(item)
        } else {
            self.note(item)
        }
    }

    /// The items behind those that have come.
    fn see_all(
        &mut self,
        entries: &[Entry],
        setups: usize,
        items: &[HistItem<'_>],
    ) -> Result<(), AllocError>
        requires follows { KeepsFront (permutation_run entries.now items.now setups) self.old }
        requires next { IsNext (permutation_run entries.now items.now setups) self.old }
        ensures kept { OnOk result (Keeps (permutation_run entries.now items.now setups) self.new) }
        ensures same { length items.now ≤ self.old.seen → self.new ≡ self.old }
        ensures memory { OnErr result (self.old.seen < length items.now) }
    {
        for place in self.seen..items.len() {
            self.see(entries, setups, &items[..place], &items[place])?;
        }
        Ok(())
    }

    /// Whether the item behind those that have come is an order, or belongs to a segment whose lines are missing.
    fn goes_on(&self, entries: &[Entry], setups: usize, items: &[HistItem<'_>]) -> bool
        requires follows { KeepsFront (permutation_run entries.now items.now setups) self.now }
        ensures next { IsTrue result → IsNext (permutation_run entries.now items.now setups) self.now }
        ensures all { length items.now ≤ self.now.seen → result ≡ true }
    {
        if self.starts.len().saturating_sub(setups + 1) == self.segments_done {
            return true;
        }
        match items.get(self.seen) {
            None => true,
            Some(item) => is_order(&item.event),
        }
    }

    /// Where a segment has grown since its lines were added, nothing is kept any more.
    fn forget_if_grown(
        &mut self,
        alloc: Global,
        entries: &[Entry],
        setups: usize,
        items: &[HistItem<'_>],
    ) -> Result<(), AllocError>
        requires room { setups + length entries.now + 1 < 2 ^ 64 }
        requires follows { KeepsFront (permutation_run entries.now items.now setups) self.old }
        ensures follows { OnOk result (KeepsFront (permutation_run entries.now items.now setups) self.new) }
        ensures next { OnOk result (IsNext (permutation_run entries.now items.now setups) self.new) }
        ensures same { length items.now ≤ self.old.seen → self.new ≡ self.old }
        ensures memory { OnErr result (self.old.seen < length items.now) }
    {
        if self.goes_on(entries, setups, items) {
            return Ok(());
        }
        *self = PlanProgress::new(alloc, entries, setups)?;
        Ok(())
    }

    /// Goes on to the end of these items. Where a segment has grown since its lines were added, all are made anew, from the first item on.
    pub(crate) fn reach(
        &mut self,
        alloc: Global,
        entries: &[Entry],
        setups: usize,
        items: &[HistItem<'_>],
    ) -> Result<(), AllocError>
        requires room { setups + length entries.now + 1 < 2 ^ 64 }
        requires follows { KeepsFront (permutation_run entries.now items.now setups) self.old }
        ensures settled { OnOk result (IsSettled (permutation_run entries.now items.now setups) self.new) }
        ensures memory { OnErr result (IsSettled (permutation_run entries.now items.now setups) self.old → ⊥) }
    {
        self.forget_if_grown(alloc, entries, setups, items)?;
        self.see_all(entries, setups, items)?;
        self.settle(entries, setups, items)
    }

    /// The items that have come, cut into segments.
    pub(crate) fn segments<'a>(&'a self, items: &'a [HistItem<'a>]) -> Segments<'a>
        requires { self.now.starts.items ≡ starts_from 0 items.now }
        ensures { result ≡ items.now }
    {
        Segments::new(items, &self.starts)
    }

    /// How far the entries have come.
    pub(crate) fn state(&self) -> RunState
        ensures { result ≡ self.now.state }
    {
        self.state
    }
}

/// The lines of the entries, and how far they have come.
pub fn report(alloc: Global, run: &PermutationRun<'_>) -> Result<(LinesSoFar, RunState), AllocError>
    ensures report { IfOk result (λ reported. report run.now (orders run.now.items - run.now.setups) ≡ record { lines = reported.0.lines; state = reported.1 }) }
    // Without entries and items there is nothing to tell.
    ensures memory { OnErr result ((run.now.entries ≢ []) ⊎ (run.now.items ≢ [])) }
{
    let mut progress = PlanProgress::new(alloc, run.entries(), run.setups())?;
    progress.reach(alloc, run.entries(), run.setups(), run.items())?;
    let PlanProgress { so_far, state, .. } = progress;
    Ok((so_far, state))
}
