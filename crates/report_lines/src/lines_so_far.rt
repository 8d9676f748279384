//! The lines of the entries, made in order with a list of the steps that wait.
ghost use Rattle.std.specs.Prelude.{◌≡◌, ◌≢◌, ◌+◌, ◌-◌, ◌<◌, ◌≤◌, ◌^◌, ◌==◌, ◌&&◌, ℕ, not, nat_lt, [], ◌∷◌, ◌++◌, length, slice_get, vec_len, vec_capacity};
ghost use Rattle.std.specs.Prelude.{OnOk, OnErr, IfOk, OnSome, Some, None, true, if◌then◌else◌};
ghost use Rattle.std.specs.List.{list_any, filter, fold};
ghost use Rattle.report_lines.specs.Code.SoFar.{LinesSoFar, IsAt, IsReportSoFar};
ghost use Rattle.report_lines.specs.Inner.Waiting.{IsKept};
ghost use Rattle.report_lines.specs.Due.{orders};
ghost use Rattle.report_lines.specs.History.{seen_before};
ghost use Rattle.report_lines.specs.Code.Walk.{session_of_entry, is_awaited, block_ended};
ghost use Rattle.report_lines.specs.Inner.Trying.{is_marked, instances, first_try, pass, is_chosen, chosen_retry, retried_from};
ghost use Rattle.report_lines.specs.Report.{active};
ghost use Rattle.report_lines.specs.Code.Walk.{can_report, try_again, polls_again, polled, all_polls, has_unreported, is_of};
ghost use Rattle.report_lines.specs.Code.Walk.{before_launch, after_launch, walked, walked_from};

use crate::history::{Line, Moment, RunState};
use crate::run_so_far::RunSoFar;
use std::alloc::{AllocError, Global};
use std::marker::Model;

/// The lines so far, and the launched entries that are not reported.
#[derive(Drop)]
pub struct LinesSoFar {
    lines: Vec<Line>,
    waiting: Vec<usize>,
    launched: usize,
}

impl Model for LinesSoFar {
    ghost use Rattle.report_lines.specs.Code.SoFar.{LinesSoFar};
    ghost use Rattle.report_lines.specs.Inner.Waiting.{IsKept};

    ghost Value = { LinesSoFar };

    ghost view = { λ t. record { lines = t.lines.items; launched = t.launched } };

    ghost invariant = { λ t. IsKept t.lines.items t.launched t.waiting.items };
}

/// Takes an entry from the list.
fn leave(waiting: &mut Vec<usize>, entry: usize)
    ensures { waiting.new.items ≡ filter (λ j. not (j == entry)) waiting.old.items }
{
    waiting.retain(|j| *j != entry);
}

/// Puts an entry on the list, which has room.
fn join(waiting: &mut Vec<usize>, entry: usize)
    requires { vec_len waiting.old < vec_capacity waiting.old }
    ensures { waiting.new.items ≡ waiting.old.items ++ entry ∷ [] }
{
    waiting.push(entry).unwrap();
}

/// Which steps of the waiting list are tried: those that have joined it, or those of a session.
#[derive(Clone, Copy)]
enum Chosen {
    Joined,
    Own(u32),
}

fn is_chosen(run: &RunSoFar<'_>, m: Moment, chosen: Chosen, entry: usize) -> bool
    ensures { result ≡ is_chosen run.now m chosen entry }
{
    match chosen {
        Chosen::Joined => entry < m.joined,
        Chosen::Own(session) => run.session_at(entry) == session,
    }
}

impl LinesSoFar {
    /// With room for so many entries, each of which has two lines at most.
    pub(crate) fn new(alloc: Global, entries: usize) -> Result<LinesSoFar, AllocError>
        ensures empty { IfOk result (λ so_far. so_far ≡ record { lines = []; launched = 0 }) }
        ensures memory { OnErr result (0 < entries) }
    {
        Ok(LinesSoFar {
            lines: Vec::with_capacity(alloc, entries.saturating_mul(2))?,
            waiting: Vec::with_capacity(alloc, entries)?,
            launched: 0,
        })
    }

    /// The lines so far, in order.
    pub fn lines(&self) -> &[Line]
        ensures { result.now ≡ self.now.lines }
    {
        self.lines.as_slice()
    }

    /// The entry at this place of the waiting list.
    fn waiting_at(&self, place: usize) -> Option<usize>
        ensures entry { result ≡ slice_get (active self.now.lines self.now.launched) place }
        ensures room { OnSome result (place + 1 < 2 ^ 64) }
    {
        self.waiting.get(place).copied()
    }

    /// Whether a step that an entry's markers name is active.
    #[tactic(auto, using(crate::proofs::Waits::unmarked))]
    fn is_held(&self, run: &RunSoFar<'_>, entry: usize) -> bool
        ensures { result ≡ list_any (is_awaited run.now entry) (active self.now.lines self.now.launched) }
    {
        if !run.is_marked(entry) {
            return false;
        }
        for waiting in &self.waiting {
            if run.is_named(entry, *waiting) {
                return true;
            }
        }
        false
    }

    /// Whether a launched entry can be reported.
    fn may_report(&self, run: &RunSoFar<'_>, m: Moment, entry: usize) -> bool
        requires entry { entry < length run.now.entries }
        requires seen { m.seen ≡ length run.now.items }
        requires launched { m.launched ≡ self.now.launched }
        ensures { result ≡ can_report run.now m self.now.lines entry }
    {
        if !run.has_ended(entry) {
            return false;
        }
        !self.is_held(run, entry)
    }

    fn complete(&mut self, entry: usize, seen: usize) -> Result<(), AllocError>
        requires { entry < self.old.launched }
        ensures { OnOk result (self.new ≡ record self.old { lines = self.old.lines ++ Line.Completed entry seen ∷ [] }) }
    {
        self.lines.push(Line::Completed { entry, seen })?;
        leave(&mut self.waiting, entry);
        Ok(())
    }

    /// Whether a step of the waiting list is tried now, and can be reported.
    fn completes(&self, run: &RunSoFar<'_>, m: Moment, chosen: Chosen, entry: usize) -> bool
        requires entry { entry < length run.now.entries }
        requires seen { m.seen ≡ length run.now.items }
        requires launched { m.launched ≡ self.now.launched }
        ensures { result ≡ (is_chosen run.now m chosen entry && can_report run.now m self.now.lines entry) }
    {
        is_chosen(run, m, chosen, entry) && self.may_report(run, m, entry)
    }

    /// Tries the step at this place of the waiting list, and gives the place of the next one.
    fn try_at(
        &mut self,
        run: &RunSoFar<'_>,
        m: Moment,
        chosen: Chosen,
        place: usize,
    ) -> Result<usize, AllocError>
        requires entries { self.old.launched ≤ length run.now.entries }
        requires seen { m.seen ≡ length run.now.items }
        requires launched { m.launched ≡ self.old.launched }
        ensures launched { OnOk result (self.new.launched ≡ self.old.launched) }
        ensures lines { IfOk result (λ next. retried_from run.now m chosen self.new.lines self.new.launched next ≡ retried_from run.now m chosen self.old.lines self.old.launched place) }
        ensures fewer { IfOk result (λ next. length (active self.new.lines self.new.launched) - next ≤ length (active self.old.lines self.old.launched) - (place + 1)) }
        ensures grown { OnOk result (length self.old.lines ≤ length self.new.lines) }
        // Where no step is reported no memory is wanted.
        ensures memory { OnErr result (length self.old.lines < length (retried_from run.now m chosen self.old.lines self.old.launched place)) }
    {
        let Some(entry) = self.waiting_at(place) else {
            return Ok(place);
        };
        if self.completes(run, m, chosen, entry) {
            self.complete(entry, m.seen)?;
            Ok(place)
        } else {
            Ok(place + 1)
        }
    }

    /// Tries the chosen steps of the waiting list once, in order.
    fn go_through(
        &mut self,
        run: &RunSoFar<'_>,
        m: Moment,
        chosen: Chosen,
    ) -> Result<(), AllocError>
        requires entries { self.old.launched ≤ length run.now.entries }
        requires seen { m.seen ≡ length run.now.items }
        requires launched { m.launched ≡ self.old.launched }
        ensures lines { OnOk result (self.new ≡ record self.old { lines = fold (chosen_retry run.now m chosen) self.old.lines (instances self.old.launched) }) }
        ensures memory { OnErr result (length self.old.lines < length (fold (chosen_retry run.now m chosen) self.old.lines (instances self.old.launched))) }
    {
        let mut place = 0;
        for _turn in 0..self.waiting.len() {
            place = self.try_at(run, m, chosen, place)?;
        }
        Ok(())
    }

    /// Goes through the waiting list once.
    fn pass(&mut self, run: &RunSoFar<'_>, m: Moment) -> Result<(), AllocError>
        requires joined { m.joined ≤ m.launched }
        requires entries { self.old.launched ≤ length run.now.entries }
        requires seen { m.seen ≡ length run.now.items }
        requires launched { m.launched ≡ self.old.launched }
        ensures lines { OnOk result (self.new ≡ record self.old { lines = pass run.now m self.old.lines }) }
        ensures memory { OnErr result (length self.old.lines < length (pass run.now m self.old.lines)) }
    {
        self.go_through(run, m, Chosen::Joined)
    }

    /// Whether a step that remains on the waiting list has a marker.
    fn has_marked(&self, run: &RunSoFar<'_>, joined: usize) -> bool
        ensures { result ≡ list_any (λ j. nat_lt j joined && is_marked run.now j) (active self.now.lines self.now.launched) }
    {
        for waiting in &self.waiting {
            if *waiting < joined && run.is_marked(*waiting) {
                return true;
            }
        }
        false
    }

    /// Goes through the waiting list once, and says whether to go through it again.
    fn turn(&mut self, run: &RunSoFar<'_>, m: Moment) -> Result<bool, AllocError>
        requires joined { m.joined ≤ m.launched }
        requires entries { self.old.launched ≤ length run.now.entries }
        requires seen { m.seen ≡ length run.now.items }
        requires launched { m.launched ≡ self.old.launched }
        ensures lines { OnOk result (self.new ≡ record self.old { lines = pass run.now m self.old.lines }) }
        ensures again { IfOk result (λ again. again ≡ polls_again run.now m self.old.lines self.new.lines) }
        ensures memory { OnErr result (length self.old.lines < length (pass run.now m self.old.lines)) }
    {
        let had = self.lines.len();
        self.pass(run, m)?;
        if self.lines.len() <= had {
            return Ok(false);
        }
        Ok(self.has_marked(run, m.joined))
    }

    fn poll(&mut self, run: &RunSoFar<'_>, m: Moment) -> Result<(), AllocError>
        requires joined { m.joined ≤ m.launched }
        requires entries { self.old.launched ≤ length run.now.entries }
        requires room { length run.now.entries + 1 < 2 ^ 64 }
        requires seen { m.seen ≡ length run.now.items }
        requires launched { m.launched ≡ self.old.launched }
        ensures lines { OnOk result (self.new ≡ record self.old { lines = all_polls run.now m self.old.lines }) }
        ensures memory { OnErr result (length self.old.lines < length (all_polls run.now m self.old.lines)) }
    {
        for _turn in 0..m.joined + 1 {
            if !self.turn(run, m)? {
                return Ok(());
            }
        }
        Ok(())
    }

    /// Whether a step that the next entry's markers name is active once that entry is launched.
    fn is_held_first(&self, run: &RunSoFar<'_>) -> bool
        ensures { result ≡ list_any (is_awaited run.now self.now.launched) (active self.now.lines (self.now.launched + 1)) }
    {
        let held = self.is_held(run, self.launched);
        let by_itself = run.is_named(self.launched, self.launched);
        held || by_itself
    }

    /// The next entry is reported at its first try.
    fn launch_reported(&mut self, seen: usize) -> Result<(), AllocError>
        requires { self.old.launched + 1 < 2 ^ 64 }
        ensures { OnOk result (self.new ≡ record { lines = self.old.lines ++ Line.AtOnce self.old.launched seen ∷ []; launched = self.old.launched + 1 }) }
    {
        let entry = self.launched;
        self.lines.push(Line::AtOnce { entry, seen })?;
        self.launched += 1;
        Ok(())
    }

    /// The next entry waits after its first try.
    fn launch_waiting(&mut self) -> Result<(), AllocError>
        requires { self.old.launched + 1 < 2 ^ 64 }
        ensures { OnOk result (self.new ≡ record { lines = self.old.lines ++ Line.Waiting self.old.launched ∷ []; launched = self.old.launched + 1 }) }
    {
        let entry = self.launched;
        self.waiting.try_reserve(1)?;
        self.lines.push(Line::Waiting { entry })?;
        join(&mut self.waiting, entry);
        self.launched += 1;
        Ok(())
    }

    /// Launches the next entry, and tries it for the first time.
    fn begin(&mut self, run: &RunSoFar<'_>, m: Moment) -> Result<(), AllocError>
        requires entries { self.old.launched < length run.now.entries }
        requires room { length run.now.entries + 1 < 2 ^ 64 }
        requires seen { m.seen ≡ length run.now.items }
        requires launched { m.launched ≡ self.old.launched + 1 }
        ensures { OnOk result (self.new ≡ record { lines = first_try run.now m self.old.lines self.old.launched; launched = self.old.launched + 1 }) }
    {
        let ended = run.has_ended(self.launched);
        let held = self.is_held_first(run);
        let starred = run.is_starred(self.launched);
        if ended && !held && !starred {
            self.launch_reported(m.seen)
        } else {
            self.launch_waiting()
        }
    }

    /// Whether the session of the next entry has an active step.
    fn is_busy(&self, run: &RunSoFar<'_>, entry: usize) -> bool
        requires { entry ≡ self.now.launched }
        ensures { result ≡ has_unreported run.now self.now.lines entry }
    {
        let session = run.session_at(entry);
        self.has_of(run, session)
    }

    /// Whether a step of the session is active.
    fn has_of(&self, run: &RunSoFar<'_>, session: u32) -> bool
        ensures { result ≡ list_any (is_of run.now session) (active self.now.lines self.now.launched) }
    {
        for waiting in &self.waiting {
            if run.session_at(*waiting) == session {
                return true;
            }
        }
        false
    }

    /// Tries the session's steps again.
    fn retry_own(&mut self, run: &RunSoFar<'_>, m: Moment, session: u32) -> Result<(), AllocError>
        requires entries { self.old.launched ≤ length run.now.entries }
        requires seen { m.seen ≡ length run.now.items }
        requires launched { m.launched ≡ self.old.launched }
        ensures lines { OnOk result (self.new ≡ record self.old { lines = fold (try_again run.now m) self.old.lines (filter (is_of run.now session) (instances self.old.launched)) }) }
        ensures memory { OnErr result (length self.old.lines < length (fold (try_again run.now m) self.old.lines (filter (is_of run.now session) (instances self.old.launched)))) }
    {
        self.go_through(run, m, Chosen::Own(session))
    }

    /// The tries before an entry's Launch.
    fn make_way(&mut self, run: &RunSoFar<'_>, entry: usize) -> Result<(), AllocError>
        requires next { entry ≡ self.old.launched }
        requires entries { entry ≤ length run.now.entries }
        requires now { orders run.now.items ≤ run.now.setups + entry }
        ensures lines { OnOk result (self.new ≡ record self.old { lines = before_launch run.now self.old.lines entry }) }
        ensures memory { OnErr result (has_unreported run.now self.old.lines entry ≡ true) }
    {
        if !self.is_busy(run, entry) {
            return Ok(());
        }
        let m = run.before(entry);
        self.retry_own(run, m, run.session_at(entry))?;
        self.poll(run, m)
    }

    /// The next entry's Launch and the tries after it.
    fn launch(&mut self, run: &RunSoFar<'_>) -> Result<(), AllocError>
        requires entries { self.old.launched < length run.now.entries }
        requires now { orders run.now.items ≤ run.now.setups + self.old.launched + 1 }
        ensures { OnOk result (self.new ≡ record { lines = after_launch run.now self.old.lines self.old.launched; launched = self.old.launched + 1 }) }
    {
        let m = run.after(self.launched);
        self.begin(run, m)?;
        self.poll(run, m)
    }

    /// The tries after the last entry; says how the entries end.
    fn finish(&mut self, run: &RunSoFar<'_>) -> Result<RunState, AllocError>
        requires all { self.old.launched ≡ length run.now.entries }
        requires now { orders run.now.items ≤ run.now.setups + self.old.launched }
        ensures report { IfOk result (λ state. walked_from run.now self.old.launched 0 self.old.launched self.old.lines ≡ record { lines = self.new.lines; state = state }) }
        ensures at { IfOk result (λ state. IsAt run.now self.old.launched self.new.launched state) }
    {
        let m = run.before(self.launched);
        self.poll(run, m)?;
        Ok(if self.waiting.is_empty() {
            RunState::Whole
        } else {
            RunState::Invalid
        })
    }

    /// The tries before an entry's Launch, or after the last entry; says how far the entries have come.
    fn arrive(&mut self, run: &RunSoFar<'_>, entry: usize) -> Result<RunState, AllocError>
        requires next { entry ≡ self.old.launched }
        requires entries { entry ≤ length run.now.entries }
        requires now { orders run.now.items ≤ run.now.setups + entry }
        ensures report { IfOk result (λ state. walked_from run.now entry (length run.now.entries - entry) entry self.old.lines ≡ record { lines = self.new.lines; state = state }) }
        ensures at { IfOk result (λ state. IsAt run.now entry self.new.launched state) }
    {
        if entry == run.len() {
            return self.finish(run);
        }
        self.make_way(run, entry)?;
        if self.is_busy(run, entry) {
            Ok(RunState::Invalid)
        } else {
            Ok(RunState::Due(entry))
        }
    }

    /// The next segment has come; before it there were so many of entries.
    pub(crate) fn go_on(
        &mut self,
        run: &RunSoFar<'_>,
        state: RunState,
        count: usize,
    ) -> Result<RunState, AllocError>
        requires orders { orders run.now.items ≡ run.now.setups + count + 1 }
        requires report { IsReportSoFar run.now count self.old state }
        ensures report { IfOk result (λ next. IsReportSoFar run.now (count + 1) self.new next) }
        // Where the entries have come to their end, nothing is added.
        ensures memory { OnErr result ((state ≢ RunState.Whole) × (state ≢ RunState.Invalid)) }
    {
        match state {
            RunState::Due(_) => {
                self.launch(run)?;
                self.arrive(run, self.launched)
            }
            RunState::Whole | RunState::Invalid => Ok(state),
        }
    }
}
