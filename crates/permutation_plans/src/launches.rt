//! What a permutation launches, in its order.
ghost use Rattle.std.specs.Prelude.{◌≡◌, ◌≢◌, ◌+◌, ◌<◌, ◌^◌, ◌++◌, [], length, map, option_map, option_to_list, IfOk, OnOk, OnErr};
ghost use Rattle.std.specs.Option.{option_map_or};
ghost use Rattle.spec_parser.specs.Trees.{StepTree, part_view, session_view, spec_view, entry_view};
ghost use Rattle.spec_parser.specs.Numbered.{step_of_entry};
ghost use Rattle.permutation_plans.specs.Launches.{launch_in, own_launches, launch_of_entry, launches, run_of, due_after};
ghost use Rattle.report_lines.specs.Code.Progress.{KeepsFront, IsSettled};

use report_lines::{PlanProgress, PlannedLaunch, PlannedRun, Schedule};
use session_machine::{HistItem, Order};
use spec_parser::{Entry, Part, SessionPart, Spec};
use std::alloc::{AllocError, Global};
use std::marker::Model;

/// The blocks of a permutation's setups, steps and teardowns, each with its session.
#[derive(Drop)]
pub struct Launches {
    setups: Vec<PlannedLaunch>,
    steps: Vec<PlannedLaunch>,
    teardowns: Vec<PlannedLaunch>,
    sessions: u32,
    last: Vec<PlannedLaunch>,
}

impl Model for Launches {
    ghost use Rattle.report_lines.specs.Due.{Launches as Listed};

    ghost Value = { Listed };

    ghost view = { λ l. record { setups = l.setups.items; steps = l.steps.items; teardowns = l.teardowns.items; sessions = l.sessions; last = l.last.items } };
}

/// Adds the part, if it is there, as a launch in the session.
fn push_part(
    launches: &mut Vec<PlannedLaunch>,
    session: u32,
    part: Option<Part<'_>>,
) -> Result<(), AllocError>
    ensures launches { OnOk result (launches.new.items ≡ launches.old.items ++ map (launch_in session) (option_to_list (option_map part_view part.entry))) }
    ensures memory { OnErr result (option_to_list (option_map part_view part.entry) ≢ []) }
{
    if let Some(part) = part {
        launches.push(PlannedLaunch {
            session,
            block: part.block,
        })?;
    }
    Ok(())
}

/// Adds the setup of each session.
fn push_setups(
    setups: &mut Vec<PlannedLaunch>,
    sessions: &[SessionPart<'_>],
) -> Result<(), AllocError>
    requires { length sessions.now < 2 ^ 32 }
    ensures { OnOk result (setups.new.items ≡ setups.old.items ++ own_launches (λ s. s.setup) (map session_view sessions.now)) }
{
    for (place, session) in sessions.iter().enumerate() {
        push_part(setups, place as u32 + 1, session.setup)?;
    }
    Ok(())
}

/// Adds the teardown of each session.
fn push_teardowns(
    teardowns: &mut Vec<PlannedLaunch>,
    sessions: &[SessionPart<'_>],
) -> Result<(), AllocError>
    requires { length sessions.now < 2 ^ 32 }
    ensures { OnOk result (teardowns.new.items ≡ teardowns.old.items ++ own_launches (λ s. s.teardown) (map session_view sessions.now)) }
{
    for (place, session) in sessions.iter().enumerate() {
        push_part(teardowns, place as u32 + 1, session.teardown)?;
    }
    Ok(())
}

/// The setups of the file, then those of the sessions.
pub fn setups(alloc: Global, spec: &Spec<'_>) -> Result<Vec<PlannedLaunch>, AllocError>
    requires { length spec.now.sessions.items < 2 ^ 32 }
    ensures { IfOk result (λ setups. setups.items ≡ map (launch_in 0) (spec_view spec.now).setups ++ own_launches (λ s. s.setup) (spec_view spec.now).sessions) }
{
    let mut setups = Vec::new(alloc);
    for part in &spec.setups {
        push_part(&mut setups, 0, Some(*part))?;
    }
    push_setups(&mut setups, &spec.sessions)?;
    Ok(setups)
}

/// The number of the block of an entry's step.
fn block_of(spec: &Spec<'_>, entry: &Entry) -> u32
    ensures { result ≡ option_map_or (λ (s : StepTree). s.part.block) (step_of_entry (spec_view spec.now) (entry_view entry.now)) 0 }
{
    match spec.step_of(entry) {
        None => 0,
        Some(step) => step.part.block,
    }
}

/// The blocks of the entries' steps.
fn steps(
    alloc: Global,
    spec: &Spec<'_>,
    entries: &[Entry],
) -> Result<Vec<PlannedLaunch>, AllocError>
    ensures steps { IfOk result (λ steps. steps.items ≡ map (launch_of_entry (spec_view spec.now)) (map entry_view entries.now)) }
    ensures memory { OnErr result (entries.now ≢ []) }
{
    let mut steps = Vec::new(alloc);
    for entry in entries {
        steps.push(PlannedLaunch {
            session: entry.session,
            block: block_of(spec, entry),
        })?;
    }
    Ok(steps)
}

impl Launches {
    ghost use Rattle.std.specs.Prelude.{List};
    ghost use Rattle.session_machine.specs.declared.reply.HistItem.{HistItem};
    ghost use Rattle.report_lines.specs.Code.Progress.{KeepsFront, IsSettled};
    ghost use Rattle.permutation_plans.specs.Launches.{launches, run_of, due_after};

    /// What a permutation of the spec launches.
    pub fn of(alloc: Global, spec: &Spec<'_>, entries: &[Entry]) -> Result<Launches, AllocError>
        requires { length spec.now.sessions.items < 2 ^ 32 }
        ensures { IfOk result (λ l. l ≡ launches (spec_view spec.now) (map entry_view entries.now)) }
    {
        let mut teardowns = Vec::new(alloc);
        push_teardowns(&mut teardowns, &spec.sessions)?;
        let mut last = Vec::new(alloc);
        push_part(&mut last, 0, spec.teardown)?;
        Ok(Launches {
            setups: setups(alloc, spec)?,
            steps: steps(alloc, spec, entries)?,
            teardowns,
            sessions: spec.sessions.len() as u32,
            last,
        })
    }

    /// What is kept before anything has come.
    pub fn begin(&self, alloc: Global, entries: &[Entry]) -> Result<PlanProgress, AllocError>
        ensures { IfOk result (λ p. (items : List HistItem) → KeepsFront (run_of self.now (map entry_view entries.now) items) p) }
    {
        PlanProgress::new(alloc, entries, self.setups.len())
    }

    /// The next order, by what was kept of a prefix of the history; the same is then kept of the whole history.
    pub fn go_on(
        &self,
        alloc: Global,
        entries: &[Entry],
        items: &[HistItem<'_>],
        progress: &mut PlanProgress,
    ) -> Result<Order, AllocError>
        requires follows { KeepsFront (run_of self.now (map entry_view entries.now) items.now) progress.old }
        ensures order { IfOk result (λ order. order ≡ due_after self.now (map entry_view entries.now) items.now) }
        ensures follows { OnOk result (KeepsFront (run_of self.now (map entry_view entries.now) items.now) progress.new) }
        ensures settled { OnOk result (IsSettled (run_of self.now (map entry_view entries.now) items.now) progress.new) }
        // Asked again after the same items it wants no memory.
        ensures memory { OnErr result (IsSettled (run_of self.now (map entry_view entries.now) items.now) progress.old → ⊥) }
    {
        order_on(self, alloc, entries, items, progress)
    }
}

/// The same, all of it lent for one lifetime, as a plan holds it.
fn order_on<'a>(
    launches: &'a Launches,
    alloc: Global,
    entries: &'a [Entry],
    items: &'a [HistItem<'a>],
    progress: &mut PlanProgress,
) -> Result<Order, AllocError>
    requires follows { KeepsFront (run_of launches.now (map entry_view entries.now) items.now) progress.old }
    ensures order { IfOk result (λ order. order ≡ due_after launches.now (map entry_view entries.now) items.now) }
    ensures follows { OnOk result (KeepsFront (run_of launches.now (map entry_view entries.now) items.now) progress.new) }
    ensures settled { OnOk result (IsSettled (run_of launches.now (map entry_view entries.now) items.now) progress.new) }
    ensures memory { OnErr result (IsSettled (run_of launches.now (map entry_view entries.now) items.now) progress.old → ⊥) }
{
    let schedule = Schedule {
        setups: &launches.setups,
        steps: &launches.steps,
        teardowns: &launches.teardowns,
        sessions: launches.sessions,
        last: &launches.last,
    };
    PlannedRun::new(entries, items, &schedule).go_on(alloc, progress)
}
