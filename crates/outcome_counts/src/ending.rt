//! How permutations end.

ghost use Rattle.std.specs.Prelude.{◌≡◌, ◌≤◌, ◌-◌, nat_lt, IfOk, length, map};
ghost use Rattle.spec_parser.specs.Trees.{entry_view, spec_view};
ghost use Rattle.spec_parser.specs.Stands.{Stands};
ghost use Rattle.report_lines.specs.Starts.{segment_start};
ghost use Rattle.report_lines.specs.Due.{orders};
ghost use Rattle.report_lines.specs.Report.{report};
ghost use Rattle.report_text.specs.Code.Turns.{setup_numbers};
ghost use Rattle.outcome_counts.specs.Endings.{ending, ending_in, wanted};

use crate::setups::setups_in;
use report_lines::{PermutationRun, RunState, report};
use session_machine::HistItem;
use spec_parser::{Entry, Spec};
use std::alloc::{AllocError, Global};

/// How the entries of a permutation end.
#[derive(Clone, Copy)]
pub enum Ending {
    /// Each step was reported.
    Whole,
    /// It can't be run: it starts a step of a session that waits.
    Blocked,
    /// All steps were started, and one waits for ever.
    Waits,
    /// A setup failed or waits.
    NotSetUp,
}

/// How the entries end that came so far, with a step that was not started or not.
fn end_of(state: RunState, early: bool) -> Ending
    ensures { result ≡ ending state early }
{
    match state {
        RunState::Whole => Ending::Whole,
        RunState::Due(_) => Ending::NotSetUp,
        RunState::Invalid => {
            if early {
                Ending::Blocked
            } else {
                Ending::Waits
            }
        }
    }
}

/// How a permutation ended, and how many items of its history come before its entries and before its teardowns.
#[derive(Clone, Copy)]
pub struct Ended {
    pub ending: Ending,
    pub setups: usize,
    pub front: usize,
}

/// The same of a run, of which so many segments are setups, and so many are wanted before the teardowns.
fn ended_by(
    alloc: Global,
    run: &PermutationRun<'_>,
    setups: usize,
    segments: usize,
) -> Result<Ended, AllocError>
    ensures ending { IfOk result (λ e. e.ending ≡ ending (report run.now (orders run.now.items - run.now.setups)).state (nat_lt (orders run.now.items) segments)) }
    ensures setups { IfOk result (λ e. e.setups ≡ segment_start run.now.items setups) }
    ensures front { IfOk result (λ e. e.front ≡ segment_start run.now.items segments) }
    ensures within { IfOk result (λ e. e.front ≤ length run.now.items) }
{
    let (_lines, state) = report(alloc, run)?;
    let early = run.segments().count() < segments;
    Ok(Ended {
        ending: end_of(state, early),
        setups: run.segments().start(setups),
        front: run.segments().start(segments),
    })
}

/// How a permutation ended in this history.
pub fn ended_in(
    alloc: Global,
    spec: &Spec<'_>,
    entries: &[Entry],
    items: &[HistItem<'_>],
) -> Result<Ended, AllocError>
    requires { Stands (spec_view spec.now) }
    ensures ending { IfOk result (λ e. e.ending ≡ ending_in (spec_view spec.now) (map entry_view entries.now) items.now) }
    ensures setups { IfOk result (λ e. e.setups ≡ segment_start items.now (length (setup_numbers (spec_view spec.now)))) }
    ensures front { IfOk result (λ e. e.front ≡ segment_start items.now (wanted (spec_view spec.now) (map entry_view entries.now))) }
    ensures within { IfOk result (λ e. e.front ≤ length items.now) }
{
    let setups = setups_in(spec);
    let run = PermutationRun::new(alloc, entries, items, setups)?;
    ended_by(alloc, &run, setups, setups + entries.len())
}
