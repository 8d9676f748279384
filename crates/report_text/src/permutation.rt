//! The report of a permutation with its history.

ghost use Rattle.std.specs.Prelude.{◌≡◌, ◌≢◌, ◌++◌, ◌+◌, ◌-◌, ◌<◌, ◌^◌, ◌⊎◌, [], length, map, flat_map, OnOk, OnErr, IfOk, IsErrOf};
ghost use Rattle.std.specs.Io.KnownBytes.{Appends};
ghost use Rattle.iso_lexer.specs.Devices.{page_text};
ghost use Rattle.spec_parser.specs.Trees.{entry_view, spec_view};
ghost use Rattle.report_lines.specs.Due.{orders};
ghost use Rattle.report_text.specs.Steps.{starting_text};
ghost use Rattle.report_text.specs.LineText.{line_text};
ghost use Rattle.report_text.specs.Code.Turns.{setup_numbers};
ghost use Rattle.report_text.specs.Permutation.{permutation_says};
ghost use Rattle.report_text.specs.Code.Turns.{state_says};
ghost use Rattle.report_text.specs.Inner.Permutation.{setups_say, entries_say, rest_says, all_says};
ghost use Rattle.report_text.specs.Answers.{ending_of, EndsAs, IsNotMemory, Puts, TellsFailure};

use crate::fault::{Ended, Ending, ReportFault, answer_of};
use crate::line_text::push_line;
use crate::numbers::setups_of;
use crate::setups::push_setups;
use crate::steps::push_starting;
use crate::teardowns::{Pages, push_teardowns};
use iso_lexer::{Page, Sink};
use report_lines::{Line, PermutationRun, RunState, report};
use session_machine::HistItem;
use spec_parser::{Entry, Spec};
use std::alloc::{AllocError, Global};

/// Pushes the starting line, and what the setups say.
fn push_front(
    page: &mut Page,
    spec: &Spec<'_>,
    run: &PermutationRun<'_>,
    setups: &[usize],
) -> Result<Ending, AllocError>
    requires { setups.now ≡ setup_numbers (spec_view spec.now) }
    ensures text { OnOk result (page_text page.new ≡ page_text page.old
        ++ (starting_text (spec_view spec.now) run.now.entries ++ (setups_say run.now.items (orders run.now.items) 0 (setup_numbers (spec_view spec.now))).text)) }
    ensures ending { IfOk result (λ ending. ending_of ending ≡ (setups_say run.now.items (orders run.now.items) 0 (setup_numbers (spec_view spec.now))).ending) }
{
    push_starting(page, spec, run.entries())?;
    push_setups(page, &run.segments(), setups)
}

fn push_lines(
    page: &mut Page,
    spec: &Spec<'_>,
    run: &PermutationRun<'_>,
    lines: &[Line],
) -> Result<(), AllocError>
    ensures text { OnOk result (page_text page.new ≡ page_text page.old ++ flat_map (line_text (spec_view spec.now) run.now) lines.now) }
    ensures memory { OnErr result (flat_map (line_text (spec_view spec.now) run.now) lines.now ≢ []) }
{
    for line in lines {
        push_line(page, spec, run, *line)?;
    }
    Ok(())
}

/// Pushes that the permutation is invalid, if it is.
fn push_state(page: &mut Page, state: RunState) -> Result<Ending, AllocError>
    ensures text { OnOk result (page_text page.new ≡ page_text page.old ++ (state_says state).text) }
    ensures ending { IfOk result (λ ending. ending_of ending ≡ (state_says state).ending) }
    ensures memory { OnErr result ((state_says state).text ≢ []) }
{
    match state {
        RunState::Due(_) | RunState::Whole => Ok(Ending::Whole),
        RunState::Invalid => {
            page.push(b"invalid permutation detected\n")?;
            Ok(Ending::Invalid)
        }
    }
}

/// Pushes the entries' lines.
fn push_entries(
    page: &mut Page,
    spec: &Spec<'_>,
    run: &PermutationRun<'_>,
) -> Result<Ending, AllocError>
    ensures text { OnOk result (page_text page.new ≡ page_text page.old ++ (entries_say (spec_view spec.now) run.now (orders run.now.items - run.now.setups)).text) }
    ensures ending { IfOk result (λ ending. ending_of ending ≡ (entries_say (spec_view spec.now) run.now (orders run.now.items - run.now.setups)).ending) }
{
    let (lines, state) = report(page.alloc(), run)?;
    push_lines(page, spec, run, lines.lines())?;
    push_state(page, state)
}

/// Pushes what comes after so many setups.
fn push_rest(
    pages: &mut Pages,
    spec: &Spec<'_>,
    run: &PermutationRun<'_>,
    setups: usize,
) -> Result<Ending, AllocError>
    requires orders { orders run.now.items + 2 < 2 ^ 64 }
    requires setups { setups ≡ run.now.setups }
    requires room { setups + length run.now.entries + 1 < 2 ^ 64 }
    ensures text { OnOk result (page_text pages.new.text ≡ page_text pages.old.text ++ (rest_says (spec_view spec.now) run.now (orders run.now.items)).text) }
    ensures notes { OnOk result (page_text pages.new.notes ≡ page_text pages.old.notes ++ (rest_says (spec_view spec.now) run.now (orders run.now.items)).notes) }
    ensures ending { IfOk result (λ ending. ending_of ending ≡ (rest_says (spec_view spec.now) run.now (orders run.now.items)).ending) }
{
    let segments = run.segments();
    match push_entries(&mut pages.text, spec, run)? {
        Ending::Whole => {
            let first = setups + run.entries().len();
            push_teardowns(pages, spec, &segments, segments.count(), first)?;
            Ok(Ending::Whole)
        }
        early => Ok(early),
    }
}

/// Pushes all that is said of a permutation, whose setups are these.
fn push_all(
    pages: &mut Pages,
    spec: &Spec<'_>,
    run: &PermutationRun<'_>,
    setups: &[usize],
) -> Result<Ending, AllocError>
    requires orders { orders run.now.items + 2 < 2 ^ 64 }
    requires setups { setups.now ≡ setup_numbers (spec_view spec.now) }
    requires count { run.now.setups ≡ length setups.now }
    requires room { length setups.now + length run.now.entries + 1 < 2 ^ 64 }
    ensures text { OnOk result (page_text pages.new.text ≡ page_text pages.old.text ++ (all_says (spec_view spec.now) run.now).text) }
    ensures notes { OnOk result (page_text pages.new.notes ≡ page_text pages.old.notes ++ (all_says (spec_view spec.now) run.now).notes) }
    ensures ending { IfOk result (λ ending. ending_of ending ≡ (all_says (spec_view spec.now) run.now).ending) }
{
    match push_front(&mut pages.text, spec, run, setups)? {
        Ending::Whole => push_rest(pages, spec, run, setups.len()),
        early => Ok(early),
    }
}

/// All that is said of a permutation with its history, and how that ends.
fn said_of(
    alloc: Global,
    spec: &Spec<'_>,
    entries: &[Entry],
    items: &[HistItem<'_>],
) -> Result<(Pages, Ending), AllocError>
    ensures text { IfOk result (λ said. page_text said.0.text ≡ (permutation_says (spec_view spec.now) (map entry_view entries.now) items.now).text) }
    ensures notes { IfOk result (λ said. page_text said.0.notes ≡ (permutation_says (spec_view spec.now) (map entry_view entries.now) items.now).notes) }
    ensures ending { IfOk result (λ said. ending_of said.1 ≡ (permutation_says (spec_view spec.now) (map entry_view entries.now) items.now).ending) }
{
    let setups = setups_of(alloc, spec)?;
    let run = PermutationRun::new(alloc, entries, items, setups.len())?;
    let mut pages = Pages::new(alloc);
    let ending = push_all(&mut pages, spec, &run, &setups)?;
    Ok((pages, ending))
}

/// Puts the pages out, and answers the ending.
pub fn put_said<W: Sink, N: Sink>(
    pages: &Pages,
    ending: Ending,
    out: &mut W,
    notes: &mut N,
) -> Result<Ended, ReportFault>
    ensures ending { EndsAs (ending_of ending) result }
    ensures grows_nothing { IsNotMemory result }
    ensures text { Puts (W.put_so_far out.old) (W.put_so_far out.new) (page_text pages.now.text) result }
    ensures notes { Puts (N.put_so_far notes.old) (N.put_so_far notes.new) (page_text pages.now.notes) result }
    ensures order { (notes.new ≡ notes.old) ⊎ Appends (W.put_so_far out.old) (W.put_so_far out.new) (page_text pages.now.text) }
    ensures fails { TellsFailure (W.failed out.old) (W.failed out.new) (N.failed notes.old) (N.failed notes.new) result }
{
    out.put(pages.text.bytes())?;
    notes.put(pages.notes.bytes())?;
    answer_of(ending)
}

/// Writes the report of a permutation with its history, and the notes on its teardowns, and nothing else. A setup that
/// fails or waits ends it, with the report up to there.
pub fn write_report<W: Sink, N: Sink>(
    alloc: Global,
    spec: &Spec<'_>,
    entries: &[Entry],
    items: &[HistItem<'_>],
    out: &mut W,
    notes: &mut N,
) -> Result<Ended, ReportFault>
    ensures ending { EndsAs (permutation_says (spec_view spec.now) (map entry_view entries.now) items.now).ending result }
    ensures text { Puts (W.put_so_far out.old) (W.put_so_far out.new)
        (permutation_says (spec_view spec.now) (map entry_view entries.now) items.now).text result }
    ensures notes { Puts (N.put_so_far notes.old) (N.put_so_far notes.new)
        (permutation_says (spec_view spec.now) (map entry_view entries.now) items.now).notes result }
    // The notes are as they were, or the text went out whole before them.
    ensures order { (notes.new ≡ notes.old)
        ⊎ Appends (W.put_so_far out.old) (W.put_so_far out.new) (permutation_says (spec_view spec.now) (map entry_view entries.now) items.now).text }
    // Memory comes before anything is put.
    ensures memory { IsErrOf result ReportFault.Memory → (out.new ≡ out.old) × (notes.new ≡ notes.old) }
    // Write is answered exactly where a sink has failed in the call.
    ensures fails { TellsFailure (W.failed out.old) (W.failed out.new) (N.failed notes.old) (N.failed notes.new) result }
{
    let (pages, ending) = said_of(alloc, spec, entries, items)?;
    put_said(&pages, ending, out, notes)
}
