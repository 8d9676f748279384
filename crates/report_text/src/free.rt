//! The text of a free run, by its history.

ghost use Rattle.std.specs.Prelude.{◌≡◌, ◌≢◌, ◌++◌, ◌⊎◌, [], map, OnOk, OnErr, IfOk, IsErrOf};
ghost use Rattle.std.specs.Io.KnownBytes.{Appends};
ghost use Rattle.iso_lexer.specs.Devices.{page_text};
ghost use Rattle.spec_parser.specs.Trees.{session_view, spec_view};
ghost use Rattle.report_lines.specs.Due.{orders};
ghost use Rattle.report_text.specs.Code.Turns.{setup_numbers};
ghost use Rattle.report_text.specs.Inner.Permutation.{setups_say};
ghost use Rattle.report_text.specs.FreeText.{item_text, item_note, each_says, free_says};
ghost use Rattle.report_text.specs.Answers.{ending_of, EndsAs, Puts, TellsFailure};

use crate::fault::{Ended, Ending, ReportFault};
use crate::free_lines::{push_item, push_note};
use crate::numbers::setups_of;
use crate::permutation::put_said;
use crate::setups::push_setups;
use crate::standing::{Standing, nowhere, standing_in, take_in};
use crate::teardowns::Pages;
use iso_lexer::{Page, Sink};
use report_lines::{PermutationRun, session_of};
use session_machine::HistItem;
use spec_parser::Spec;
use std::alloc::{AllocError, Global};

/// Pushes what an item says.
fn push_said(
    pages: &mut Pages,
    spec: &Spec<'_>,
    at: Option<Standing>,
    item: &HistItem<'_>,
) -> Result<(), AllocError>
    ensures text { OnOk result (page_text pages.new.text ≡ page_text pages.old.text ++ item_text (spec_view spec.now).sessions at item.now) }
    ensures notes { OnOk result (page_text pages.new.notes ≡ page_text pages.old.notes ++ item_note (spec_view spec.now) at item.now) }
    ensures memory { OnErr result ((item_text (spec_view spec.now).sessions at item.now ≢ []) ⊎ (item_note (spec_view spec.now) at item.now ≢ [])) }
{
    push_item(&mut pages.text, &spec.sessions, at, item)?;
    push_note(&mut pages.notes, spec, at, item)
}

/// Pushes what all items say.
fn push_items(pages: &mut Pages, spec: &Spec<'_>, items: &[HistItem<'_>]) -> Result<(), AllocError>
    ensures text { OnOk result (page_text pages.new.text ≡ page_text pages.old.text ++ each_says (item_text (spec_view spec.now).sessions) [] items.now) }
    ensures notes { OnOk result (page_text pages.new.notes ≡ page_text pages.old.notes ++ each_says (item_note (spec_view spec.now)) [] items.now) }
{
    let mut table = nowhere(pages.text.alloc(), spec.sessions.len())?;
    for item in items {
        let at = standing_in(&table, session_of(&item.event));
        push_said(pages, spec, at, item)?;
        take_in(&mut table, at, item);
    }
    Ok(())
}

/// How the setups ended. What they would print in a permutation is put aside.
fn setups_ending(
    alloc: Global,
    spec: &Spec<'_>,
    items: &[HistItem<'_>],
) -> Result<Ending, AllocError>
    ensures { IfOk result (λ ending. ending_of ending ≡ (setups_say items.now (orders items.now) 0 (setup_numbers (spec_view spec.now))).ending) }
{
    let setups = setups_of(alloc, spec)?;
    let no_entries = Vec::new(alloc);
    let run = PermutationRun::new(alloc, &no_entries, items, 0)?;
    let mut aside = Page::new(alloc);
    push_setups(&mut aside, &run.segments(), &setups)
}

/// All that is said of a free run, setups apart.
#[tactic(auto, unfolding(crate::specs::FreeText::free_says))]
fn said_of(alloc: Global, spec: &Spec<'_>, items: &[HistItem<'_>]) -> Result<Pages, AllocError>
    ensures text { IfOk result (λ said. page_text said.text ≡ (free_says (spec_view spec.now) items.now).text) }
    ensures notes { IfOk result (λ said. page_text said.notes ≡ (free_says (spec_view spec.now) items.now).notes) }
{
    let mut pages = Pages::new(alloc);
    pages.text.push(b"\nstarting free run\n")?;
    push_items(&mut pages, spec, items)?;
    Ok(pages)
}

/// Writes the text of a free run with this history, and the notes on its teardowns, and nothing else. A setup that failed
/// or waits is answered so.
pub fn write_free<W: Sink, N: Sink>(
    alloc: Global,
    spec: &Spec<'_>,
    items: &[HistItem<'_>],
    out: &mut W,
    notes: &mut N,
) -> Result<Ended, ReportFault>
    ensures ending { EndsAs (free_says (spec_view spec.now) items.now).ending result }
    ensures text { Puts (W.put_so_far out.old) (W.put_so_far out.new) (free_says (spec_view spec.now) items.now).text result }
    ensures notes { Puts (N.put_so_far notes.old) (N.put_so_far notes.new) (free_says (spec_view spec.now) items.now).notes result }
    // The notes are as they were, or the text went out whole before them.
    ensures order { (notes.new ≡ notes.old) ⊎ Appends (W.put_so_far out.old) (W.put_so_far out.new) (free_says (spec_view spec.now) items.now).text }
    // Memory comes before anything is put.
    ensures memory { IsErrOf result ReportFault.Memory → (out.new ≡ out.old) × (notes.new ≡ notes.old) }
    ensures fails { TellsFailure (W.failed out.old) (W.failed out.new) (N.failed notes.old) (N.failed notes.new) result }
{
    let ending = setups_ending(alloc, spec, items)?;
    let pages = said_of(alloc, spec, items)?;
    put_said(&pages, ending, out, notes)
}
