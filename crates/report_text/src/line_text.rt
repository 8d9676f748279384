//! The lines that are said of a permutation's steps.

ghost use Rattle.std.specs.Prelude.{◌≡◌, ◌≢◌, ◌++◌, ◌<◌, ◌≤◌, [], length, codes, option_map, option_and_then, slice_get, slice_range, OnOk, OnErr, OnSome};
ghost use Rattle.iso_lexer.specs.Devices.{page_text};
ghost use Rattle.spec_parser.specs.Trees.{step_view, spec_view};
ghost use Rattle.spec_parser.specs.Numbered.{step_of_entry};
ghost use Rattle.report_text.specs.LineText.{entry_replies, step_name, step_sql, line_text};

use crate::names::push_name;
use crate::replies::push_replies;
use iso_lexer::Page;
use report_lines::{Line, PermutationRun};
use session_machine::HistItem;
use spec_parser::{Spec, StepPart};
use std::alloc::AllocError;

/// The items from one place up to another, as far as there are any.
fn between<'s, 't>(items: &'s [HistItem<'t>], from: usize, to: usize) -> &'s [HistItem<'t>]
    requires { from ≤ length items.now }
    ensures { result.now ≡ slice_range items.now from to }
{
    let rest = &items[from..];
    let count = to.saturating_sub(from).min(rest.len());
    &rest[..count]
}

/// Pushes the replies to an entry's block that are among so many items.
fn push_entry_replies(
    page: &mut Page,
    run: &PermutationRun<'_>,
    entry: usize,
    seen: usize,
) -> Result<(), AllocError>
    requires { entry < length run.now.entries }
    ensures text { OnOk result (page_text page.new ≡ page_text page.old ++ entry_replies run.now entry seen) }
    ensures memory { OnErr result (entry_replies run.now entry seen ≢ []) }
{
    let items = run.items();
    let replies = between(items, run.seen_before(entry), seen);
    push_replies(page, run.session_at(entry), replies)
}

pub fn push_step_name(page: &mut Page, step: &StepPart<'_>) -> Result<(), AllocError>
    ensures { OnOk result (page_text page.new ≡ page_text page.old ++ step_name (step_view step.now)) }
{
    page.push(b"step ")?;
    push_name(page, &step.name)?;
    page.push(b": ")
}

pub fn push_step_sql(page: &mut Page, step: &StepPart<'_>) -> Result<(), AllocError>
    ensures { OnOk result (page_text page.new ≡ page_text page.old ++ step_sql (step_view step.now)) }
{
    push_step_name(page, step)?;
    page.push(step.part.sql.as_bytes())
}

fn push_at_once(
    page: &mut Page,
    run: &PermutationRun<'_>,
    step: &StepPart<'_>,
    entry: usize,
    seen: usize,
) -> Result<(), AllocError>
    requires { entry < length run.now.entries }
    ensures { OnOk result (page_text page.new ≡ page_text page.old ++ (step_sql (step_view step.now) ++ codes "\n" ++ entry_replies run.now entry seen)) }
{
    push_step_sql(page, step)?;
    page.push(b"\n")?;
    push_entry_replies(page, run, entry, seen)
}

fn push_waiting(page: &mut Page, step: &StepPart<'_>) -> Result<(), AllocError>
    ensures { OnOk result (page_text page.new ≡ page_text page.old ++ (step_sql (step_view step.now) ++ codes " <waiting ...>\n")) }
{
    push_step_sql(page, step)?;
    page.push(b" <waiting ...>\n")
}

fn push_completed(
    page: &mut Page,
    run: &PermutationRun<'_>,
    step: &StepPart<'_>,
    entry: usize,
    seen: usize,
) -> Result<(), AllocError>
    requires { entry < length run.now.entries }
    ensures { OnOk result (page_text page.new ≡ page_text page.old ++ (step_name (step_view step.now) ++ codes "<... completed>\n" ++ entry_replies run.now entry seen)) }
{
    push_step_name(page, step)?;
    page.push(b"<... completed>\n")?;
    push_entry_replies(page, run, entry, seen)
}

/// The step that the entry of this number names.
fn step_at<'s, 'a>(
    spec: &'s Spec<'a>,
    run: &PermutationRun<'_>,
    entry: usize,
) -> Option<&'s StepPart<'a>>
    ensures step { option_map (λ x. step_view x.now) result ≡ option_and_then (step_of_entry (spec_view spec.now)) (slice_get run.now.entries entry) }
    ensures there { OnSome result (entry < length run.now.entries) }
{
    spec.step_of(run.entries().get(entry)?)
}

/// Pushes what a line says.
pub fn push_line(
    page: &mut Page,
    spec: &Spec<'_>,
    run: &PermutationRun<'_>,
    line: Line,
) -> Result<(), AllocError>
    ensures text { OnOk result (page_text page.new ≡ page_text page.old ++ line_text (spec_view spec.now) run.now line) }
    ensures memory { OnErr result (line_text (spec_view spec.now) run.now line ≢ []) }
{
    match line {
        Line::AtOnce { entry, seen } => match step_at(spec, run, entry) {
            Some(step) => push_at_once(page, run, step, entry, seen),
            None => Ok(()),
        },
        Line::Waiting { entry } => match step_at(spec, run, entry) {
            Some(step) => push_waiting(page, step),
            None => Ok(()),
        },
        Line::Completed { entry, seen } => match step_at(spec, run, entry) {
            Some(step) => push_completed(page, run, step, entry, seen),
            None => Ok(()),
        },
    }
}
