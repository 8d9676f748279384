//! The line with which a permutation starts.

ghost use Rattle.std.specs.Prelude.{◌≡◌, ◌≢◌, ◌++◌, [], map, flat_map, OnOk, OnErr};
ghost use Rattle.iso_lexer.specs.Devices.{page_text};
ghost use Rattle.spec_parser.specs.Trees.{entry_view, spec_view};
ghost use Rattle.report_text.specs.Steps.{starting_text};
ghost use Rattle.report_text.specs.Inner.Steps.{entry_name};

use crate::names::push_name;
use iso_lexer::Page;
use spec_parser::{Entry, Spec};
use std::alloc::AllocError;

fn push_entry_name(page: &mut Page, spec: &Spec<'_>, entry: &Entry) -> Result<(), AllocError>
    ensures text { OnOk result (page_text page.new ≡ page_text page.old ++ entry_name (spec_view spec.now) (entry_view entry.now)) }
    ensures memory { OnErr result (entry_name (spec_view spec.now) (entry_view entry.now) ≢ []) }
{
    match spec.step_of(entry) {
        None => Ok(()),
        Some(step) => {
            page.push(b" ")?;
            push_name(page, &step.name)
        }
    }
}

fn push_entry_names(page: &mut Page, spec: &Spec<'_>, entries: &[Entry]) -> Result<(), AllocError>
    ensures text { OnOk result (page_text page.new ≡ page_text page.old ++ flat_map (entry_name (spec_view spec.now)) (map entry_view entries.now)) }
    ensures memory { OnErr result (flat_map (entry_name (spec_view spec.now)) (map entry_view entries.now) ≢ []) }
{
    for entry in entries {
        push_entry_name(page, spec, entry)?;
    }
    Ok(())
}

/// Pushes the line with which a permutation starts.
pub fn push_starting(page: &mut Page, spec: &Spec<'_>, entries: &[Entry]) -> Result<(), AllocError>
    ensures { OnOk result (page_text page.new ≡ page_text page.old ++ starting_text (spec_view spec.now) (map entry_view entries.now)) }
{
    page.push(b"\nstarting permutation:")?;
    push_entry_names(page, spec, entries)?;
    page.push(b"\n")
}
