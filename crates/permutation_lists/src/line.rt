//! The line that lists a permutation.

ghost use Rattle.std.specs.Prelude.{◌≡◌, ◌≢◌, ◌++◌, ◌∷◌, [], OnOk, OnErr, IfOk, map, flat_map, option_map};
ghost use Rattle.iso_lexer.specs.Devices.{page_text};
ghost use Rattle.iso_lexer.specs.Names.{name_view};
ghost use Rattle.spec_parser.specs.Trees.{entry_view, step_view, spec_view};
ghost use Rattle.permutation_lists.specs.Lines.{doubled, quoted, quoted_step, marker_text, more_marker, markers_text, entry_text, line_text};

use iso_lexer::{Name, Page, write_name};
use spec_parser::{Entry, Marker, Spec, StepPart};
use std::alloc::{AllocError, Global};

fn push_doubled(page: &mut Page, bytes: &[u8]) -> Result<(), AllocError>
    ensures text { OnOk result (page_text page.new ≡ page_text page.old ++ flat_map doubled bytes.now) }
    ensures memory { OnErr result (bytes.now ≢ []) }
{
    for byte in bytes {
        if *byte == b'"' {
            page.push(b"\"\"")?;
        } else {
            page.push(&[*byte])?;
        }
    }
    Ok(())
}

/// A name in quotes, of which each quote in it is doubled.
fn push_quoted(page: &mut Page, name: &Name<'_>) -> Result<(), AllocError>
    ensures { OnOk result (page_text page.new ≡ page_text page.old ++ quoted (name_view name.now)) }
{
    let mut decoded = Page::new(page.alloc());
    write_name(&mut decoded, name).map_err(|_| AllocError)?;
    page.push(b"\"")?;
    push_doubled(page, decoded.bytes())?;
    page.push(b"\"")
}

fn push_step(page: &mut Page, step: Option<&StepPart<'_>>) -> Result<(), AllocError>
    ensures text { OnOk result (page_text page.new ≡ page_text page.old ++ quoted_step (option_map (λ x. step_view x.now) step.entry)) }
    ensures memory { OnErr result (quoted_step (option_map (λ x. step_view x.now) step.entry) ≢ []) }
{
    match step {
        Some(step) => push_quoted(page, &step.name),
        None => Ok(()),
    }
}

fn push_marker(page: &mut Page, spec: &Spec<'_>, marker: Marker) -> Result<(), AllocError>
    ensures { OnOk result (page_text page.new ≡ page_text page.old ++ marker_text (spec_view spec.now) marker) }
{
    match marker {
        Marker::Star => page.push(b"*"),
        Marker::Step { session, step } => push_step(page, spec.step_numbered(session, step)),
    }
}

fn push_more(page: &mut Page, spec: &Spec<'_>, markers: &[Marker]) -> Result<(), AllocError>
    ensures text { OnOk result (page_text page.new ≡ page_text page.old ++ flat_map (more_marker (spec_view spec.now)) markers.now) }
    ensures memory { OnErr result (markers.now ≢ []) }
{
    for marker in markers {
        page.push(b", ")?;
        push_marker(page, spec, *marker)?;
    }
    Ok(())
}

fn push_markers(page: &mut Page, spec: &Spec<'_>, markers: &[Marker]) -> Result<(), AllocError>
    ensures text { OnOk result (page_text page.new ≡ page_text page.old ++ markers_text (spec_view spec.now) markers.now) }
    ensures memory { OnErr result (markers_text (spec_view spec.now) markers.now ≢ []) }
{
    let Some((first, rest)) = markers.split_first() else {
        return Ok(());
    };
    page.push(b"(")?;
    push_marker(page, spec, *first)?;
    push_more(page, spec, rest)?;
    page.push(b")")
}

fn push_entry(page: &mut Page, spec: &Spec<'_>, entry: &Entry) -> Result<(), AllocError>
    ensures { OnOk result (page_text page.new ≡ page_text page.old ++ entry_text (spec_view spec.now) (entry_view entry.now)) }
{
    page.push(b" ")?;
    push_step(page, spec.step_of(entry))?;
    push_markers(page, spec, &entry.markers)
}

fn push_entries(page: &mut Page, spec: &Spec<'_>, entries: &[Entry]) -> Result<(), AllocError>
    ensures text { OnOk result (page_text page.new ≡ page_text page.old ++ flat_map (entry_text (spec_view spec.now)) (map entry_view entries.now)) }
    ensures memory { OnErr result (entries.now ≢ []) }
{
    for entry in entries {
        push_entry(page, spec, entry)?;
    }
    Ok(())
}

/// The line of a permutation.
#[tactic(auto, unfolding(crate::specs::Lines::line_text))]
pub fn line_of(alloc: Global, spec: &Spec<'_>, entries: &[Entry]) -> Result<Vec<u8>, AllocError>
    ensures { IfOk result (λ line. line.items ≡ line_text (spec_view spec.now) (map entry_view entries.now)) }
{
    let mut page = Page::new(alloc);
    page.push(b"permutation")?;
    push_entries(&mut page, spec, entries)?;
    page.push(b"\n")?;
    Ok(page.into_bytes())
}
