//! What setups say.

ghost use Rattle.std.specs.Prelude.{◌≡◌, ◌≢◌, ◌<◌, ◌++◌, [], OnOk, OnErr, IfOk, string_bytes, true};
ghost use Rattle.std.specs.Str.Lossy.{utf8_lossy};
ghost use Rattle.iso_lexer.specs.Devices.{page_text};
ghost use Rattle.session_machine.specs.Machine.{is_failed};
ghost use Rattle.report_text.specs.FaultText.{fault_text};
ghost use Rattle.report_lines.specs.Due.{orders};
ghost use Rattle.report_text.specs.Replies.{last_outcome};
ghost use Rattle.report_text.specs.Code.Turns.{setup_ending};
ghost use Rattle.report_text.specs.Inner.Permutation.{setups_say};
ghost use Rattle.report_text.specs.Answers.{ending_of};

use crate::fault::Ending;
use crate::fault_text::push_fault;
use crate::replies::push_last_rows;
use crate::segments::went_well;
use iso_lexer::Page;
use report_lines::Segments;
use session_machine::{HistItem, Outcome, StmtFault};
use std::alloc::{AllocError, Global};

fn text_of(alloc: Global, fault: &StmtFault<'_>) -> Result<String, AllocError>
    ensures { IfOk result (λ text. string_bytes text ≡ utf8_lossy (fault_text fault.now)) }
{
    let mut page = Page::new(alloc);
    push_fault(&mut page, fault)?;
    String::from_utf8_lossy(alloc, page.bytes())
}

fn setup_ending(alloc: Global, outcome: &Outcome<'_>) -> Result<Ending, AllocError>
    ensures ending { IfOk result (λ ending. ending_of ending ≡ setup_ending outcome.now) }
    ensures memory { OnErr result (is_failed outcome.now ≡ true) }
{
    match outcome {
        Outcome::Failed(fault) => Ok(Ending::SetupFailed(text_of(alloc, fault)?)),
        _ => Ok(Ending::SetupWaits),
    }
}

/// Why a setup did not go well, by what came last of it.
fn last_ending(alloc: Global, segment: &[HistItem<'_>]) -> Result<Ending, AllocError>
    ensures ending { IfOk result (λ ending. ending_of ending ≡ setup_ending (last_outcome segment.now)) }
    ensures memory { OnErr result (is_failed (last_outcome segment.now) ≡ true) }
{
    match segment.last() {
        Some(item) => setup_ending(alloc, &item.reply.outcome),
        None => Ok(Ending::SetupWaits),
    }
}

/// Pushes what the setups of these sessions say, as far as they are there: the ending is Whole where each of those went well.
pub fn push_setups(
    page: &mut Page,
    segments: &Segments<'_>,
    sessions: &[usize],
) -> Result<Ending, AllocError>
    ensures text { OnOk result (page_text page.new ≡ page_text page.old ++ (setups_say segments.now (orders segments.now) 0 sessions.now).text) }
    ensures ending { IfOk result (λ ending. ending_of ending ≡ (setups_say segments.now (orders segments.now) 0 sessions.now).ending) }
    // Where no setup is there nothing grows.
    ensures memory { OnErr result ((sessions.now ≢ []) × (0 < orders segments.now)) }
{
    let count = segments.count();
    for (number, session) in sessions.iter().enumerate() {
        if count <= number {
            return Ok(Ending::Whole);
        }
        let segment = segments.segment(number);
        if !went_well(segment, *session) {
            return last_ending(page.alloc(), segment);
        }
        push_last_rows(page, segment)?;
    }
    Ok(Ending::Whole)
}
