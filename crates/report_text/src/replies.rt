//! What replies print.

ghost use Rattle.std.specs.Prelude.{◌≡◌, ◌≢◌, ◌++◌, ◌==◌, [], codes, OnOk, OnErr, if◌then◌else◌};
ghost use Rattle.session_machine.specs.Machine.{session_of};
ghost use Rattle.report_text.specs.FaultText.{fault_text};
ghost use Rattle.iso_lexer.specs.Devices.{page_text};
ghost use Rattle.report_text.specs.Replies.{rows_text, outcome_text, replies_text, last_outcome};
ghost use Rattle.result_tables.specs.TableText.{table_text};

use crate::fault_text::push_fault;
use iso_lexer::Page;
use query_results::ResultSet;
use report_lines::{ends_in, session_of};
use result_tables::write_table;
use session_machine::{HistItem, Outcome, StmtFault};
use std::alloc::AllocError;

fn push_table(page: &mut Page, set: &ResultSet<'_>) -> Result<(), AllocError>
    ensures { OnOk result (page_text page.new ≡ page_text page.old ++ table_text set.now) }
{
    write_table(page.alloc(), page, set).map_err(|_| AllocError)
}

fn push_error(page: &mut Page, fault: &StmtFault<'_>) -> Result<(), AllocError>
    ensures { OnOk result (page_text page.new ≡ page_text page.old ++ (codes "ERROR:  " ++ fault_text fault.now ++ codes "\n")) }
{
    page.push(b"ERROR:  ")?;
    push_fault(page, fault)?;
    page.push(b"\n")
}

/// Pushes the table of a result set, and of another outcome nothing.
fn push_rows(page: &mut Page, outcome: &Outcome<'_>) -> Result<(), AllocError>
    ensures text { OnOk result (page_text page.new ≡ page_text page.old ++ rows_text outcome.now) }
    ensures memory { OnErr result (rows_text outcome.now ≢ []) }
{
    match outcome {
        Outcome::Rows(set) => push_table(page, set),
        _ => Ok(()),
    }
}

/// Pushes the table of a result set, or the line of a failure.
pub fn push_outcome(page: &mut Page, outcome: &Outcome<'_>) -> Result<(), AllocError>
    ensures text { OnOk result (page_text page.new ≡ page_text page.old ++ outcome_text outcome.now) }
    ensures memory { OnErr result (outcome_text outcome.now ≢ []) }
{
    match outcome {
        Outcome::Rows(set) => push_table(page, set),
        Outcome::Failed(fault) => push_error(page, fault),
        _ => Ok(()),
    }
}

fn push_reply(page: &mut Page, session: u32, item: &HistItem<'_>) -> Result<(), AllocError>
    ensures text { OnOk result (page_text page.new ≡ page_text page.old ++ (if session_of item.now.event == session then outcome_text item.now.reply.outcome else [])) }
    ensures memory { OnErr result ((if session_of item.now.event == session then outcome_text item.now.reply.outcome else []) ≢ []) }
{
    if session_of(&item.event) == session {
        push_outcome(page, &item.reply.outcome)
    } else {
        Ok(())
    }
}

/// Pushes what the session's statements print, up to the one with which its block is over.
pub fn push_replies(page: &mut Page, session: u32, items: &[HistItem<'_>]) -> Result<(), AllocError>
    ensures text { OnOk result (page_text page.new ≡ page_text page.old ++ replies_text session items.now) }
    ensures memory { OnErr result (replies_text session items.now ≢ []) }
{
    for item in items {
        push_reply(page, session, item)?;
        if ends_in(session, item) {
            return Ok(());
        }
    }
    Ok(())
}

/// Pushes the table of what came last, if it is a result set.
pub fn push_last_rows(page: &mut Page, items: &[HistItem<'_>]) -> Result<(), AllocError>
    ensures text { OnOk result (page_text page.new ≡ page_text page.old ++ rows_text (last_outcome items.now)) }
    ensures memory { OnErr result (rows_text (last_outcome items.now) ≢ []) }
{
    match items.last() {
        Some(item) => push_rows(page, &item.reply.outcome),
        None => Ok(()),
    }
}
