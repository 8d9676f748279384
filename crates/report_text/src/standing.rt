//! Where sessions stand in their blocks.

ghost use Rattle.std.specs.Prelude.{◌≡◌, ◌+◌, ◌<◌, ◌^◌, None, replicate, length, slice_get, slice_set, IfOk, IfSome};
ghost use Rattle.session_machine.specs.Machine.{session_of};
ghost use Rattle.report_text.specs.FreeText.{past, moved};
ghost use Rattle.report_text.specs.Inner.Table.{at_number};

use report_lines::session_of;
use session_machine::{Event, HistItem, Outcome};
use std::alloc::{AllocError, Global};

/// A block, and which of its statements comes next, from 1.
#[derive(Clone, Copy)]
pub struct Standing {
    pub block: u32,
    pub statement: usize,
}

/// The control session and so many others stand nowhere.
pub fn nowhere(alloc: Global, sessions: usize) -> Result<Vec<Option<Standing>>, AllocError>
    requires { sessions + 1 < 2 ^ 64 }
    ensures { IfOk result (λ table. table.items ≡ replicate (sessions + 1) None) }
{
    let mut table = Vec::new(alloc);
    table.resize(sessions + 1, None)?;
    Ok(table)
}

/// Where a session stands; nowhere, where the table lacks it.
pub fn standing_in(table: &[Option<Standing>], session: u32) -> Option<Standing>
    ensures { result ≡ at_number table.now session }
{
    match table.get(session as usize) {
        Some(at) => *at,
        None => None,
    }
}

/// Behind a statement; one that waits comes again.
fn past(at: Standing, outcome: &Outcome<'_>) -> Standing
    requires { at.statement + 1 < 2 ^ 64 }
    ensures { result ≡ past outcome.now at }
{
    match outcome {
        Outcome::Waits => at,
        _ => Standing {
            block: at.block,
            statement: at.statement + 1,
        },
    }
}

/// Where the session of an item stands behind it.
fn moved(at: Option<Standing>, item: &HistItem<'_>) -> Option<Standing>
    requires { IfSome at (λ a. a.statement + 1 < 2 ^ 64) }
    ensures { result ≡ moved item.now.event item.now.reply.outcome at }
{
    match item.event {
        Event::Launch { block, .. } => Some(Standing {
            block,
            statement: 1,
        }),
        Event::Step { .. } => match at {
            Some(at) => Some(past(at, &item.reply.outcome)),
            None => None,
        },
        Event::Leave { .. } => None,
    }
}

/// Takes an item in, whose session stood there before it.
pub fn take_in(table: &mut Vec<Option<Standing>>, at: Option<Standing>, item: &HistItem<'_>)
    requires { IfSome at (λ a. a.statement + 1 < 2 ^ 64) }
    ensures { table.new.items ≡ slice_set table.old.items (session_of item.now.event) (moved item.now.event item.now.reply.outcome at) }
{
    let session = session_of(&item.event) as usize;
    if session < table.len() {
        table[session] = moved(at, item);
    }
}
