//! The events of a run once more, over the store that links versions: it answers the same, and its sessions see the same.
ghost use Rattle.std.specs.Prelude.{◌≤◌};

use crate::trial::Engine;
use chain_store::ChainStore;
use session_core::EngineState;
use session_machine::{EngineFault, HistItem, Mode};
use sql_parser::Block;
use sql_values::Row;
use std::alloc::Global;

type Linked<'a> = EngineState<'a, 'static, ChainStore>;

/// The tables that the runs make.
const TABLES: [&str; 6] = ["t", "T", "u", "q", "acct", "website"];

fn are_same(these: &[Row], those: &[Row]) -> bool {
    these.len() == those.len() && these.iter().zip(those).all(|(this, that)| this.same(that))
}

/// Whether a session sees the same of a table.
fn sees_the_same(
    plain: &Engine<'_>,
    linked: &Linked<'_>,
    session: u32,
    table: &str,
) -> Result<bool, EngineFault> {
    match (
        plain.visible(session, table)?,
        linked.visible(session, table)?,
    ) {
        (Some(these), Some(those)) => Ok(are_same(&these, &those)),
        (None, None) => Ok(true),
        _ => Ok(false),
    }
}

fn all_see_the_same(plain: &Engine<'_>, linked: &Linked<'_>) -> Result<bool, EngineFault> {
    for session in 0..=plain.sessions() {
        for table in TABLES {
            if !sees_the_same(plain, linked, session, table)? {
                return Ok(false);
            }
        }
    }
    Ok(true)
}

fn answers_the_same(
    linked: &mut Linked<'_>,
    item: &HistItem<'static>,
) -> Result<bool, EngineFault> {
    linked.perform(item.event)?;
    match linked.history().last() {
        Some(last) => Ok(last.reply.same(&item.reply)),
        None => Ok(false),
    }
}

fn goes_the_same(plain: &Engine<'_>, linked: &mut Linked<'_>) -> Result<bool, EngineFault> {
    for item in plain.history() {
        if !answers_the_same(linked, item)? {
            return Ok(false);
        }
    }
    all_see_the_same(plain, linked)
}

/// Whether the engine's events, over the store that links versions, come to the same.
pub fn comes_to_the_same(
    alloc: Global,
    blocks: &[Block<'static>],
    mode: Mode,
    plain: &Engine<'_>,
) -> Result<bool, EngineFault> {
    let sessions = plain.sessions();
    if sessions > 64 {
        return Ok(false);
    }
    let mut linked = EngineState::new(alloc, blocks, sessions, mode, ChainStore::new(alloc))?;
    let so = goes_the_same(plain, &mut linked);
    linked.end();
    so
}
