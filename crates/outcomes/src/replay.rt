//! A history done again, up to any of its items.

ghost use Rattle.std.specs.Prelude.{◌≡◌, ◌+◌, ◌<◌, [], IfOk, OnOk, length, map, take};
ghost use Rattle.sql_blocks.specs.Blocks.{blocks_of};
ghost use Rattle.session_machine.specs.declared.event.Mode.TheVariants.{Directed};
ghost use Rattle.session_machine.specs.Engine.{IsLegal};
ghost use Rattle.session_core.specs.Engines.{IsOf};
ghost use Rattle.spec_parser.specs.Trees.{spec_view};
ghost use Rattle.spec_parser.specs.Stands.{Stands};

use row_versions::ListStore;
use session_core::EngineState;
use session_machine::{EngineFault, HistItem, Mode};
use session_seats::ThreadFault;
use spec_files::RunFault;
use spec_parser::Spec;
use sql_blocks::Block;
use std::alloc::Global;

/// Does the event of the item at this place again.
fn redo_one<'a, 't>(
    engine: &mut EngineState<'a, 't, ListStore>,
    items: &[HistItem<'_>],
    place: usize,
) -> Result<(), EngineFault>
    requires place { place < length items.now }
    requires legal { IsLegal engine.old.blocks engine.old.count engine.old.mode items.now }
    requires done { engine.old.history ≡ take place items.now }
    ensures done { OnOk result (engine.new.history ≡ take (place + 1) items.now) }
    ensures same { IsOf engine.new engine.old.blocks engine.old.count engine.old.mode }
{
    let item = &items[place];
    engine.history();
    engine.perform(item.event)?;
    Ok(())
}

/// Does the events of a history again.
fn redo<'a, 't>(
    engine: &mut EngineState<'a, 't, ListStore>,
    items: &[HistItem<'_>],
) -> Result<(), EngineFault>
    requires legal { IsLegal engine.old.blocks engine.old.count engine.old.mode items.now }
    requires new { engine.old.history ≡ [] }
    ensures done { OnOk result (engine.new.history ≡ items.now) }
    ensures same { OnOk result (IsOf engine.new engine.old.blocks engine.old.count engine.old.mode) }
{
    for place in 0..items.len() {
        redo_one(engine, items, place)?;
    }
    Ok(())
}

/// A new engine after the events of a history.
pub fn replayed<'a, 't>(
    alloc: Global,
    spec: &Spec<'_>,
    blocks: &'a [Block<'t>],
    items: &[HistItem<'_>],
) -> Result<EngineState<'a, 't, ListStore>, RunFault>
    requires stands { Stands (spec_view spec.now) }
    requires legal { IsLegal (blocks_of blocks.now) (length (spec_view spec.now).sessions) Directed items.now }
    ensures done { IfOk result (λ e. e.history ≡ items.now) }
    ensures of { IfOk result (λ e. IsOf e (blocks_of blocks.now) (length (spec_view spec.now).sessions) Directed) }
{
    let sessions = spec.sessions.len() as u32;
    let store = ListStore::new(alloc);
    let mut engine = EngineState::new(alloc, blocks, sessions, Mode::Directed, store)?;
    if let Err(fault) = redo(&mut engine, items) {
        return Err(ThreadFault::Engine(fault).into());
    }
    Ok(engine)
}
