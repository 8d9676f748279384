//! Runs one row of the table of growth, on the engine alone: `bench/growth.sh` counts its instructions.

use crate::rows::scene_of;
use crate::scene::{Launch, Scene};
use anyhow::{Result, bail};
use chain_store::ChainStore as Store;
use iso_lexer::MOST_SESSIONS;
use session_core::{EngineState, replays};
use session_machine::{Event, HistItem, Mode, Outcome, Reply, Turn};
use sql_parser::Block;
use std::mem::forget;
use std::time::Instant;

/// No block has so many events, with those that go on behind it.
const MOST_EVENTS: usize = 100_000;

/// What runs of a row: what comes before its measured part, or that part too, or that part with its time told.
#[derive(Clone, Copy)]
pub enum Extent {
    Setup,
    Whole,
    Timed,
}

/// An event, which must not be refused; nor may a statement fail.
fn perform<'a, 't>(engine: &mut EngineState<'a, 't, Store>, event: Event) -> Result<()> {
    if engine.perform(event).is_err() {
        bail!("an event was refused");
    }
    match engine.history().last() {
        Some(
            HistItem {
                reply: Reply {
                    outcome: Outcome::Failed(_),
                    ..
                },
                ..
            },
        ) => bail!("a statement failed"),
        _ => Ok(()),
    }
}

/// A session is given a block, and all go on that can.
fn launch<'a, 't>(engine: &mut EngineState<'a, 't, Store>, at: Launch) -> Result<()> {
    let Launch { session, block } = at;
    perform(engine, Event::Launch { session, block })?;
    for _ in 0..MOST_EVENTS {
        match engine.turn() {
            Turn::Session(session) => perform(engine, Event::Step { session })?,
            _ => return Ok(()),
        }
    }
    bail!("the sessions come to no rest")
}

fn launch_all<'a, 't>(engine: &mut EngineState<'a, 't, Store>, launches: &[Launch]) -> Result<()> {
    for at in launches {
        launch(engine, *at)?;
    }
    Ok(())
}

/// Does what is measured.
fn measure<'a, 't>(
    rt: &HostRuntime,
    engine: &mut EngineState<'a, 't, Store>,
    scene: &Scene,
    blocks: &[Block<'t>],
) -> Result<()> {
    if !scene.replays {
        return launch_all(engine, scene.parts().1);
    }
    let count = scene.sessions().min(MOST_SESSIONS as u32);
    if !replays(rt.alloc(), blocks, count, Mode::Directed, engine.history())? {
        bail!("the history doesn't replay");
    }
    Ok(())
}

/// Does what is measured, and says how long it took.
fn time<'a, 't>(
    rt: &HostRuntime,
    engine: &mut EngineState<'a, 't, Store>,
    scene: &Scene,
    blocks: &[Block<'t>],
) -> Result<()> {
    let start = Instant::now(rt)?;
    measure(rt, engine, scene, blocks)?;
    let micros = start.elapsed(rt)?.as_micros();
    eprintln!(rt; "{micros} µs")?;
    Ok(())
}

/// Runs that much of the scene. What it takes to give memory back isn't to be counted, so it is kept.
fn run_scene(rt: &HostRuntime, scene: &Scene, extent: Extent) -> Result<()> {
    let blocks = scene.blocks()?;
    let count = scene.sessions().min(MOST_SESSIONS as u32);
    let store = Store::new(rt.alloc());
    let mut engine = EngineState::new(rt.alloc(), &blocks, count, Mode::Directed, store)?;
    launch_all(&mut engine, scene.parts().0)?;
    match extent {
        Extent::Setup => (),
        Extent::Whole => measure(rt, &mut engine, scene, &blocks)?,
        Extent::Timed => time(rt, &mut engine, scene, &blocks)?,
    }
    forget(engine);
    forget(blocks);
    Ok(())
}

pub fn run(rt: &HostRuntime, word: &str, size: u32, extent: Extent) -> Result<()> {
    let scene = scene_of(rt.alloc(), word, size)?;
    run_scene(rt, &scene, extent)
}
