//! The rows of the table of growth.

use crate::scene::Scene;
use anyhow::{Result, bail};
use iso_lexer::MOST_SESSIONS;
use std::alloc::Global;

const SELECT: &str = "SELECT k, v FROM t";

const UPDATE: &str = "UPDATE t SET v = v + 1";

const LOCK: &str = "SELECT k, v FROM t FOR UPDATE";
/// Changes one of ten rows, in a transaction that stays open.
const OF_FEW: &str = "BEGIN; UPDATE few SET v = v + 1 WHERE k = 1";
/// Changes the last of all rows, in a transaction that stays open.
const LAST: &str = "BEGIN; UPDATE t SET v = v + 1 WHERE k = 1";
/// Changes all rows, in a transaction that stays open.
const ALL: &str = "BEGIN; UPDATE t SET v = v + 1";

const FEW: &str = "SELECT k, v FROM few";

/// A statement over all rows.
fn over_all(scene: &mut Scene, what: &str) -> Result<()> {
    scene.fill()?;
    match what {
        "select" => scene.measure(1, SELECT),
        "update" => scene.measure(1, UPDATE),
        "lock" => scene.measure(1, LOCK),
        "delete" => scene.measure(1, "DELETE FROM t"),
        _ => bail!("the growth of nothing that is known"),
    }
}

/// A statement that all rows are beside. Its like runs before, so that what is measured is no first time.
fn beside_all(scene: &mut Scene, before: &str, measured: &str) -> Result<()> {
    scene.fill()?;
    scene.run(1, before)?;
    scene.measure(1, measured)
}

/// The end of a transaction that wrote one row behind many, or locked many; such a one runs before.
fn an_end(scene: &mut Scene, begun: &str, end: &str) -> Result<()> {
    scene.fill()?;
    scene.run(1, begun)?;
    scene.run(1, end)?;
    scene.run(1, begun)?;
    scene.measure(1, end)
}

/// A statement waits at the last of all rows, and goes on behind a COMMIT; so one does before.
fn resumed(scene: &mut Scene) -> Result<()> {
    scene.fill()?;
    for (session, sql) in [
        (1, LAST),
        (2, ALL),
        (1, "COMMIT"),
        (2, "COMMIT"),
        (1, LAST),
        (2, ALL),
    ] {
        scene.run(session, sql)?;
    }
    scene.measure(1, "COMMIT")
}

/// All sessions that there may be wait at the last of all rows.
fn waiters_beside(scene: &mut Scene) -> Result<()> {
    scene.fill()?;
    scene.wait(MOST_SESSIONS as u32, LAST)
}

/// All sessions that there may be wait for one of ten rows, after many statements on them.
fn waiters_after(scene: &mut Scene) -> Result<()> {
    scene.update(10)?;
    scene.wait(MOST_SESSIONS as u32, OF_FEW)
}

fn filled(scene: &mut Scene) -> Result<()> {
    scene.begin();
    scene.fill()
}

/// Many statements, whose history replays.
fn history(scene: &mut Scene) -> Result<()> {
    scene.update(10)?;
    scene.begin();
    scene.replays = true;
    Ok(())
}

/// Many statements on so many rows.
fn statements(scene: &mut Scene, rows: u32) -> Result<()> {
    scene.begin();
    scene.update(rows)
}

fn write(scene: &mut Scene, what: &str) -> Result<()> {
    match what {
        "insert" => filled(scene),
        "select-beside" => beside_all(scene, FEW, FEW),
        "insert-one" => beside_all(
            scene,
            "INSERT INTO t VALUES (0, 0)",
            "INSERT INTO t VALUES (-1, 0)",
        ),
        "commit" => an_end(scene, OF_FEW, "COMMIT"),
        "rollback" => an_end(scene, OF_FEW, "ROLLBACK"),
        "release" => an_end(scene, "BEGIN; SELECT k, v FROM t FOR UPDATE", "COMMIT"),
        "statements" => statements(scene, 10),
        "hot-row" => statements(scene, 1),
        "replays" => history(scene),
        "resumed" => resumed(scene),
        "waiters" => scene.wait(scene.size.min(MOST_SESSIONS as u32), OF_FEW),
        "waiters-beside" => waiters_beside(scene),
        "waiters-after" => waiters_after(scene),
        _ => over_all(scene, what),
    }
}

/// The scene of a row of the table; its tables have a primary key where the word ends in `-keyed`.
pub fn scene_of(alloc: Global, word: &str, size: u32) -> Result<Scene> {
    let (what, keyed) = match word.strip_suffix("-keyed") {
        Some(what) => (what, true),
        None => (word, false),
    };
    let mut scene = Scene::new(alloc, size, keyed)?;
    write(&mut scene, what)?;
    Ok(scene)
}
