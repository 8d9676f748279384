//! What a row of the table of growth runs: texts of SQL, and which session is given which of them after the other.

use crate::steps::block_of;
use anyhow::{Result, bail};
use sql_parser::{Block, Role};
use std::alloc::Global;

/// So many rows are made by one INSERT at most.
const ROWS_AT_ONCE: u32 = 1_000;

/// A session is given the block of this number.
#[derive(Clone, Copy)]
pub struct Launch {
    pub session: u32,
    pub block: u32,
}

/// A text, and the session that it is for.
#[derive(Drop)]
struct Text {
    session: u32,
    sql: String,
}

/// Texts, and the order in which they are launched.
#[derive(Drop)]
pub struct Scene {
    alloc: Global,
    /// How many rows there are, or statements.
    pub size: u32,
    texts: Vec<Text>,
    launches: Vec<Launch>,
    /// So many launches come before the measured ones.
    ahead: usize,
    /// What is measured is whether the history replays, in place of launches.
    pub replays: bool,
}

/// An INSERT of the rows behind the first `from`, of which each has a number that is less by one than the one before.
fn filling(alloc: Global, size: u32, from: u32) -> Result<String> {
    let mut sql = String::from_str(alloc, "INSERT INTO t VALUES ")?;
    for row in from..from.saturating_add(ROWS_AT_ONCE).min(size) {
        let comma = if row == from { "" } else { ", " };
        let k = size.saturating_sub(row);
        let values = format!(in alloc; "{comma}({k}, 0)")?;
        sql.push_str(values.as_str())?;
    }
    Ok(sql)
}

impl Scene {
    /// Nothing is launched yet.
    fn empty(alloc: Global, size: u32) -> Scene {
        Scene {
            alloc,
            size,
            texts: Vec::new(alloc),
            launches: Vec::new(alloc),
            ahead: 0,
            replays: false,
        }
    }

    /// Two tables, with a primary key or without: `few` has the rows 0 to 9, and `t` none.
    pub fn new(alloc: Global, size: u32, keyed: bool) -> Result<Scene> {
        let mut scene = Scene::empty(alloc, size);
        let key = if keyed { " PRIMARY KEY" } else { "" };
        for table in ["few", "t"] {
            let sql = format!(in alloc; "CREATE TABLE {table} (k int{key}, v int)")?;
            scene.run(0, sql.as_str())?;
        }
        for k in 0..10 {
            let sql = format!(in alloc; "INSERT INTO few VALUES ({k}, 0)")?;
            scene.run(0, sql.as_str())?;
        }
        Ok(scene)
    }

    fn add(&mut self, session: u32, sql: &str) -> Result<Launch> {
        let Ok(block) = u32::try_from(self.texts.len()) else {
            bail!("many texts");
        };
        let sql = String::from_str(self.alloc, sql)?;
        self.texts.push(Text { session, sql })?;
        Ok(Launch { session, block })
    }

    /// The session is given this text.
    pub fn run(&mut self, session: u32, sql: &str) -> Result<()> {
        let launch = self.add(session, sql)?;
        self.launches.push(launch)?;
        Ok(())
    }

    /// What comes from here on is measured.
    pub fn begin(&mut self) {
        self.ahead = self.launches.len();
    }

    /// What comes of this text is measured.
    pub fn measure(&mut self, session: u32, sql: &str) -> Result<()> {
        self.begin();
        self.run(session, sql)
    }

    /// The rows of `t`: the first is numbered as many as there are, the last 1.
    pub fn fill(&mut self) -> Result<()> {
        for from in (0..self.size).step_by(1_000) {
            let sql = filling(self.alloc, self.size, from)?;
            self.run(0, sql.as_str())?;
        }
        Ok(())
    }

    /// Statements one after the other, each of which changes the next of so many rows of `few`.
    pub fn update(&mut self, rows: u32) -> Result<()> {
        let mut updates = Vec::new(self.alloc);
        for k in 0..rows {
            let sql = format!(in self.alloc; "UPDATE few SET v = v + 1 WHERE k = {k}")?;
            updates.push(self.add(1, sql.as_str())?)?;
        }
        for launch in updates.iter().cycle().take(self.size as usize) {
            self.launches.push(*launch)?;
        }
        Ok(())
    }

    /// So many sessions are given the text behind the control session.
    fn line_up(&mut self, behind: u32, sql: &str) -> Result<()> {
        for session in 0..=behind {
            self.run(session, sql)?;
        }
        Ok(())
    }

    /// So many sessions wait for the control session, each in a transaction, and then that one commits; so they do before, and all
    /// commit.
    pub fn wait(&mut self, waiters: u32, sql: &str) -> Result<()> {
        self.line_up(waiters, sql)?;
        self.line_up(waiters, "COMMIT")?;
        self.line_up(waiters, sql)?;
        self.measure(0, "COMMIT")
    }

    /// The blocks of the texts.
    pub fn blocks(&self) -> Result<Vec<Block<'_>>> {
        let mut blocks = Vec::new(self.alloc);
        for text in &self.texts {
            let role = if text.session == 0 {
                Role::Main
            } else {
                Role::Session
            };
            blocks.push(block_of(self.alloc, text.sql.as_str(), role)?)?;
        }
        Ok(blocks)
    }

    /// How many sessions there are beside the control session.
    pub fn sessions(&self) -> u32 {
        let mut most = 0;
        for text in &self.texts {
            most = text.session.max(most);
        }
        most
    }

    /// What is launched before the measured part, and what is measured.
    pub fn parts(&self) -> (&[Launch], &[Launch]) {
        match self.launches.split_at_checked(self.ahead) {
            Some(parts) => parts,
            None => (&self.launches, &[]),
        }
    }
}
