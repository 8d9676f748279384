//! Times reading, sorting or steps, as the word says, and says on standard error how long each took. Without a word all of them
//! run, and no time is told. With the word `alone` a spec file runs without threads, for whoever times that. With `growth`, a row
//! of the table of growth and a number, that row runs at this size, and its time is told; with `whole` behind them it isn't, and
//! with `setup` what is measured doesn't run.
#![tactic(auto)]

mod alone;
mod growth;
mod reading;
mod rows;
mod scene;
mod sorting;
mod steps;

use crate::growth::Extent;
use anyhow::{Result, bail};
use std::env;

fn extent_of(word: Option<String>) -> Result<Extent> {
    let Some(word) = word else {
        return Ok(Extent::Timed);
    };
    match word.as_str() {
        "setup" => Ok(Extent::Setup),
        "whole" => Ok(Extent::Whole),
        _ => bail!("of a row runs the setup or the whole"),
    }
}

/// The words behind `growth`.
fn run_growth(rt: &HostRuntime) -> Result<()> {
    let mut words = env::args(rt)?.skip(2);
    let (Some(what), Some(size)) = (words.next(), words.next()) else {
        bail!("growth ROW SIZE [setup|whole]");
    };
    let extent = extent_of(words.next())?;
    growth::run(rt, what.as_str(), size.as_str().parse::<u32>()?, extent)
}

fn timed(rt: &HostRuntime, word: &str) -> Result<()> {
    match word {
        "alone" => alone::run(rt),
        "growth" => run_growth(rt),
        "reading" => reading::run(rt, true),
        "sorting" => sorting::run(rt, true),
        "steps" => steps::run(rt, true),
        _ => bail!("the word is alone, growth, reading, sorting or steps"),
    }
}

fn main(rt: HostRuntime) -> Result<()> {
    match env::args(&rt)?.nth(1) {
        Some(word) => timed(&rt, word.as_str()),
        None => {
            reading::run(&rt, false)?;
            sorting::run(&rt, false)?;
            steps::run(&rt, false)
        }
    }
}
