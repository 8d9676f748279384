//! Draws what the isolation tester printed: for each permutation a table with one column a session and time downwards. The
//! text comes on standard input; the word names the spec file, which says whose step each one is. It reads texts alone,
//! and nothing is promised but that it is safe and ends.
#![tactic(auto)]

mod levels;
mod names;
mod picture;
mod reading;
mod table;

use anyhow::{Context, Result, anyhow};
use names::{Column, columns_of};
use picture::picture_of;
use reading::{PermutationReport, is_of_the_tool, reports_in};
use spec_parser::parse_spec;
use std::alloc::{AllocError, Global};
use std::process::ExitCode;
use std::{env, fs, io};
use table::table_of;

/// The status where the words of the command line are refused.
const WORDS_REFUSED: u8 = 2;

const USAGE: &str = "timeline [--svg] [--split PREFIX] SPEC < TEXT

Draws what the isolation tester printed, one column a session and time downwards:

    ./isolationtester < SPEC > TEXT
    timeline SPEC < TEXT                      as text
    timeline --svg SPEC < TEXT > FILE         as a picture
    timeline --svg --split p SPEC < TEXT      as p1.svg, p2.svg .., one for each permutation; without --svg p1.txt ..";

/// What the command line asks for.
#[derive(Drop)]
struct Request<'a> {
    spec: &'a str,
    is_picture: bool,
    prefix: Option<&'a str>,
}

/// What the words ask for; none where they are no call.
fn request_of(words: &[String]) -> Option<Request<'_>> {
    let mut spec = None;
    let mut is_picture = false;
    let mut prefix = None;
    let mut is_prefix = false;
    for word in words.iter().skip(1) {
        if is_prefix {
            prefix = Some(word.as_str());
            is_prefix = false;
        } else if word.as_str() == "--svg" {
            is_picture = true;
        } else if word.as_str() == "--split" {
            is_prefix = true;
        } else if word.as_str().starts_with("-") || spec.is_some() {
            return None;
        } else {
            spec = Some(word.as_str());
        }
    }
    if is_prefix {
        return None;
    }
    Some(Request {
        spec: spec?,
        is_picture,
        prefix,
    })
}

/// Whether help is asked for.
fn asks_help(words: &[String]) -> bool {
    for word in words.iter().skip(1) {
        if word.as_str() == "--help" {
            return true;
        }
    }
    false
}

fn drawing(
    alloc: Global,
    is_picture: bool,
    columns: &[Column],
    reports: &[PermutationReport],
) -> Result<String, AllocError> {
    if is_picture {
        picture_of(alloc, columns, reports)
    } else {
        table_of(alloc, columns, reports)
    }
}

/// Draws the text on standard input, beside the spec file: on standard output, or each permutation into a file.
fn draw(rt: &HostRuntime, request: &Request<'_>) -> Result<()> {
    let alloc = rt.alloc();
    let path = request.spec;
    let file = fs::read_to_string(rt, path).context(format_args!("reading {path}"))?;
    let spec = parse_spec(alloc, file.as_str()).map_err(|fault| anyhow!("{path}: {fault}"))?;
    let text = io::read_to_string(alloc, rt.reader()).context("reading standard input")?;
    if !is_of_the_tool(text.as_str()) {
        return Err(anyhow!("standard input is no text of the isolation tester"));
    }
    let columns = columns_of(alloc, &spec)?;
    let reports = reports_in(alloc, &columns, text.as_str())?;
    if reports.is_empty() {
        return Err(anyhow!("no permutation and no free run stands in the text"));
    }
    let Some(prefix) = request.prefix else {
        let drawn = drawing(alloc, request.is_picture, &columns, &reports)?;
        print!(rt; "{drawn}")?;
        return Ok(());
    };
    let ending = if request.is_picture { "svg" } else { "txt" };
    for (at, one) in reports.chunks(1).enumerate() {
        let number = at.saturating_add(1);
        let name = format!(in alloc; "{prefix}{number}.{ending}")?;
        let drawn = drawing(alloc, request.is_picture, &columns, one)?;
        fs::write(rt, name.as_str(), drawn.as_str()).context(format_args!("writing {name}"))?;
    }
    Ok(())
}

fn main(rt: HostRuntime) -> Result<ExitCode> {
    let words: Vec<String> = env::args(&rt)?.collect(rt.alloc())?;
    if asks_help(&words) {
        println!(rt; "{USAGE}")?;
        return Ok(ExitCode::SUCCESS);
    }
    match request_of(&words) {
        Some(request) => {
            draw(&rt, &request)?;
            Ok(ExitCode::SUCCESS)
        }
        None => {
            eprintln!(rt; "{USAGE}")?;
            Ok(ExitCode::from(WORDS_REFUSED))
        }
    }
}
