//! Reads spec files of half a mebibyte and of one, and says what they hold.

use anyhow::{Result, bail};
use iso_lexer::spec_tokens;
use spec_parser::parse_spec;
use std::alloc::{AllocError, Global};
use std::time::Instant;

const HEAD: &str = "session s step a { } step b { }\n";

/// Each file is read so often, and the least time counts.
const ROUNDS: usize = 10;

/// A file of two steps and then the line so often.
fn file_of(alloc: Global, line: &str, count: usize) -> Result<String, AllocError> {
    let lines = line.repeat(alloc, count)?;
    format!(in alloc; "{HEAD}{lines}")
}

/// How many tokens the file has, and the microseconds that they took.
fn tokens(rt: &HostRuntime, text: &str) -> Result<(usize, u128)> {
    let start = Instant::now(rt)?;
    let Ok(tokens) = spec_tokens(rt.alloc(), text) else {
        bail!("no tokens");
    };
    let time = start.elapsed(rt)?;
    Ok((tokens.len(), time.as_micros()))
}

/// How many permutations the file has, and the microseconds that reading it took.
fn perms(rt: &HostRuntime, text: &str) -> Result<(usize, u128)> {
    let start = Instant::now(rt)?;
    let Ok(spec) = parse_spec(rt.alloc(), text) else {
        bail!("no spec");
    };
    let time = start.elapsed(rt)?;
    Ok((spec.perms.len(), time.as_micros()))
}

fn read(rt: &HostRuntime, name: &str, text: &str, with_times: bool) -> Result<()> {
    let bytes = text.len();
    let (count, mut lexer) = tokens(rt, text)?;
    for _ in 1..ROUNDS {
        lexer = tokens(rt, text)?.1.min(lexer);
    }
    let (lines, mut parser) = perms(rt, text)?;
    for _ in 1..ROUNDS {
        parser = perms(rt, text)?.1.min(parser);
    }
    println!(rt; "{name}, {bytes} bytes: {count} tokens, {lines} permutations")?;
    if with_times {
        eprintln!(rt; "{name};{bytes};{lexer};{parser}")?;
    }
    Ok(())
}

pub fn run(rt: &HostRuntime, with_times: bool) -> Result<()> {
    for (name, line, half, whole) in [
        ("permutations", "permutation a b b a\n", 26_212, 52_427),
        ("markers", "permutation b a(b,*)\n", 24_964, 49_930),
        ("comments", "# one line of a note\n", 24_964, 49_930),
    ] {
        let text = file_of(rt.alloc(), line, half)?;
        read(rt, name, text.as_str(), with_times)?;
        let text = file_of(rt.alloc(), line, whole)?;
        read(rt, name, text.as_str(), with_times)?;
    }
    Ok(())
}
