//! Runs each example of the repository, and compares what it prints with what is expected. A plain example lies in
//! `specs` and its text in `expected`. One that has options, is refused, ends early, or has notes lies in `faults`, and one
//! of which PostgreSQL prints another text in `differences`, beside its words, its text, its lines on standard error and its
//! status.
#![tactic(auto)]

use anyhow::Result;
use iso_lexer::FromStd;
use permutations::serve;
use std::alloc::Global;
use std::fs;
use std::process::ExitCode;
use std::rt::Runtime;
use std::sync::Wait;
use std::thread::Threads;

/// What a run of the program gives.
#[derive(Drop)]
struct Outcome {
    out: Vec<u8>,
    err: Vec<u8>,
    status: u8,
}

fn outcome_of<R: Threads + Wait + Sync>(
    rt: &R,
    alloc: Global,
    words: &[String],
    input: &[u8],
) -> Outcome {
    let mut source = FromStd::new(input);
    let mut out = Vec::new(alloc);
    let mut err = Vec::new(alloc);
    let mut sink = FromStd::new(&mut out);
    let mut notes = FromStd::new(&mut err);
    let status = serve(rt, alloc, words, &mut source, &mut sink, &mut notes);
    Outcome { out, err, status }
}

/// The program's name, and behind it the words of a file, none where there is no such file.
fn words_in<R: Runtime + AllocGlobal>(rt: &R, path: &str) -> Result<Vec<String>> {
    let mut words = Vec::new(rt.alloc());
    words.push(String::from_str(rt.alloc(), "isolationtester")?)?;
    if fs::exists(rt, path)? {
        for word in fs::read_to_string(rt, path)?.as_str().split_whitespace() {
            words.push(String::from_str(rt.alloc(), word)?)?;
        }
    }
    Ok(words)
}

/// The bytes of a file, none where there is no such file.
fn bytes_or_none<R: Runtime + AllocGlobal>(rt: &R, path: &str) -> Result<Vec<u8>> {
    if fs::exists(rt, path)? {
        Ok(fs::read(rt, path)?)
    } else {
        Ok(Vec::new(rt.alloc()))
    }
}

/// The status in a file, 0 where there is no such file.
fn status_or_zero<R: Runtime + AllocGlobal>(rt: &R, path: &str) -> Result<u8> {
    if fs::exists(rt, path)? {
        Ok(fs::read_to_string(rt, path)?.as_str().trim().parse::<u8>()?)
    } else {
        Ok(0)
    }
}

/// The names of the spec files of a folder, without their ending.
fn names_in<R: Runtime + AllocGlobal>(rt: &R, folder: &str) -> Result<Vec<String>> {
    let mut names = Vec::new(rt.alloc());
    for entry in fs::read_dir(rt, folder)? {
        let entry = entry?;
        if let Some(name) = entry.file_name().strip_suffix(".spec") {
            names.push(String::from_str(rt.alloc(), name)?)?;
        }
    }
    names.sort()?;
    Ok(names)
}

/// Whether a plain example prints its text, and nothing on standard error.
fn prints_its_text<R: Runtime + AllocGlobal + Threads + Wait + Sync>(
    rt: &R,
    name: &str,
) -> Result<bool> {
    let alloc = rt.alloc();
    let spec = fs::read(rt, format!(in alloc; "specs/{name}.spec")?.as_str())?;
    let expected = fs::read(rt, format!(in alloc; "expected/{name}.out")?.as_str())?;
    let words = words_in(rt, "specs/none.args")?;
    let outcome = outcome_of(rt, alloc, &words, &spec);
    Ok(outcome.out == expected && outcome.err.is_empty() && outcome.status == 0)
}

/// Whether an example of a folder prints its text and its lines on standard error, and ends with its status.
fn ends_so<R: Runtime + AllocGlobal + Threads + Wait + Sync>(
    rt: &R,
    folder: &str,
    name: &str,
) -> Result<bool> {
    let alloc = rt.alloc();
    let spec = fs::read(rt, format!(in alloc; "{folder}/{name}.spec")?.as_str())?;
    let words = words_in(rt, format!(in alloc; "{folder}/{name}.args")?.as_str())?;
    let out = bytes_or_none(rt, format!(in alloc; "{folder}/{name}.out")?.as_str())?;
    let err = bytes_or_none(rt, format!(in alloc; "{folder}/{name}.err")?.as_str())?;
    let status = status_or_zero(rt, format!(in alloc; "{folder}/{name}.status")?.as_str())?;
    let outcome = outcome_of(rt, alloc, &words, &spec);
    Ok(outcome.out == out && outcome.err == err && outcome.status == status)
}

fn run<R: Runtime + AllocGlobal + Threads + Wait + Sync>(rt: &R) -> Result<bool> {
    let mut all = true;
    for name in &names_in(rt, "specs")? {
        if !prints_its_text(rt, name.as_str())? {
            all = false;
            println!(rt; "differs: specs/{name}")?;
        }
    }
    for folder in ["faults", "differences"] {
        for name in &names_in(rt, folder)? {
            if !ends_so(rt, folder, name.as_str())? {
                all = false;
                println!(rt; "differs: {folder}/{name}")?;
            }
        }
    }
    Ok(all)
}

fn main(rt: HostRuntime) -> Result<ExitCode> {
    if run(&rt)? {
        println!(rt; "Each example prints what is expected.")?;
        Ok(ExitCode::SUCCESS)
    } else {
        Ok(ExitCode::FAILURE)
    }
}
