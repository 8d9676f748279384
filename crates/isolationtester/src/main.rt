//! Runs the spec file that comes on standard input, and prints the report of each of its permutations.
#![tactic(auto)]

use iso_lexer::FromStd;
use permutations::{serve, serve_at_terminal};
use std::env;
use std::io::{self, BufWriter, ErrorKind, IsTerminal, Stderr, Write};
use std::process::ExitCode;
use std::rt::Runtime;
use std::sync::Wait;
use std::thread::Threads;

/// The exit status where a device or memory fails before the program runs, or after.
const FAILED: u8 = 3;

fn run<R: Runtime + AllocGlobal + Threads + Wait + Sync>(
    rt: &R,
    errors: Stderr,
    typed: bool,
) -> io::Result<u8> {
    let words: Vec<String> = env::args(rt)?.collect(rt.alloc())?;
    let mut text = BufWriter::new(rt.alloc(), io::writer(rt))?;
    let mut input = FromStd::new(rt.reader());
    let mut out = FromStd::new(&mut text);
    let is_read = errors.is_terminal();
    let mut err = FromStd::new(errors);
    let status = if is_read {
        serve_at_terminal(
            rt,
            rt.alloc(),
            words.as_slice(),
            &mut input,
            typed,
            &mut out,
            &mut err,
        )
    } else {
        serve(
            rt,
            rt.alloc(),
            words.as_slice(),
            &mut input,
            &mut out,
            &mut err,
        )
    };
    let flushed = text.flush();
    // (a run that has failed has told its fault already)
    if status != FAILED {
        flushed?;
    }
    Ok(status)
}

fn main(rt: HostRuntime) -> ExitCode {
    let typed = rt.reader().is_terminal();
    match run(&rt, rt.stderr(), typed) {
        Ok(status) => ExitCode::from(status),
        Err(fault) => {
            let told = match fault.kind() {
                ErrorKind::OutOfMemory => "Memory",
                _ => "R2 Write",
            };
            let _ = eprintln!(rt; "isolationtester: {told}");
            ExitCode::from(FAILED)
        }
    }
}
