//! Says what can happen at all: runs the permutations of the spec file that comes on standard input, and prints their outcomes, with
//! those that no serial order of the transactions has.
#![tactic(auto)]

mod counting;
mod file;
mod outcome;
mod replay;
mod serial;
mod verdict;

use file::answer_of;
use iso_lexer::{FromStd, LONGEST_FILE, read_all};
use outcome_text::{Answer, Progress, Request, USAGE, request_of};
use spec_files::RunFault;
use std::env;
use std::io::{self, ErrorKind, IsTerminal};
use std::process::ExitCode;
use std::rt::Runtime;

/// The status where the words of the command line are refused.
const WORDS_REFUSED: u8 = 2;

/// The status where an outcome is not serial, and that was asked.
const NOT_SERIAL: u8 = 4;

/// Reads the file, and says what can happen in it; meanwhile, where somebody reads the errors, how far that has come.
fn read_and_answer<R: Runtime + AllocGlobal>(
    rt: &R,
    request: Request,
    is_read: bool,
) -> Result<Answer, RunFault> {
    let alloc = rt.alloc();
    let mut input = FromStd::new(rt.reader());
    let bytes = read_all(alloc, &mut input, LONGEST_FILE + 1)?;
    let mut progress = Progress::new(rt, is_read);
    let answer = answer_of(
        alloc,
        bytes.as_slice(),
        request.limit,
        request.html,
        &mut progress,
    );
    progress.end();
    answer
}

/// Prints what can happen.
fn print_answer<R: Runtime>(rt: &R, answer: &Answer) -> io::Result<()> {
    let text = answer.text.as_str();
    print!(rt; "{text}")
}

/// Tells on the errors why nothing is said of what can happen.
fn tell_fault<R: Runtime>(rt: &R, fault: &RunFault) -> io::Result<()> {
    eprintln!(rt; "outcomes: {fault}")
}

/// Says what can happen, and gives the exit status.
fn answer<R: Runtime + AllocGlobal>(rt: &R, request: Request, is_read: bool) -> io::Result<u8> {
    match read_and_answer(rt, request, is_read) {
        Ok(answer) => {
            print_answer(rt, &answer)?;
            Ok(if request.serial && !answer.serial {
                NOT_SERIAL
            } else {
                0
            })
        }
        Err(fault) => {
            tell_fault(rt, &fault)?;
            Ok(fault.status())
        }
    }
}

/// What the words of the command line ask for; none where they are no call.
fn request_in<R: Runtime + AllocGlobal>(rt: &R) -> io::Result<Option<Request>> {
    let words: Vec<String> = env::args(rt)?.collect(rt.alloc())?;
    Ok(request_of(&words))
}

/// Does what the words of the command line ask for, and gives the exit status.
fn run<R: Runtime + AllocGlobal>(rt: &R, is_read: bool) -> io::Result<u8> {
    match request_in(rt)? {
        Some(request) if request.help => {
            println!(rt; "{USAGE}")?;
            Ok(0)
        }
        Some(request) => answer(rt, request, is_read),
        None => {
            eprintln!(rt; "{USAGE}")?;
            Ok(WORDS_REFUSED)
        }
    }
}

/// What failed around the run, as the isolation tester names it: memory, or a device that is written.
fn fault_of(kind: ErrorKind) -> RunFault {
    match kind {
        ErrorKind::OutOfMemory => RunFault::Memory,
        _ => RunFault::Write,
    }
}

fn main(rt: HostRuntime) -> ExitCode {
    match run(&rt, rt.stderr().is_terminal()) {
        Ok(status) => ExitCode::from(status),
        Err(fault) => {
            let fault = fault_of(fault.kind());
            let _ = tell_fault(&rt, &fault);
            ExitCode::from(fault.status())
        }
    }
}
