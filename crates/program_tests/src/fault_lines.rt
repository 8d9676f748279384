//! The printed line of each fault, and what the program puts of it at its end.

use crate::asking::holds;
use iso_lexer::{Fault, FaultKind};
use permutations::{BlockFault, RunFault};
use program_words::end;
use session_threads::ThreadFault;
use spec_parser::{SpecFault, What};
use sql_trees::SqlFault;
use std::alloc::{AllocError, Global};
use std::process::Abort;
use test_devices::Takes;

/// A fault prints this line, and the program puts the same one behind its name; no memory is wanted for that.
fn is_told(rt: &impl Abort, alloc: Global, fault: RunFault, line: &str) -> Result<(), AllocError> {
    let mut err = Takes::new(usize::MAX);
    let told = format!(in alloc; "{fault}");
    let status = end(Err(fault), b"", false, &mut err);
    let text = err.text().strip_prefix(b"isolationtester: ".as_slice());
    let text = text.and_then(|text| text.strip_suffix(b"\n".as_slice()));
    holds(rt, text == Some(line.as_bytes()), line);
    holds(rt, status == 1 || status == 3, line);
    holds(rt, told?.as_str() == line, line);
    Ok(())
}

#[test]
fn faults_of_a_run(rt: HostRuntime) -> Result<(), AllocError> {
    let text = String::from_str(rt.alloc(), "division by zero")?;
    for (fault, line) in [
        (RunFault::Read, "R1 Read"),
        (RunFault::Write, "R2 Write"),
        (
            RunFault::SetupFailed { text },
            "R6 SetupFailed: division by zero",
        ),
        (RunFault::SetupWaits, "R7 SetupWaits"),
        (RunFault::ScheduleBroken, "R8 ScheduleBroken"),
        (RunFault::TooManyPermutations, "R9 TooManyPermutations"),
        (RunFault::Threads(ThreadFault::Gate), "R10 Threads"),
        (RunFault::NotUtf8 { at: 17 }, "R11 NotUtf8 at byte 17"),
        (RunFault::Memory, "Memory"),
    ] {
        is_told(&rt, rt.alloc(), fault, line)?;
    }
    Ok(())
}

#[test]
fn faults_of_tokens(rt: HostRuntime) -> Result<(), AllocError> {
    for (kind, line) in [
        (
            FaultKind::UnterminatedBlock,
            "L1 UnterminatedBlock at byte 17",
        ),
        (
            FaultKind::UnterminatedName,
            "L2 UnterminatedName at byte 17",
        ),
        (FaultKind::NewlineInName, "L3 NewlineInName at byte 17"),
        (FaultKind::UnexpectedByte, "L4 UnexpectedByte at byte 17"),
        (FaultKind::FileTooLong, "L5 FileTooLong at byte 17"),
        (
            FaultKind::UnterminatedString,
            "L6 UnterminatedString at byte 17",
        ),
        (
            FaultKind::UnterminatedComment,
            "L7 UnterminatedComment at byte 17",
        ),
        (FaultKind::NumberTooLarge, "L8 NumberTooLarge at byte 17"),
    ] {
        let fault = RunFault::Lex(Fault { kind, at: 17 });
        is_told(&rt, rt.alloc(), fault, line)?;
    }
    Ok(())
}

#[test]
fn what_a_spec_lacks(rt: HostRuntime) -> Result<(), AllocError> {
    for (what, at, line) in [
        (What::Session, 0, "S1 Expected Session at byte 0"),
        (What::Step, 1_048_576, "S1 Expected Step at byte 1048576"),
        (What::Name, 17, "S1 Expected Name at byte 17"),
        (What::Block, 17, "S1 Expected Block at byte 17"),
        (What::Marker, 17, "S1 Expected Marker at byte 17"),
        (What::Item, 17, "S1 Expected Item at byte 17"),
        (
            What::CommaOrClose,
            17,
            "S1 Expected CommaOrClose at byte 17",
        ),
    ] {
        let fault = SpecFault::Expected { what, at };
        is_told(&rt, rt.alloc(), RunFault::Spec(fault), line)?;
    }
    Ok(())
}

#[test]
fn faults_of_a_spec(rt: HostRuntime) -> Result<(), AllocError> {
    let at = 1_048_576;
    for (fault, line) in [
        (
            SpecFault::DuplicateStep { at },
            "S2 DuplicateStep at byte 1048576",
        ),
        (
            SpecFault::UndefinedStep { at },
            "S3 UndefinedStep at byte 1048576",
        ),
        (
            SpecFault::UndefinedMarker { at },
            "S4 UndefinedMarker at byte 1048576",
        ),
        (
            SpecFault::NoticesLeftOut { at },
            "S5 NoticesLeftOut at byte 1048576",
        ),
        (SpecFault::Limit { at }, "S6 Limit at byte 1048576"),
    ] {
        is_told(&rt, rt.alloc(), RunFault::Spec(fault), line)?;
    }
    Ok(())
}

/// The byte is that in the file: the block begins at byte 1000.
#[test]
fn faults_of_a_block(rt: HostRuntime) -> Result<(), AllocError> {
    let lexed = Fault {
        kind: FaultKind::NumberTooLarge,
        at: 26,
    };
    for (fault, line) in [
        (SqlFault::Lex(lexed), "L8 NumberTooLarge at byte 1026"),
        (SqlFault::Syntax(26), "Q1 Syntax at byte 1026"),
        (SqlFault::LeftOut(26), "Q2 LeftOut at byte 1026"),
        (SqlFault::TooDeep(26), "Q3 TooDeep at byte 1026"),
        (SqlFault::TooMany(26), "Q4 TooMany at byte 1026"),
        (SqlFault::DdlInSession(26), "Q5 DdlInSession at byte 1026"),
        (SqlFault::BadColumns(26), "Q6 BadColumns at byte 1026"),
    ] {
        let told = BlockFault { block: 1000, fault };
        is_told(&rt, rt.alloc(), RunFault::Sql(told), line)?;
    }
    Ok(())
}
