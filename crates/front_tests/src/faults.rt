//! The printed line of each fault.

use crate::asking::holds;
use iso_lexer::{Fault, FaultKind};
use spec_parser::{SpecFault, What};
use std::alloc::{AllocError, Global};

fn line_of(alloc: Global, fault: &SpecFault) -> Result<String, AllocError> {
    format!(in alloc; "{fault}")
}

/// Whether it is told by this line, asked again where memory was refused.
pub fn prints(alloc: Global, fault: &SpecFault, line: &str) -> bool {
    for _ in 0..2 {
        if let Ok(told) = line_of(alloc, fault) {
            return told.as_str() == line;
        }
    }
    false
}

const OF_TOKENS: [(FaultKind, usize, &str); 8] = [
    (
        FaultKind::UnterminatedBlock,
        17,
        "L1 UnterminatedBlock at byte 17",
    ),
    (
        FaultKind::UnterminatedName,
        0,
        "L2 UnterminatedName at byte 0",
    ),
    (FaultKind::NewlineInName, 7, "L3 NewlineInName at byte 7"),
    (
        FaultKind::UnexpectedByte,
        11,
        "L4 UnexpectedByte at byte 11",
    ),
    (
        FaultKind::FileTooLong,
        1_048_576,
        "L5 FileTooLong at byte 1048576",
    ),
    (
        FaultKind::UnterminatedString,
        9,
        "L6 UnterminatedString at byte 9",
    ),
    (
        FaultKind::UnterminatedComment,
        10,
        "L7 UnterminatedComment at byte 10",
    ),
    (
        FaultKind::NumberTooLarge,
        26,
        "L8 NumberTooLarge at byte 26",
    ),
];

#[test]
fn faults_of_tokens(rt: HostRuntime) {
    for (kind, at, line) in OF_TOKENS {
        let fault = SpecFault::Lex(Fault { kind, at });
        holds(&rt, prints(rt.alloc(), &fault, line), line);
    }
}

const EXPECTED: [(What, &str); 7] = [
    (What::Session, "S1 Expected Session at byte 0"),
    (What::Step, "S1 Expected Step at byte 0"),
    (What::Name, "S1 Expected Name at byte 0"),
    (What::Block, "S1 Expected Block at byte 0"),
    (What::Marker, "S1 Expected Marker at byte 0"),
    (What::CommaOrClose, "S1 Expected CommaOrClose at byte 0"),
    (What::Item, "S1 Expected Item at byte 0"),
];

#[test]
fn what_was_expected(rt: HostRuntime) {
    for (what, line) in EXPECTED {
        let fault = SpecFault::Expected { what, at: 0 };
        holds(&rt, prints(rt.alloc(), &fault, line), line);
    }
}

#[test]
fn faults_of_spec_files(rt: HostRuntime) {
    for (fault, line) in [
        (SpecFault::Memory, "Memory"),
        (
            SpecFault::DuplicateStep { at: 26 },
            "S2 DuplicateStep at byte 26",
        ),
        (
            SpecFault::UndefinedStep { at: 33 },
            "S3 UndefinedStep at byte 33",
        ),
        (
            SpecFault::UndefinedMarker { at: 35 },
            "S4 UndefinedMarker at byte 35",
        ),
        (
            SpecFault::NoticesLeftOut { at: 37 },
            "S5 NoticesLeftOut at byte 37",
        ),
        (SpecFault::Limit { at: 13905 }, "S6 Limit at byte 13905"),
    ] {
        holds(&rt, prints(rt.alloc(), &fault, line), line);
    }
}
