//! The line of a fault, and the byte of the file that it names.

ghost use Rattle.std.specs.Prelude.{◌≡◌, ◌++◌, OnErr, OnOk, codes, true};
ghost use Rattle.std.specs.Io.KnownBytes.{Appends};
ghost use Rattle.iso_lexer.specs.Devices.{PutsFront};
ghost use Rattle.iso_lexer.specs.FaultText.{kind_text};
ghost use Rattle.spec_parser.specs.FaultText.{spec_fault_text, what_text};
ghost use Rattle.spec_files.specs.FaultText.{block_fault_text, fault_line, fault_text};
ghost use Rattle.program_words.specs.Places.{block_place, line_of, place_in_file, place_text, setup_text, spec_place};

use crate::pieces::put_pieces;
use iso_lexer::{DeviceFault, FaultKind, Sink};
use itoa::Buffer;
use spec_files::{BlockFault, RunFault};
use spec_parser::{SpecFault, What};
use sql_trees::SqlFault;

fn kind_name(kind: FaultKind) -> &'static str
    ensures { result.now ≡ kind_text kind }
{
    match kind {
        FaultKind::UnterminatedBlock => "L1 UnterminatedBlock",
        FaultKind::UnterminatedName => "L2 UnterminatedName",
        FaultKind::NewlineInName => "L3 NewlineInName",
        FaultKind::UnexpectedByte => "L4 UnexpectedByte",
        FaultKind::FileTooLong => "L5 FileTooLong",
        FaultKind::UnterminatedString => "L6 UnterminatedString",
        FaultKind::UnterminatedComment => "L7 UnterminatedComment",
        FaultKind::NumberTooLarge => "L8 NumberTooLarge",
    }
}

fn expected_name(what: What) -> &'static str
    ensures { result.now ≡ codes "S1 Expected " ++ what_text what }
{
    match what {
        What::Session => "S1 Expected Session",
        What::Step => "S1 Expected Step",
        What::Name => "S1 Expected Name",
        What::Block => "S1 Expected Block",
        What::Marker => "S1 Expected Marker",
        What::CommaOrClose => "S1 Expected CommaOrClose",
        What::Item => "S1 Expected Item",
    }
}

fn spec_name(fault: &SpecFault) -> &'static str
    ensures { spec_fault_text fault.now ≡ result.now ++ place_text (spec_place fault.now) }
{
    match fault {
        SpecFault::Memory => "Memory",
        SpecFault::Lex(fault) => kind_name(fault.kind),
        SpecFault::Expected { what, .. } => expected_name(*what),
        SpecFault::DuplicateStep { .. } => "S2 DuplicateStep",
        SpecFault::UndefinedStep { .. } => "S3 UndefinedStep",
        SpecFault::UndefinedMarker { .. } => "S4 UndefinedMarker",
        SpecFault::NoticesLeftOut { .. } => "S5 NoticesLeftOut",
        SpecFault::Limit { .. } => "S6 Limit",
    }
}

fn block_name(told: &BlockFault) -> &'static str
    ensures { block_fault_text told.now ≡ result.now ++ place_text (block_place told.now) }
{
    match told.fault {
        SqlFault::Memory => "Memory",
        SqlFault::Lex(fault) => kind_name(fault.kind),
        SqlFault::Syntax(_) => "Q1 Syntax",
        SqlFault::LeftOut(_) => "Q2 LeftOut",
        SqlFault::TooDeep(_) => "Q3 TooDeep",
        SqlFault::TooMany(_) => "Q4 TooMany",
        SqlFault::DdlInSession(_) => "Q5 DdlInSession",
        SqlFault::BadColumns(_) => "Q6 BadColumns",
    }
}

/// What a fault is called: what its text says before what a setup failed with, or before its byte.
fn name_of(fault: &RunFault) -> &'static str
    ensures { fault_text fault.now ≡ result.now ++ setup_text fault.now ++ place_text (place_in_file fault.now) }
{
    match fault {
        RunFault::Read => "R1 Read",
        RunFault::Write => "R2 Write",
        RunFault::Lex(fault) => kind_name(fault.kind),
        RunFault::Spec(fault) => spec_name(fault),
        RunFault::Sql(fault) => block_name(fault),
        RunFault::SetupFailed { .. } => "R6 SetupFailed: ",
        RunFault::SetupWaits => "R7 SetupWaits",
        RunFault::ScheduleBroken => "R8 ScheduleBroken",
        RunFault::TooManyPermutations => "R9 TooManyPermutations",
        RunFault::Threads(_) => "R10 Threads",
        RunFault::NotUtf8 { .. } => "R11 NotUtf8",
        RunFault::Memory => "Memory",
    }
}

/// What a setup failed with.
fn setup_text(fault: &RunFault) -> &str
    ensures { result.now ≡ setup_text fault.now }
{
    match fault {
        RunFault::SetupFailed { text } => text.as_str(),
        _ => "",
    }
}

fn spec_place(fault: &SpecFault) -> Option<usize>
    ensures { result ≡ spec_place fault.now }
{
    match fault {
        SpecFault::Memory => None,
        SpecFault::Lex(fault) => Some(fault.at),
        SpecFault::Expected { at, .. }
        | SpecFault::DuplicateStep { at }
        | SpecFault::UndefinedStep { at }
        | SpecFault::UndefinedMarker { at }
        | SpecFault::NoticesLeftOut { at }
        | SpecFault::Limit { at } => Some(*at),
    }
}

fn block_place(told: &BlockFault) -> Option<usize>
    ensures { result ≡ block_place told.now }
{
    match told.fault {
        SqlFault::Memory => None,
        _ => Some(told.place()),
    }
}

/// The byte of the file that a fault names.
pub(crate) fn place_of(fault: &RunFault) -> Option<usize>
    ensures { result ≡ place_in_file fault.now }
{
    match fault {
        RunFault::Lex(fault) => Some(fault.at),
        RunFault::Spec(fault) => spec_place(fault),
        RunFault::Sql(told) => block_place(told),
        RunFault::NotUtf8 { at } => Some(*at),
        RunFault::Read
        | RunFault::Write
        | RunFault::SetupFailed { .. }
        | RunFault::SetupWaits
        | RunFault::ScheduleBroken
        | RunFault::Threads(_)
        | RunFault::TooManyPermutations
        | RunFault::Memory => None,
    }
}

/// Puts a line of the program, in four parts.
fn put_parts<'p, N: Sink>(
    err: &mut N,
    name: &'p [u8],
    text: &'p [u8],
    at_byte: &'p [u8],
    number: &'p [u8],
) -> Result<(), DeviceFault>
    ensures bytes { OnOk result (Appends (N.put_so_far err.old) (N.put_so_far err.new) (line_of (name.now ++ text.now ++ at_byte.now ++ number.now))) }
    ensures front { PutsFront (N.put_so_far err.old) (N.put_so_far err.new) (line_of (name.now ++ text.now ++ at_byte.now ++ number.now)) }
    ensures fails { OnErr result (N.failed err.new ≡ true) }
    ensures stays { N.failed err.old ≡ true → N.failed err.new ≡ true }
{
    let program = b"isolationtester: ".as_slice();
    let newline = b"\n".as_slice();
    put_pieces(err, &[program, name, text, at_byte, number, newline])
}

/// Puts the line of a fault.
pub(crate) fn put_fault<N: Sink>(err: &mut N, fault: &RunFault) -> Result<(), DeviceFault>
    ensures bytes { OnOk result (Appends (N.put_so_far err.old) (N.put_so_far err.new) (fault_line fault.now)) }
    ensures front { PutsFront (N.put_so_far err.old) (N.put_so_far err.new) (fault_line fault.now) }
    ensures fails { OnErr result (N.failed err.new ≡ true) }
    ensures stays { N.failed err.old ≡ true → N.failed err.new ≡ true }
{
    let name = name_of(fault).as_bytes();
    let text = setup_text(fault).as_bytes();
    match place_of(fault) {
        None => put_parts(err, name, text, &[], &[]),
        Some(at) => {
            let mut digits = Buffer::new();
            let number = digits.format(at).as_bytes();
            put_parts(err, name, text, b" at byte ".as_slice(), number)
        }
    }
}
