//! Each fault is an error of std: `?` carries it into `anyhow`, which keeps its line.

use crate::asking::holds;
use anyhow::Result;
use iso_lexer::{DeviceFault, Fault, FaultKind, LexFault, ReadFault};
use spec_parser::SpecFault;
use std::alloc::Global;
use std::error::Error;
use std::process::Abort;

fn carried<E: Error>(fault: E) -> Result<()> {
    Err(fault)?;
    Ok(())
}

/// The line of the fault, if memory is left for it.
fn line_of<E: Error>(alloc: Global, fault: E) -> Option<String> {
    match carried(fault) {
        Ok(()) => None,
        Err(error) => format!(in alloc; "{error}").ok(),
    }
}

/// The fault is told by this line, where memory is left for it.
fn is_told<E: Error>(rt: &impl Abort, alloc: Global, fault: E, line: &str) {
    if let Some(told) = line_of(alloc, fault) {
        holds(rt, told.as_str() == line, line);
    }
}

#[test]
fn faults_are_errors(rt: HostRuntime) {
    let alloc = rt.alloc();
    let fault = Fault {
        kind: FaultKind::UnexpectedByte,
        at: 11,
    };
    is_told(&rt, alloc, DeviceFault, "Device");
    is_told(&rt, alloc, ReadFault::Device, "Device");
    is_told(&rt, alloc, ReadFault::Memory, "Memory");
    is_told(&rt, alloc, fault.kind, "L4 UnexpectedByte");
    is_told(&rt, alloc, fault, "L4 UnexpectedByte at byte 11");
    let refused = LexFault::Fault(fault);
    is_told(&rt, alloc, refused, "L4 UnexpectedByte at byte 11");
    is_told(&rt, alloc, LexFault::Memory, "Memory");
    let refused = SpecFault::Lex(fault);
    is_told(&rt, alloc, refused, "L4 UnexpectedByte at byte 11");
    let limit = SpecFault::Limit { at: 13905 };
    is_told(&rt, alloc, limit, "S6 Limit at byte 13905");
}
