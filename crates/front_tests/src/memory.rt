//! To be run with each allocation failing in turn: the answer is the one of ample memory, or want of memory, and never a fault.

use crate::asking::holds;
use crate::faults::prints;
use iso_lexer::{FromStd, LexFault, ReadFault, read_all, spec_tokens, sql_tokens};
use spec_parser::{SpecFault, parse_spec};

#[test]
fn want_of_memory_for_tokens(rt: HostRuntime) {
    let text = "session s step a { SELECT 1; } permutation a a a";
    match spec_tokens(rt.alloc(), text) {
        Ok(tokens) => holds(&rt, tokens.len() == 9, text),
        Err(fault) => holds(&rt, matches!(fault, LexFault::Memory), text),
    }
    let text = "SELECT 1, 2, 3, 4 FROM t";
    match sql_tokens(rt.alloc(), text) {
        Ok(tokens) => holds(&rt, tokens.len() == 10, text),
        Err(fault) => holds(&rt, matches!(fault, LexFault::Memory), text),
    }
}

#[test]
fn want_of_memory_for_bytes(rt: HostRuntime) {
    match read_all(rt.alloc(), &mut FromStd::new(&b"abc"[..]), 10) {
        Ok(bytes) => holds(&rt, bytes.as_slice() == b"abc".as_slice(), "bytes"),
        Err(fault) => holds(&rt, matches!(fault, ReadFault::Memory), "no bytes"),
    }
}

#[test]
fn want_of_memory_for_a_spec(rt: HostRuntime) {
    let text = "setup { A } setup { B } setup { C } setup { D } setup { E } teardown { F }\n\
        session s1 setup { G } step a { H } step b { I } step c { J } step d { K } step e { L } teardown { M }\n\
        session s2 step f { N } session s3 step g { O } session s4 step h { P } session s5 step i { Q }\n\
        permutation a b(*, a, c, d, e) f g h i\npermutation c(*)\npermutation d\npermutation e\npermutation f(a, b)";
    match parse_spec(rt.alloc(), text) {
        Ok(spec) => holds(
            &rt,
            spec.setups.len() + spec.sessions.len() + spec.perms.len() == 15,
            "a spec",
        ),
        Err(fault) => holds(&rt, matches!(fault, SpecFault::Memory), "no spec"),
    }
}

#[test]
fn want_of_memory_for_a_refusal(rt: HostRuntime) {
    for (text, line) in [
        (
            "session s step a { } step b { } step a { }",
            "S2 DuplicateStep at byte 37",
        ),
        (
            "session s step a { } permutation a b",
            "S3 UndefinedStep at byte 35",
        ),
        (
            "session s step a { } permutation a(*, b)",
            "S4 UndefinedMarker at byte 38",
        ),
    ] {
        match parse_spec(rt.alloc(), text) {
            Ok(_) => holds(&rt, false, text),
            Err(SpecFault::Memory) => {}
            Err(fault) => holds(&rt, prints(rt.alloc(), &fault, line), line),
        }
    }
}
