//! The examples in the documentation of `iso_lexer` and `spec_parser`.

use crate::asking::holds;
use anyhow::bail;
use iso_lexer::spec_tokens;
use spec_parser::parse_spec;
use std::alloc::Global;

/// The byte at which the last token of a spec file begins.
fn last_token(alloc: Global, file: &str) -> anyhow::Result<usize> {
    let tokens = spec_tokens(alloc, file)?;
    let Some(last) = tokens.last() else {
        bail!("no tokens");
    };
    Ok(last.span.start)
}

/// The SQL of a spec file's first step.
fn first_step(alloc: Global, file: &str) -> anyhow::Result<&str> {
    let spec = parse_spec(alloc, file)?;
    let Some(session) = spec.sessions.first() else {
        bail!("no session");
    };
    let Some(step) = session.steps.first() else {
        bail!("no step");
    };
    Ok(step.part.sql)
}

const FILE: &str = "session s step a { SELECT 1; } step b { COMMIT; } permutation b a";

/// Whether the examples answer this, asked again where memory was refused.
fn answer(alloc: Global, file: &str, at: usize, sql: &str) -> bool {
    for _ in 0..2 {
        if let (Ok(last), Ok(first)) = (last_token(alloc, file), first_step(alloc, file)) {
            return last == at && first == sql;
        }
    }
    false
}

#[test]
fn the_examples_of_the_front(rt: HostRuntime) {
    holds(&rt, answer(rt.alloc(), FILE, 64, "SELECT 1;"), FILE);
}
