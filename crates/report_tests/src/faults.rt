//! The lines of statements that fail, as PostgreSQL prints them. Those of faults of values stand in the example files.

use crate::histories::Part::{Fails, Out, To};
use crate::histories::holds;
use crate::texts::{ENDLESS, report};
use std::alloc::Global;
use std::test::Fail;

/// Whether a report of one step ends with this error and a newline.
fn is_error(out: &[u8], wanted: &str) -> bool {
    let front = b"\nstarting permutation: a\nstep a: SELECT 2\nERROR:  ";
    match out.strip_prefix(front) {
        Some(line) => match line.strip_suffix(b"\n") {
            Some(error) => error == wanted.as_bytes(),
            None => false,
        },
        None => false,
    }
}

/// The fault of this number prints this text.
fn prints(alloc: Global, number: usize, wanted: &str) -> Result<bool, Fail> {
    let parts = [To(1, 0), Fails(1, number), Out(1)];
    let text = "session s step a { SELECT 2 } permutation a";
    let run = report(alloc, text, &parts, ENDLESS)?;
    Ok(is_error(run.out.text(), wanted))
}

const TEXTS: [&str; 13] = [
    "column \"c\" of relation \"t\" does not exist",
    "relation \"t\" does not exist",
    "table \"t\" does not exist",
    "relation \"t\" already exists",
    "null value in column \"c\" of relation \"t\" violates not-null constraint",
    "duplicate key value violates unique constraint \"t_c_key\"",
    "INSERT has more expressions than target columns",
    "current transaction is aborted, commands ignored until end of transaction block",
    "SET TRANSACTION ISOLATION LEVEL must be called before any query",
    "ORDER BY position -3 is not in select list",
    "could not serialize access due to concurrent update",
    "deadlock detected",
    "could not obtain lock on row in relation \"t\"",
];

#[test]
fn faults_print_their_texts(rt: HostRuntime) -> Result<(), Fail> {
    for (number, text) in TEXTS.iter().enumerate() {
        holds(&rt, prints(rt.alloc(), number, text)?);
    }
    Ok(())
}
