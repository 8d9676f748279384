//! How deep an expression and how long a block may be. What an example file shows stands there.

use crate::asked::{block_of, holds, is_refused};
use sql_parser::Role;
use std::alloc::{AllocError, Global};

// How many times the second and the fourth part stand, the parts, and how many statements the block has.
const READ: [(usize, [&str; 5], usize); 15] = [
    (300, ["COMMIT", "; ", "COMMIT", "", ""], 2),
    (64, ["SELECT ", "- ", "1", "", ""], 1),
    (64, ["INSERT INTO t VALUES (", "(", "2", ")", ")"], 1),
    (64, ["SELECT sum(", "(", "1", ")", ")"], 1),
    (63, ["SELECT 1 IN (", "(", "2", ")", ")"], 1),
    (32, ["SELECT ", "(", "1", ") IN (2)", ""], 1),
    (64, ["DELETE FROM t WHERE ", "NOT ", "TRUE", "", ""], 1),
    (64, ["INSERT INTO t VALUES (1), (", "+ ", "a", "", ")"], 1),
    (64, ["UPDATE t SET a = ", "(", "1", ")", " WHERE TRUE"], 1),
    (64, ["SELECT ", "", "1", "+1", ""], 1),
    (64, ["SELECT ", "", "a", " or a", ""], 1),
    (64, ["SELECT ", "", "a", " and a", ""], 1),
    (63, ["SELECT ", "( ", "a is null", " )", ""], 1),
    (256, ["", "COMMIT; ", "", "", ""], 256),
    (256, ["; ", "COMMIT; ", ";", "", " ; ;"], 256),
];

// How many times the second and the fourth part stand, the parts, and the fault.
const REFUSED: [(usize, [&str; 5], &str); 8] = [
    (
        256,
        ["", "COMMIT; ", "CREATE", "", ""],
        "Q4 TooMany at byte 2048",
    ),
    (65, ["SELECT ", "- ", "1", "", ""], "Q3 TooDeep at byte 135"),
    (
        64,
        ["SELECT 1 IN (", "(", "2", ")", ")"],
        "Q3 TooDeep at byte 76",
    ),
    (
        33,
        ["SELECT ", "(", "1", ") IN (2)", ""],
        "Q3 TooDeep at byte 7",
    ),
    (
        65,
        ["SELECT ", "", "1", " + 1", ""],
        "Q3 TooDeep at byte 265",
    ),
    (
        65,
        ["SELECT ", "", "a", " or a", ""],
        "Q3 TooDeep at byte 329",
    ),
    (
        64,
        ["SELECT ", "( ", "a is null", " )", ""],
        "Q3 TooDeep at byte 7",
    ),
    (
        64,
        ["SELECT ", "( ", "a in ( 1 )", " )", ""],
        "Q3 TooDeep at byte 140",
    ),
];

// A front, so many times an opening, a middle, as many times a close, and a back.
fn nested(alloc: Global, times: usize, parts: [&str; 5]) -> Result<String, AllocError> {
    let [front, open, middle, close, back] = parts;
    let mut text = String::new(alloc);
    text.push_str(front)?;
    for _ in 0..times {
        text.push_str(open)?;
    }
    text.push_str(middle)?;
    for _ in 0..times {
        text.push_str(close)?;
    }
    text.push_str(back)?;
    Ok(text)
}

// Whether the nested text is a block of so many statements.
fn is_block_of(
    alloc: Global,
    times: usize,
    parts: [&str; 5],
    stmts: usize,
) -> Result<bool, AllocError> {
    let text = nested(alloc, times, parts)?;
    match block_of(alloc, Role::Session, &text)? {
        Some(block) => Ok(block.stmts().len() == stmts),
        None => Ok(false),
    }
}

// Whether the nested text is refused with this fault.
fn is_no_block(
    alloc: Global,
    times: usize,
    parts: [&str; 5],
    fault: &str,
) -> Result<bool, AllocError> {
    let text = nested(alloc, times, parts)?;
    is_refused(alloc, Role::Session, &text, fault)
}

#[test]
fn depth_and_length(rt: HostRuntime) -> Result<(), AllocError> {
    for (times, parts, stmts) in READ {
        holds(&rt, is_block_of(rt.alloc(), times, parts, stmts)?, parts[2]);
    }
    for (times, parts, fault) in REFUSED {
        holds(&rt, is_no_block(rt.alloc(), times, parts, fault)?, fault);
    }
    Ok(())
}
