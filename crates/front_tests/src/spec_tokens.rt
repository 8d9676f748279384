//! The tokens of worked spec files.

use crate::asking::holds;
use crate::rows::{InWords, Row, are_tokens};
use iso_lexer::{At, Keyword, LexFault, Name, Sign, SpecTok, spec_tokens};
use std::alloc::Global;
use std::process::Abort;

fn word_of(keyword: Keyword) -> &'static str {
    match keyword {
        Keyword::Permutation => "permutation",
        Keyword::Session => "session",
        Keyword::Setup => "setup",
        Keyword::Step => "step",
        Keyword::Teardown => "teardown",
        Keyword::Notices => "notices",
    }
}

fn byte_of(sign: Sign) -> &'static str {
    match sign {
        Sign::Open => "(",
        Sign::Close => ")",
        Sign::Comma => ",",
        Sign::Star => "*",
    }
}

impl<'a> InWords for SpecTok<'a> {
    fn kind(&self) -> &'static str {
        match self {
            SpecTok::Keyword(keyword) => word_of(*keyword),
            SpecTok::Name(Name::Plain(_)) => "plain",
            SpecTok::Name(Name::Quoted(_)) => "quoted",
            SpecTok::Name(Name::Folded(_)) => "folded",
            SpecTok::Digits(_) => "digits",
            SpecTok::Sign(sign) => byte_of(*sign),
            SpecTok::Block { .. } => "block",
        }
    }

    fn text(&self) -> &str {
        match self {
            SpecTok::Name(Name::Plain(text) | Name::Quoted(text) | Name::Folded(text)) => *text,
            SpecTok::Digits(text) => *text,
            SpecTok::Block { sql, .. } => *sql,
            SpecTok::Keyword(_) | SpecTok::Sign(_) => "",
        }
    }
}

/// Asked again where memory was refused.
fn tokens_of(alloc: Global, text: &str) -> Result<Vec<At<SpecTok<'_>>>, LexFault> {
    match spec_tokens(alloc, text) {
        Err(LexFault::Memory) => spec_tokens(alloc, text),
        answer => answer,
    }
}

fn tokens_are(rt: &impl Abort, alloc: Global, text: &str, rows: &[Row]) {
    match tokens_of(alloc, text) {
        Ok(tokens) => are_tokens(rt, text, &tokens, rows),
        Err(_) => holds(rt, false, text),
    }
}

const STEP: [Row; 5] = [
    ("session", "", 0, 7),
    ("quoted", "a\"\"b", 8, 14),
    ("step", "", 15, 19),
    ("plain", "\u{e9}$", 20, 23),
    ("block", "SELECT 1;", 24, 38),
];

#[test]
fn a_step_has_five_tokens(rt: HostRuntime) {
    let text = "session \"a\"\"b\" step \u{e9}$ {  SELECT 1; } # end\n";
    tokens_are(&rt, rt.alloc(), text, &STEP);
}

const MARKS: [Row; 11] = [
    ("permutation", "", 0, 11),
    ("plain", "FOO", 12, 15),
    ("(", "", 15, 16),
    ("*", "", 16, 17),
    (",", "", 17, 18),
    ("plain", "b", 18, 19),
    ("notices", "", 20, 27),
    ("digits", "12", 28, 30),
    (")", "", 30, 31),
    ("setup", "", 31, 36),
    ("teardown", "", 37, 45),
];

#[test]
fn marks_digits_and_words_are_tokens(rt: HostRuntime) {
    let text = "permutation FOO(*,b notices 12)setup teardown";
    tokens_are(&rt, rt.alloc(), text, &MARKS);
}
