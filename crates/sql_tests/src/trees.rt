//! Strings, words and statements that are one, and some that are not.

use crate::asked::{block_of, holds};
use iso_lexer::{At, Span, SqlTok};
use sql_equality::{same_stmt, same_stmts, same_text};
use sql_parser::Role;
use sql_trees::{Tok, Word, classified, word_of};
use std::alloc::{AllocError, Global};

// What stands between the quotes of two strings, and whether they are one.
const STRINGS: [(&str, &str, bool); 8] = [
    ("", "", true),
    ("it''s", "it''s", true),
    ("it''s", "it's", true),
    ("'a", "'b", false),
    ("''a", "'a", true),
    ("''''", "''", false),
    ("a'", "a", false),
    ("A", "a", false),
];

#[test]
fn strings_by_what_they_stand_for(rt: HostRuntime) {
    for (text, other, same) in STRINGS {
        holds(&rt, same_text(text, other) == same, text);
    }
}

// Whether the token has this keyword.
fn is_keyword(tok: SqlTok<'_>, word: Word, alloc: Global) -> Result<bool, AllocError> {
    let token = At {
        tok,
        span: Span { start: 0, end: 6 },
    };
    let all = classified(alloc, &[token])?;
    Ok(match all.first() {
        Some(found) => matches!(found.tok, Tok::Word(keyword, _) if keyword == word),
        None => false,
    })
}

#[test]
fn words_have_their_keywords(rt: HostRuntime) -> Result<(), AllocError> {
    let alloc = rt.alloc();
    holds(&rt, word_of("SeLeCt") == Word::Select, "SeLeCt");
    holds(
        &rt,
        is_keyword(SqlTok::Word("select"), Word::Select, alloc)?,
        "select",
    );
    holds(
        &rt,
        is_keyword(SqlTok::Word("selects"), Word::Plain, alloc)?,
        "selects",
    );
    holds(
        &rt,
        !is_keyword(SqlTok::Quoted("select"), Word::Select, alloc)?,
        "\"select\"",
    );
    Ok(())
}

// Whether the first statements are one, and whether all are.
fn are_first_and_all(
    alloc: Global,
    text: &str,
    other: &str,
    first: bool,
    all: bool,
) -> Result<bool, AllocError> {
    let Some(read) = block_of(alloc, Role::Main, text)? else {
        return Ok(false);
    };
    let Some(same) = block_of(alloc, Role::Session, other)? else {
        return Ok(false);
    };
    Ok(match (read.stmts(), same.stmts()) {
        ([a, ..], [b, ..]) => {
            same_stmt(a, b) == first && same_stmts(read.stmts(), same.stmts()) == all
        }
        _ => false,
    })
}

// Two blocks, whether their first statements are one, and whether all are.
const PAIRS: [(&str, &str, bool, bool); 4] = [
    (
        "SELECT max('it''s') FROM T",
        "select MAX('it''s') from \"t\"",
        true,
        true,
    ),
    ("SELECT max('its')", "SELECT max('it''s')", false, false),
    (
        "BEGIN; DELETE FROM T",
        "BEGIN; DELETE FROM \"T\"",
        true,
        false,
    ),
    ("BEGIN; DELETE FROM T", "BEGIN", true, false),
];

#[test]
fn statements_by_decoded_names(rt: HostRuntime) -> Result<(), AllocError> {
    for (text, other, first, all) in PAIRS {
        holds(
            &rt,
            are_first_and_all(rt.alloc(), text, other, first, all)?,
            text,
        );
    }
    Ok(())
}

// Whether blocks of one text in two places are two.
fn are_two_in_two_places(alloc: Global, text: &str) -> Result<bool, AllocError> {
    let Some(read) = block_of(alloc, Role::Session, text)? else {
        return Ok(false);
    };
    match block_of(alloc, Role::Main, text)? {
        Some(elsewhere) => Ok(!read.same(&elsewhere)),
        None => Ok(false),
    }
}

#[test]
fn a_block_stands_in_its_place(rt: HostRuntime) -> Result<(), AllocError> {
    let text = "SELECT a FROM t; COMMIT";
    holds(&rt, are_two_in_two_places(rt.alloc(), text)?, text);
    Ok(())
}
