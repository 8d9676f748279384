//! The tokens of worked SQL texts, and their faults.

use crate::asking::holds;
use crate::rows::{InWords, Row, are_tokens};
use iso_lexer::{At, FaultKind, LexFault, SqlSign, SqlTok, sql_tokens};
use std::alloc::Global;
use std::test::Fail;

impl<'a> InWords for SqlTok<'a> {
    fn kind(&self) -> &'static str {
        match self {
            SqlTok::Word(_) => "word",
            SqlTok::Quoted(_) => "quoted",
            SqlTok::Text(_) => "string",
            SqlTok::Number(_) => "number",
            SqlTok::Sign(_) => "sign",
        }
    }

    fn text(&self) -> &str {
        match self {
            SqlTok::Word(text) | SqlTok::Quoted(text) | SqlTok::Text(text) => *text,
            SqlTok::Number(_) | SqlTok::Sign(_) => "",
        }
    }
}

/// Asked again where memory was refused.
fn tokens_of(alloc: Global, text: &str) -> Result<Vec<At<SqlTok<'_>>>, LexFault> {
    match sql_tokens(alloc, text) {
        Err(LexFault::Memory) => sql_tokens(alloc, text),
        answer => answer,
    }
}

const SELECT: [Row; 7] = [
    ("word", "SELECT", 0, 6),
    ("quoted", "a\nb", 7, 12),
    ("sign", "", 12, 13),
    ("string", "Dianne''s horse", 14, 31),
    ("word", "FROM", 55, 59),
    ("word", "t$1", 60, 63),
    ("sign", "", 63, 64),
];

#[test]
fn a_select_has_its_words_names_and_strings(rt: HostRuntime) {
    let text = "SELECT \"a\nb\", 'Dianne''s horse' -- till the line's end\nFROM t$1;";
    match tokens_of(rt.alloc(), text) {
        Ok(tokens) => are_tokens(&rt, text, &tokens, &SELECT),
        Err(_) => holds(&rt, false, text),
    }
}

/// The text is this one sign.
fn is_sign(alloc: Global, text: &str, sign: SqlSign) -> bool {
    let Ok(tokens) = tokens_of(alloc, text) else {
        return false;
    };
    tokens.len() == 1 && matches!(tokens[0].tok, SqlTok::Sign(s) if s == sign)
}

const SIGNS: [(&str, SqlSign); 19] = [
    ("<>", SqlSign::NotEqual),
    ("!=", SqlSign::NotEqual),
    ("<=", SqlSign::AtMost),
    (">=", SqlSign::AtLeast),
    ("||", SqlSign::Concat),
    ("::", SqlSign::Cast),
    ("(", SqlSign::Open),
    (")", SqlSign::Close),
    (",", SqlSign::Comma),
    (";", SqlSign::Semicolon),
    ("+", SqlSign::Plus),
    ("-", SqlSign::Minus),
    ("*", SqlSign::Star),
    ("/", SqlSign::Slash),
    ("%", SqlSign::Percent),
    ("=", SqlSign::Equal),
    ("<", SqlSign::Less),
    (">", SqlSign::Greater),
    (".", SqlSign::Dot),
];

#[test]
fn signs_are_taken_whole(rt: HostRuntime) {
    for (text, sign) in &SIGNS {
        holds(&rt, is_sign(rt.alloc(), *text, *sign), *text);
    }
}

/// The one token of the text is this number.
fn is_number(alloc: Global, text: &str, number: u64) -> bool {
    let Ok(tokens) = tokens_of(alloc, text) else {
        return false;
    };
    tokens.len() == 1 && matches!(tokens[0].tok, SqlTok::Number(n) if n == number)
}

#[test]
fn comments_in_comments_are_passed_over(rt: HostRuntime) {
    let text =
        "/* multiline comment\n * with nesting: /* nested block comment */\n */ 9223372036854775807";
    let number = is_number(rt.alloc(), text, 9_223_372_036_854_775_807);
    holds(&rt, number, text);
}

fn is_fault(alloc: Global, text: &str, kind: FaultKind, at: usize) -> bool {
    matches!(tokens_of(alloc, text), Err(LexFault::Fault(fault)) if fault.kind == kind && fault.at == at)
}

const FAULTS: [(&str, FaultKind, usize); 11] = [
    ("SELECT \"a", FaultKind::UnterminatedName, 7),
    ("SELECT 'it''s", FaultKind::UnterminatedString, 7),
    ("SELECT 1 /* a /* b */", FaultKind::UnterminatedComment, 9),
    ("1 + 9223372036854775808", FaultKind::NumberTooLarge, 4),
    ("9223372036854775808a", FaultKind::NumberTooLarge, 0),
    ("12a", FaultKind::UnexpectedByte, 2),
    ("1$", FaultKind::UnexpectedByte, 1),
    ("1\u{e9}", FaultKind::UnexpectedByte, 1),
    ("a | b", FaultKind::UnexpectedByte, 2),
    ("a !", FaultKind::UnexpectedByte, 2),
    ("$1", FaultKind::UnexpectedByte, 0),
];

#[test]
fn faults_of_sql_stand_at_their_byte(rt: HostRuntime) {
    for (text, kind, at) in &FAULTS {
        holds(&rt, is_fault(rt.alloc(), *text, *kind, *at), *text);
    }
}

#[test]
fn a_thousand_comments_are_open(rt: HostRuntime) -> Result<(), Fail> {
    let deep = "/*".repeat(rt.alloc(), 1000)?;
    holds(
        &rt,
        is_fault(rt.alloc(), deep.as_str(), FaultKind::UnterminatedComment, 0),
        "the outermost opening",
    );
    Ok(())
}
