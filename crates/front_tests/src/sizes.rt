//! With ample memory none is wanting, however much a text lists. Each case is asked again where an allocation was refused.

use crate::asking::holds;
use iso_lexer::{FromStd, Name, Page, read_all, spec_tokens, sql_tokens};
use spec_parser::{Entry, SessionPart, Spec, parse_spec};
use std::alloc::{AllocError, Global};

const SIZES: [usize; 8] = [0, 1, 5, 9, 41, 101, 1001, 5001];

/// A text that lists: what stands before the list, before and behind the number of each of its parts, and behind the list.
type Parts = [&'static str; 4];

fn text_of(alloc: Global, parts: Parts, size: usize) -> Result<String, AllocError> {
    let [front, before, behind, back] = parts;
    let mut text = String::new(alloc);
    text.push_str(front)?;
    for number in 0..size {
        let part = format!(in alloc; "{before}{number}{behind}")?;
        text.push_str(part.as_str())?;
    }
    text.push_str(back)?;
    Ok(text)
}

#[derive(Clone, Copy)]
enum Tokens {
    OfSpecs,
    OfSql,
}

/// How many tokens the text has, if memory is left.
fn tokens_in(alloc: Global, of: Tokens, text: &str) -> Option<usize> {
    match of {
        Tokens::OfSpecs => Some(spec_tokens(alloc, text).ok()?.len()),
        Tokens::OfSql => Some(sql_tokens(alloc, text).ok()?.len()),
    }
}

fn has_tokens(alloc: Global, of: Tokens, parts: Parts, size: usize) -> bool {
    match text_of(alloc, parts, size) {
        Ok(text) => matches!(tokens_in(alloc, of, text.as_str()), Some(count) if count == size),
        Err(_) => false,
    }
}

const OF_TOKENS: [(Tokens, Parts); 7] = [
    (Tokens::OfSpecs, ["", "a", " ", ""]),
    (Tokens::OfSpecs, ["", "{ ", " }", "# end"]),
    (Tokens::OfSpecs, ["", "\"", "\" ", ""]),
    (Tokens::OfSql, ["", "a", " ", ""]),
    (Tokens::OfSql, ["", " ", " ", ""]),
    (Tokens::OfSql, ["", "'", "' ", "-- end"]),
    (Tokens::OfSql, ["", "\"", "\"/* \n */", ""]),
];

#[test]
fn tokens_of_each_size(rt: HostRuntime) {
    for (of, parts) in OF_TOKENS {
        for size in SIZES {
            let told = has_tokens(rt.alloc(), of, parts, size)
                || has_tokens(rt.alloc(), of, parts, size);
            holds(&rt, told, parts[1]);
        }
    }
}

/// What a spec file lists.
#[derive(Clone, Copy)]
enum Listed {
    Setups,
    Sessions,
    Steps,
    Permutations,
    Entries,
    Markers,
}

fn steps_of(sessions: &[SessionPart<'_>]) -> usize {
    match sessions {
        [first, ..] => first.steps.len(),
        [] => 0,
    }
}

fn entries_of(perms: &[Vec<Entry>]) -> usize {
    match perms {
        [first, ..] => first.len(),
        [] => 0,
    }
}

fn markers_of(perms: &[Vec<Entry>]) -> usize {
    let [first, ..] = perms else {
        return 0;
    };
    match first.as_slice() {
        [entry, ..] => entry.markers.len(),
        [] => 0,
    }
}

/// How many of them there are: of steps those of the first session, of entries and markers those of the first permutation and
/// entry.
fn count_in(listed: Listed, spec: &Spec<'_>) -> usize {
    match listed {
        Listed::Setups => spec.setups.len(),
        Listed::Sessions => spec.sessions.len(),
        Listed::Steps => steps_of(spec.sessions.as_slice()),
        Listed::Permutations => spec.perms.len(),
        Listed::Entries => entries_of(spec.perms.as_slice()),
        Listed::Markers => markers_of(spec.perms.as_slice()),
    }
}

fn is_listed(alloc: Global, listed: Listed, parts: Parts, count: usize, size: usize) -> bool {
    let Ok(text) = text_of(alloc, parts, size) else {
        return false;
    };
    match parse_spec(alloc, text.as_str()) {
        Ok(spec) => count_in(listed, &spec) == count,
        Err(_) => false,
    }
}

// What is listed, how often outside the numbered parts, the most numbered parts that the limits allow, and the text.
const OF_SPECS: [(Listed, usize, usize, Parts); 7] = [
    (
        Listed::Setups,
        0,
        5001,
        ["", "setup { ", " } ", "session s step a { }"],
    ),
    (
        Listed::Sessions,
        1,
        63,
        ["session s step a { } ", "session s step b", " { } ", ""],
    ),
    (
        Listed::Steps,
        1,
        999,
        ["session s step a { } ", "step b", " { } ", ""],
    ),
    (
        Listed::Permutations,
        0,
        5001,
        ["session s step a { } ", "permutation a # ", "\n", ""],
    ),
    (
        Listed::Entries,
        1,
        999,
        ["session s step a { } permutation a ", "a # ", "\n", ""],
    ),
    (
        Listed::Markers,
        1,
        5001,
        ["session s step a { } permutation a(*", ", a # ", "\n", ")"],
    ),
    (
        Listed::Markers,
        1,
        5001,
        ["session s step a { } permutation a(a", ", * # ", "\n", ")"],
    ),
];

#[test]
fn specs_of_each_size(rt: HostRuntime) {
    for (listed, more, most, parts) in OF_SPECS {
        for size in SIZES {
            if size > most {
                continue;
            }
            let told = is_listed(rt.alloc(), listed, parts, size + more, size)
                || is_listed(rt.alloc(), listed, parts, size + more, size);
            holds(&rt, told, parts[1]);
        }
    }
}

/// So many bytes are read, pushed and put as they are.
fn are_kept(alloc: Global, size: usize) -> Option<bool> {
    let text = "x".repeat(alloc, size).ok()?;
    let bytes = read_all(alloc, &mut FromStd::new(text.as_bytes()), 5001).ok()?;
    let mut page = Page::new(alloc);
    page.push(&bytes).ok()?;
    Some(bytes.len() == size && page.bytes() == text.as_bytes())
}

/// A name of so many bytes stands for as many.
fn stands_for_itself(alloc: Global, size: usize) -> Option<bool> {
    let text = "x".repeat(alloc, size).ok()?;
    let plain = Name::Plain(text.as_str())
        .push_to(alloc, Vec::new(alloc))
        .ok()?;
    let quoted = Name::Quoted(text.as_str()).push_to(alloc, plain).ok()?;
    let all = Name::Folded(text.as_str()).push_to(alloc, quoted).ok()?;
    Some(all.len() / 3 == size)
}

#[test]
fn bytes_of_each_size(rt: HostRuntime) {
    for size in SIZES {
        let kept = are_kept(rt.alloc(), size).or(are_kept(rt.alloc(), size));
        holds(&rt, kept == Some(true), "bytes");
        let named = stands_for_itself(rt.alloc(), size).or(stands_for_itself(rt.alloc(), size));
        holds(&rt, named == Some(true), "a name");
    }
}
