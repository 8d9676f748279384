//! What the tests ask, and of what.

use iso_lexer::{FromStd, Source};
use permutations::{serve, serve_at_terminal};
use std::alloc::{AllocError, Global};
use std::process::Abort;
use std::sync::Wait;
use std::thread::Threads;
use test_devices::Takes;

/// Fails the test where the claim is false; `of` says which case it is.
pub fn holds(rt: &impl Abort, claim: bool, of: &str) {
    assert!(rt; claim, "{of}");
}

/// The program's name, and these words behind it.
pub fn words_of(alloc: Global, words: &[&str]) -> Result<Vec<String>, AllocError> {
    let mut all = Vec::new(alloc);
    all.push(String::from_str(alloc, "isolationtester")?)?;
    for word in words {
        all.push(String::from_str(alloc, word)?)?;
    }
    Ok(all)
}

/// How a run of the program ended, and what its output and its errors took.
#[derive(Drop)]
pub struct Ran {
    pub status: u8,
    pub out: Takes,
    pub err: Takes,
}

/// A thread's start takes memory too, and one that is refused is told as such.
fn tells_of_memory(err: &[u8]) -> bool {
    err.ends_with(b"isolationtester: Memory\n".as_slice())
        || err.ends_with(b"isolationtester: R10 Threads\n".as_slice())
}

/// Where the program tells that memory was refused, that is the answer.
fn ended(status: u8, out: Takes, err: Takes) -> Result<Ran, AllocError> {
    if tells_of_memory(err.text()) {
        return Err(AllocError);
    }
    Ok(Ran { status, out, err })
}

/// A run of the program whose output and errors take so many puts.
pub fn served<S: Source, R: Threads + Wait + Sync>(
    rt: &R,
    alloc: Global,
    words: &[&str],
    input: &mut S,
    puts: (usize, usize),
) -> Result<Ran, AllocError> {
    let words = words_of(alloc, words)?;
    let mut out = Takes::new(puts.0);
    let mut err = Takes::new(puts.1);
    let status = serve(rt, alloc, words.as_slice(), input, &mut out, &mut err);
    ended(status, out, err)
}

/// A run of the program without words: its status, and all that it put out.
pub fn served_whole<S: Source, R: Threads + Wait + Sync>(
    rt: &R,
    alloc: Global,
    input: &mut S,
) -> Result<(u8, Vec<u8>), AllocError> {
    let words = words_of(alloc, &[])?;
    let mut out = Vec::new(alloc);
    let mut sink = FromStd::new(&mut out);
    let mut err = Takes::new(usize::MAX);
    let status = serve(rt, alloc, words.as_slice(), input, &mut sink, &mut err);
    if tells_of_memory(err.text()) {
        return Err(AllocError);
    }
    Ok((status, out))
}

/// A run of the program at a terminal, which is its input too where that is typed.
pub fn served_there<S: Source, R: Threads + Wait + Sync>(
    rt: &R,
    alloc: Global,
    words: &[&str],
    input: &mut S,
    typed: bool,
    puts: (usize, usize),
) -> Result<Ran, AllocError> {
    let words = words_of(alloc, words)?;
    let mut out = Takes::new(puts.0);
    let mut err = Takes::new(puts.1);
    let status = serve_at_terminal(
        rt,
        alloc,
        words.as_slice(),
        input,
        typed,
        &mut out,
        &mut err,
    );
    ended(status, out, err)
}

/// Neither the output nor the errors fail.
pub const ENDLESS: (usize, usize) = (usize::MAX, usize::MAX);

/// The run ended with this status, behind this text and these errors.
pub fn ends(rt: &impl Abort, run: &Ran, status: u8, text: &str, line: &str) {
    holds(rt, run.status == status, "the status");
    holds(rt, run.out.text() == text.as_bytes(), text);
    holds(rt, run.err.text() == line.as_bytes(), line);
}
