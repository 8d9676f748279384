//! What a spec file says.

use iso_lexer::Name;

/// A block of SQL: its text, the byte of the file at which that begins, and its number, from 0 in file order.
#[derive(Clone, Copy)]
pub struct Part<'a> {
    pub sql: &'a str,
    pub at: usize,
    pub block: u32,
}

#[derive(Clone, Copy)]
pub struct StepPart<'a> {
    pub name: Name<'a>,
    pub part: Part<'a>,
}

#[derive(Drop)]
pub struct SessionPart<'a> {
    pub name: Name<'a>,
    pub setup: Option<Part<'a>>,
    pub steps: Vec<StepPart<'a>>,
    pub teardown: Option<Part<'a>>,
}

/// What holds back the report of a step: `*`, or another step.
#[derive(Clone, Copy)]
pub enum Marker {
    Star,
    Step { session: u32, step: u32 },
}

/// A step of a permutation. Sessions are numbered from 1, steps from 0 within their session.
#[derive(Drop)]
pub struct Entry {
    pub session: u32,
    pub step: u32,
    pub markers: Vec<Marker>,
}

pub struct Spec<'a> {
    pub setups: Vec<Part<'a>>,
    pub teardown: Option<Part<'a>>,
    pub sessions: Vec<SessionPart<'a>>,
    pub perms: Vec<Vec<Entry>>,
}

/// Written out, so that a crate that drops one calls this, and needn't prove anew how each of its parts is dropped.
impl<'a> Drop for Spec<'a> {
    fn drop(self) {
        let Spec {
            setups: _,
            teardown: _,
            sessions: _,
            perms: _,
        } = self;
    }
}
