//! A spec file as it is read, before its names are looked up.

ghost use Rattle.std.specs.Prelude.{vec_len, ◌<◌, ◌^◌};

use crate::tree::Part;
use iso_lexer::Name;

/// A name, and the byte at which it stands.
#[derive(Clone, Copy)]
pub struct PlacedName<'a> {
    pub name: Name<'a>,
    pub at: usize,
}

#[derive(Clone, Copy)]
pub struct StepDraft<'a> {
    pub name: PlacedName<'a>,
    pub part: Part<'a>,
}

#[derive(Drop)]
pub struct SessionDraft<'a> {
    pub name: PlacedName<'a>,
    pub setup: Option<Part<'a>>,
    pub steps: Vec<StepDraft<'a>>,
    pub teardown: Option<Part<'a>>,
    ghost few: { vec_len steps < 2 ^ 32 },
}

#[derive(Clone, Copy)]
pub enum MarkerName<'a> {
    Star,
    Named(PlacedName<'a>),
}

#[derive(Drop)]
pub struct EntryName<'a> {
    pub name: PlacedName<'a>,
    pub markers: Vec<MarkerName<'a>>,
}

#[derive(Drop)]
pub struct FileDraft<'a> {
    pub setups: Vec<Part<'a>>,
    pub teardown: Option<Part<'a>>,
    pub sessions: Vec<SessionDraft<'a>>,
    pub perms: Vec<Vec<EntryName<'a>>>,
    ghost few: { vec_len sessions < 2 ^ 32 },
}
