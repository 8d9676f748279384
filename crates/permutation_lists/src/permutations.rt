//! The permutations of a spec, one after the other.

ghost use Rattle.std.specs.Prelude.{◌≡◌, ◌≢◌, ◌<◌, ◌^◌, [], ◌∷◌, length, map, IfOk, OnErr};
ghost use Rattle.std.specs.Bool.{OnTrue, OnFalse};
ghost use Rattle.permutation_lists.specs.Interleavings.{interleavings};
ghost use Rattle.spec_parser.specs.Trees.{entry_view, spec_view};
ghost use Rattle.spec_parser.specs.Stands.{Stands};
ghost use Rattle.permutation_lists.specs.Permutations.{entries_of, permutations_of};

use crate::interleavings::Interleavings;
use crate::turns::{entries_of, step_counts};
use spec_parser::{Entry, Spec};
use std::alloc::{AllocError, Global};
use std::marker::Model;

/// What comes now, and what is still to come.
#[derive(Drop)]
enum Way<'s> {
    /// The permutation lines of the spec.
    Lines(&'s [Entry], &'s [Vec<Entry>]),
    /// The entries of an interleaving, with room for the turns of the next one.
    All(Vec<Entry>, Vec<u32>, Interleavings),
}

/// The permutations of a spec: the one that comes now, which is none at first, and those behind it.
#[derive(Drop)]
pub struct Permutations<'s> {
    way: Way<'s>,
}

impl<'s> Model for Permutations<'s> {
    ghost use Rattle.permutation_lists.specs.Permutations.{Coming};
    ghost use Rattle.permutation_lists.specs.Inner.Ways.{coming, AreShortLists};

    ghost Value = { Coming };

    ghost view = { λ p. coming p.way };

    ghost invariant = { λ p. AreShortLists p.way };
}

impl<'s> Permutations<'s> {
    /// The permutations of the spec, before the first.
    pub fn of(alloc: Global, spec: &'s Spec<'_>) -> Result<Permutations<'s>, AllocError>
        requires { Stands (spec_view spec.now) }
        ensures permutations { IfOk result (λ p. p ≡ record { here = []; more = permutations_of (spec_view spec.now) }) }
        // The lines of a spec are lent, and want none.
        ensures memory { OnErr result ((spec_view spec.now).perms ≡ []) }
    {
        let lines = spec.perms.as_slice();
        if lines.is_empty() {
            return Permutations::all(alloc, spec);
        }
        Ok(Permutations {
            way: Way::Lines(&[], lines),
        })
    }

    /// All interleavings of the spec's steps, before the first.
    fn all(alloc: Global, spec: &Spec<'_>) -> Result<Permutations<'s>, AllocError>
        requires { Stands (spec_view spec.now) }
        ensures { IfOk result (λ p. p ≡ record { here = []; more = map entries_of (interleavings (map (λ s. length s.steps) (spec_view spec.now).sessions)) }) }
    {
        let counts = step_counts(alloc, &spec.sessions)?;
        let lists = Interleavings::new(alloc, &counts)?;
        Ok(Permutations {
            way: Way::All(Vec::new(alloc), Vec::new(alloc), lists),
        })
    }

    /// The permutation that comes now.
    pub fn entries(&self) -> &[Entry]
        ensures { map entry_view result.now ≡ self.now.here }
    {
        match &self.way {
            Way::Lines(here, _) => here,
            Way::All(here, _, _) => here,
        }
    }

    /// Goes on to the next permutation, or answers false where there is none, and nothing has changed then. Where memory was
    /// refused, that one may be lost.
    pub fn advance(&mut self, alloc: Global) -> Result<bool, AllocError>
        ensures more { IfOk result (λ more. OnTrue more (self.old.more ≡ self.new.here ∷ self.new.more)) }
        ensures over { IfOk result (λ more. OnFalse more ((self.old.more ≡ []) × (self.new ≡ self.old))) }
        ensures memory { OnErr result (self.old.more ≢ []) }
    {
        match &mut self.way {
            Way::Lines(here, more) => {
                let Some((first, rest)) = more.split_first() else {
                    return Ok(false);
                };
                *here = first;
                *more = rest;
                Ok(true)
            }
            Way::All(here, turns, lists) => {
                if !lists.next(turns)? {
                    return Ok(false);
                }
                *here = entries_of(alloc, turns)?;
                Ok(true)
            }
        }
    }
}
