//! Reads permutations.

use crate::draft::{EntryName, MarkerName, PlacedName};
use crate::fault::{Halt, Stop, What};
use crate::reader::Reader;
use iso_lexer::{Keyword, MOST_ENTRIES, Sign};
use std::alloc::Global;

impl<'t, 'a> Reader<'t, 'a> {
    ghost use Rattle.std.specs.Prelude.{◌≢◌, Err, option_map, map};
    ghost use Rattle.spec_parser.specs.Trees.{placed_view, marker_view, entry_name_view, perm_names_view};
    ghost use Rattle.spec_parser.specs.Inner.Stopping.{no_notices, marker_at, markers_at, entry_at, perm_at, all_at};
    ghost use Rattle.spec_parser.specs.Inner.Pieces.{next_marker_at, next_markers_at, entries_at, perms_at, starts_name};
    ghost use Rattle.spec_parser.specs.Inner.Readers.{end_of, rest_of, Same, Gives, behind};

    #[tactic(auto, unfolding(crate::specs::Inner::Stopping::no_notices))]
    fn no_notices(&self, name: PlacedName<'a>) -> Result<MarkerName<'a>, Halt>
        ensures reads { Gives (end_of self.now) (λ x. (marker_view x, rest_of self.now)) result (no_notices (placed_view name.entry) (rest_of self.now)) }
        ensures calm { result ≢ Err Halt.Memory }
    {
        if self.starts_word(Keyword::Notices) {
            return Err(self.stop(Stop::NoticesLeftOut));
        }
        Ok(MarkerName::Named(name))
    }

    #[tactic(auto, unfolding(crate::specs::Inner::Stopping::marker_at))]
    fn marker(&mut self) -> Result<MarkerName<'a>, Halt>
        ensures same { Same self.old self.new }
        ensures reads { Gives (end_of self.old) (λ x. (marker_view x, rest_of self.new)) result (marker_at (rest_of self.old)) }
        ensures calm { result ≢ Err Halt.Memory }
    {
        if self.starts_sign(Sign::Star) {
            self.sign(Sign::Star, What::Marker)?;
            return Ok(MarkerName::Star);
        }
        let name = self.name(What::Marker)?;
        self.no_notices(name)
    }

    fn next_marker(&mut self) -> Result<MarkerName<'a>, Halt>
        ensures same { Same self.old self.new }
        ensures reads { Gives (end_of self.old) (λ x. (marker_view x, rest_of self.new)) result (next_marker_at (rest_of self.old)) }
        ensures calm { result ≢ Err Halt.Memory }
    {
        self.sign(Sign::Comma, What::CommaOrClose)?;
        self.marker()
    }

    /// The markers from here on, behind the first.
    #[tactic(auto, unfolding(crate::specs::Inner::Stopping::all_at))]
    fn next_markers(&mut self, mut items: Vec<MarkerName<'a>>) -> Result<Vec<MarkerName<'a>>, Halt>
        ensures same { Same self.old self.new }
        ensures reads { Gives (end_of self.old) (λ x. (map marker_view x.items, rest_of self.new)) result (behind (map marker_view items.entry.items) (next_markers_at (rest_of self.old))) }
    {
        while self.starts_sign(Sign::Comma) {
            let item = self.next_marker()?;
            items.push(item)?;
        }
        Ok(items)
    }

    #[tactic(auto, unfolding(crate::specs::Inner::Stopping::markers_at, crate::specs::Inner::Stopping::all_at, crate::specs::Inner::Stopping::many_at, crate::specs::Inner::Stopping::next_token))]
    fn markers(&mut self, alloc: Global) -> Result<Vec<MarkerName<'a>>, Halt>
        ensures same { Same self.old self.new }
        ensures reads { Gives (end_of self.old) (λ x. (map marker_view x.items, rest_of self.new)) result (markers_at (rest_of self.old)) }
    {
        self.sign(Sign::Open, What::Item)?;
        let first = self.marker()?;
        let mut markers = Vec::new(alloc);
        markers.push(first)?;
        let markers = self.next_markers(markers)?;
        self.sign(Sign::Close, What::CommaOrClose)?;
        Ok(markers)
    }

    #[tactic(auto, unfolding(crate::specs::Inner::Stopping::entry_at, crate::specs::Inner::Stopping::maybe_at))]
    fn entry(&mut self, alloc: Global, before: usize) -> Result<EntryName<'a>, Halt>
        ensures same { Same self.old self.new }
        ensures reads { Gives (end_of self.old) (λ x. (entry_name_view x, rest_of self.new)) result (entry_at before (rest_of self.old)) }
    {
        let name = self.name_within(before, MOST_ENTRIES)?;
        let markers = if self.starts_sign(Sign::Open) {
            self.markers(alloc)?
        } else {
            Vec::new(alloc)
        };
        Ok(EntryName { name, markers })
    }

    #[tactic(auto, unfolding(crate::specs::Inner::Stopping::some_at))]
    fn entries(&mut self, alloc: Global) -> Result<Vec<EntryName<'a>>, Halt>
        ensures same { Same self.old self.new }
        ensures reads { Gives (end_of self.old) (λ x. (perm_names_view x, rest_of self.new)) result (entries_at (rest_of self.old)) }
    {
        if !self.starts_name() {
            return Err(self.stop(Stop::Expected(What::Name)));
        }
        self.each_entry(alloc)
    }

    #[tactic(auto, unfolding(crate::specs::Inner::Stopping::all_at))]
    fn each_entry(&mut self, alloc: Global) -> Result<Vec<EntryName<'a>>, Halt>
        ensures same { Same self.old self.new }
        ensures reads { Gives (end_of self.old) (λ x. (perm_names_view x, rest_of self.new)) result (all_at starts_name entry_at (rest_of self.old)) }
    {
        let mut items = Vec::new(alloc);
        while self.starts_name() {
            let item = self.entry(alloc, items.len())?;
            items.push(item)?;
        }
        Ok(items)
    }

    #[tactic(auto, unfolding(crate::specs::Inner::Stopping::perm_at))]
    fn perm(&mut self, alloc: Global) -> Result<Vec<EntryName<'a>>, Halt>
        ensures same { Same self.old self.new }
        ensures reads { Gives (end_of self.old) (λ x. (perm_names_view x, rest_of self.new)) result (perm_at (rest_of self.old)) }
    {
        self.word(Keyword::Permutation, What::Item)?;
        self.entries(alloc)
    }

    #[tactic(auto, unfolding(crate::specs::Inner::Stopping::all_at))]
    pub fn perms(&mut self, alloc: Global) -> Result<Vec<Vec<EntryName<'a>>>, Halt>
        ensures same { Same self.old self.new }
        ensures reads { Gives (end_of self.old) (λ x. (map perm_names_view x.items, rest_of self.new)) result (perms_at (rest_of self.old)) }
    {
        let mut items = Vec::new(alloc);
        while self.starts_word(Keyword::Permutation) {
            let item = self.perm(alloc)?;
            items.push(item)?;
        }
        Ok(items)
    }
}
