//! Reads blocks, steps and sessions.

use crate::draft::{PlacedName, SessionDraft, StepDraft};
use crate::fault::{Halt, Stop, What};
use crate::reader::Reader;
use crate::tree::Part;
use iso_lexer::{Keyword, MOST_SESSIONS, MOST_STEPS};
use std::alloc::Global;

impl<'t, 'a> Reader<'t, 'a> {
    ghost use Rattle.std.specs.Prelude.{◌≢◌, ◌<◌, ◌^◌, Err, IfOk, vec_len, option_map, map};
    ghost use Rattle.iso_lexer.specs.declared.spec_token.Keyword.TheVariants.{Session, Step};
    ghost use Rattle.spec_parser.specs.Trees.{part_view, placed_view, draft_view, session_draft_view};
    ghost use Rattle.spec_parser.specs.Inner.Stopping.{name_within, block_after, step_at, session_at, all_at};
    ghost use Rattle.spec_parser.specs.Inner.Pieces.{setup_at, teardown_at, setups_at, steps_at, sessions_at, starts_word};
    ghost use Rattle.spec_parser.specs.Inner.Readers.{end_of, rest_of, Same, Gives};

    /// The name of a thing behind `before` others of its kind, of which there may be `most`.
    #[tactic(auto, unfolding(crate::specs::Inner::Stopping::name_within))]
    pub fn name_within(&mut self, before: usize, most: usize) -> Result<PlacedName<'a>, Halt>
        ensures same { Same self.old self.new }
        ensures reads { Gives (end_of self.old) (λ x. (placed_view x, rest_of self.new)) result (name_within before most (rest_of self.old)) }
        ensures calm { result ≢ Err Halt.Memory }
    {
        if before < most {
            self.name(What::Name)
        } else if self.starts_name() {
            Err(self.stop(Stop::OverLimit))
        } else {
            Err(self.stop(Stop::Expected(What::Name)))
        }
    }

    #[tactic(auto, unfolding(crate::specs::Inner::Stopping::block_after))]
    fn block_after(&mut self, word: Keyword) -> Result<Part<'a>, Halt>
        ensures same { Same self.old self.new }
        ensures reads { Gives (end_of self.old) (λ x. (part_view x, rest_of self.new)) result (block_after word (rest_of self.old)) }
        ensures calm { result ≢ Err Halt.Memory }
    {
        self.word(word, What::Item)?;
        self.block()
    }

    #[tactic(auto, unfolding(crate::specs::Inner::Stopping::maybe_block, crate::specs::Inner::Stopping::maybe_at))]
    fn setup(&mut self) -> Result<Option<Part<'a>>, Halt>
        ensures same { Same self.old self.new }
        ensures reads { Gives (end_of self.old) (λ x. (option_map part_view x, rest_of self.new)) result (setup_at (rest_of self.old)) }
        ensures calm { result ≢ Err Halt.Memory }
    {
        if !self.starts_word(Keyword::Setup) {
            return Ok(None);
        }
        let part = self.block_after(Keyword::Setup)?;
        Ok(Some(part))
    }

    #[tactic(auto, unfolding(crate::specs::Inner::Stopping::maybe_block, crate::specs::Inner::Stopping::maybe_at))]
    pub fn teardown(&mut self) -> Result<Option<Part<'a>>, Halt>
        ensures same { Same self.old self.new }
        ensures reads { Gives (end_of self.old) (λ x. (option_map part_view x, rest_of self.new)) result (teardown_at (rest_of self.old)) }
        ensures calm { result ≢ Err Halt.Memory }
    {
        if !self.starts_word(Keyword::Teardown) {
            return Ok(None);
        }
        let part = self.block_after(Keyword::Teardown)?;
        Ok(Some(part))
    }

    #[tactic(auto, unfolding(crate::specs::Inner::Stopping::all_at))]
    pub fn setups(&mut self, alloc: Global) -> Result<Vec<Part<'a>>, Halt>
        ensures same { Same self.old self.new }
        ensures reads { Gives (end_of self.old) (λ x. (map part_view x.items, rest_of self.new)) result (setups_at (rest_of self.old)) }
    {
        let mut items = Vec::new(alloc);
        while self.starts_word(Keyword::Setup) {
            let item = self.block_after(Keyword::Setup)?;
            items.push(item)?;
        }
        Ok(items)
    }

    #[tactic(auto, unfolding(crate::specs::Inner::Stopping::step_at))]
    fn step(&mut self) -> Result<StepDraft<'a>, Halt>
        ensures same { Same self.old self.new }
        ensures reads { Gives (end_of self.old) (λ x. (draft_view x, rest_of self.new)) result (step_at (rest_of self.old)) }
        ensures calm { result ≢ Err Halt.Memory }
    {
        let before = self.steps_so_far();
        self.word(Keyword::Step, What::Item)?;
        let name = self.name_within(before, MOST_STEPS)?;
        let part = self.block()?;
        Ok(StepDraft { name, part })
    }

    #[tactic(auto, unfolding(crate::specs::Inner::Stopping::some_at))]
    fn steps(&mut self, alloc: Global) -> Result<Vec<StepDraft<'a>>, Halt>
        ensures same { Same self.old self.new }
        ensures few { IfOk result (λ x. vec_len x < 2 ^ 32) }
        ensures reads { Gives (end_of self.old) (λ x. (map draft_view x.items, rest_of self.new)) result (steps_at (rest_of self.old)) }
    {
        if !self.starts_word(Keyword::Step) {
            return Err(self.stop(Stop::Expected(What::Step)));
        }
        self.each_step(alloc)
    }

    #[tactic(auto, unfolding(crate::specs::Inner::Stopping::all_at))]
    fn each_step(&mut self, alloc: Global) -> Result<Vec<StepDraft<'a>>, Halt>
        ensures same { Same self.old self.new }
        ensures few { IfOk result (λ x. vec_len x < 2 ^ 32) }
        ensures reads { Gives (end_of self.old) (λ x. (map draft_view x.items, rest_of self.new)) result (all_at (starts_word Step) (λ k. step_at) (rest_of self.old)) }
    {
        let mut items = Vec::new(alloc);
        while self.starts_word(Keyword::Step) {
            let item = self.step()?;
            items.push(item)?;
        }
        Ok(items)
    }

    #[tactic(auto, unfolding(crate::specs::Inner::Stopping::session_at, crate::specs::Inner::Stopping::some_at, crate::specs::Inner::Stopping::all_at, crate::specs::Inner::Stopping::many_at))]
    fn session(&mut self, alloc: Global) -> Result<SessionDraft<'a>, Halt>
        ensures same { Same self.old self.new }
        ensures reads { Gives (end_of self.old) (λ x. (session_draft_view x, rest_of self.new)) result (session_at (rest_of self.old)) }
    {
        let before = self.sessions_so_far();
        self.word(Keyword::Session, What::Item)?;
        let name = self.name_within(before, MOST_SESSIONS)?;
        let setup = self.setup()?;
        let steps = self.steps(alloc)?;
        let teardown = self.teardown()?;
        Ok(SessionDraft {
            name,
            setup,
            steps,
            teardown,
        })
    }

    #[tactic(auto, unfolding(crate::specs::Inner::Stopping::some_at))]
    pub fn sessions(&mut self, alloc: Global) -> Result<Vec<SessionDraft<'a>>, Halt>
        ensures same { Same self.old self.new }
        ensures few { IfOk result (λ x. vec_len x < 2 ^ 32) }
        ensures reads { Gives (end_of self.old) (λ x. (map session_draft_view x.items, rest_of self.new)) result (sessions_at (rest_of self.old)) }
    {
        if !self.starts_word(Keyword::Session) {
            return Err(self.stop(Stop::Expected(What::Session)));
        }
        self.each_session(alloc)
    }

    #[tactic(auto, unfolding(crate::specs::Inner::Stopping::all_at))]
    fn each_session(&mut self, alloc: Global) -> Result<Vec<SessionDraft<'a>>, Halt>
        ensures same { Same self.old self.new }
        ensures few { IfOk result (λ x. vec_len x < 2 ^ 32) }
        ensures reads { Gives (end_of self.old) (λ x. (map session_draft_view x.items, rest_of self.new)) result (all_at (starts_word Session) (λ k. session_at) (rest_of self.old)) }
    {
        let mut items = Vec::new(alloc);
        while self.starts_word(Keyword::Session) {
            let item = self.session(alloc)?;
            items.push(item)?;
        }
        Ok(items)
    }
}
