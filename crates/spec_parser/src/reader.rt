//! Tokens, read from left to right.

ghost use Rattle.std.specs.Prelude.{◌^◌, ◌<◌, ◌≤◌, length};
ghost use Rattle.spec_parser.specs.Inner.Places.{FitsAll};

use crate::draft::PlacedName;
use crate::fault::{Halt, Stop, What};
use crate::tree::Part;
use iso_lexer::{At, Keyword, Sign, SpecTok};

/// Tokens of a file of `end` bytes, read from `at` on, and how many blocks, words `session` and words `step` stand before.
#[derive(Drop)]
pub struct Reader<'t, 'a> {
    tokens: &'t [At<SpecTok<'a>>],
    at: usize,
    end: usize,
    blocks: u32,
    sessions: usize,
    steps: usize,
    ghost few: { length tokens.now < 2 ^ 32 },
    ghost fits: { FitsAll tokens.now },
    ghost within: { at ≤ length tokens.now },
    ghost fewer_blocks: { blocks ≤ at },
    ghost fewer_sessions: { sessions ≤ at },
    ghost fewer_steps: { steps ≤ at },
}

impl<'t, 'a> Reader<'t, 'a> {
    ghost use Rattle.std.specs.Prelude.{◌≡◌, ◌≢◌, ◌<◌, ◌^◌, [], length, Err, MatchOption};
    ghost use Rattle.iso_lexer.specs.SpecTokens.{at_view, at_views, name, block};
    ghost use Rattle.spec_parser.specs.Trees.{part_view, placed_view};
    ghost use Rattle.spec_parser.specs.Counts.{start};
    ghost use Rattle.spec_parser.specs.Inner.Stopping.{place, name_next, block_next, end_at};
    ghost use Rattle.spec_parser.specs.Inner.Pieces.{starts_word, starts_sign, starts_name, word_at, sign_at};
    ghost use Rattle.spec_parser.specs.Inner.Readers.{end_of, rest_of, IsNext, Same, Gives, StopsAt};

    pub fn new(tokens: &'t [At<SpecTok<'a>>], end: usize) -> Self
        requires few { length tokens.now < 2 ^ 32 }
        requires fits { FitsAll tokens.now }
        ensures at { rest_of result ≡ (start, at_views tokens.now) }
        ensures ends { end_of result ≡ end }
    {
        Reader {
            tokens,
            at: 0,
            end,
            blocks: 0,
            sessions: 0,
            steps: 0,
        }
    }

    fn peek(&self) -> Option<At<SpecTok<'a>>>
        ensures { MatchOption result ((rest_of self.now).1 ≡ []) (λ t. IsNext (at_view t) self.now) }
    {
        if self.at < self.tokens.len() {
            Some(self.tokens[self.at])
        } else {
            None
        }
    }

    fn place(&self) -> usize
        ensures { result ≡ place (end_of self.now) (rest_of self.now).1 }
    {
        match self.peek() {
            Some(token) => token.span.start,
            None => self.end,
        }
    }

    /// Reading stops here.
    pub fn stop(&self, stop: Stop) -> Halt
        ensures { StopsAt (end_of self.now) stop (rest_of self.now).1 result }
    {
        Halt::At(stop, self.place())
    }

    /// How many words `session` stand before.
    pub fn sessions_so_far(&self) -> usize
        ensures { result ≡ (rest_of self.now).0.sessions }
    {
        self.sessions
    }

    /// How many words `step` stand before.
    pub fn steps_so_far(&self) -> usize
        ensures { result ≡ (rest_of self.now).0.steps }
    {
        self.steps
    }

    pub fn starts_word(&self, word: Keyword) -> bool
        ensures { result ≡ starts_word word (rest_of self.now) }
    {
        match self.peek() {
            Some(token) => match token.tok {
                SpecTok::Keyword(k) => k == word,
                _ => false,
            },
            None => false,
        }
    }

    pub fn starts_sign(&self, sign: Sign) -> bool
        ensures { result ≡ starts_sign sign (rest_of self.now) }
    {
        match self.peek() {
            Some(token) => match token.tok {
                SpecTok::Sign(s) => s == sign,
                _ => false,
            },
            None => false,
        }
    }

    pub fn starts_name(&self) -> bool
        ensures { result ≡ starts_name (rest_of self.now) }
    {
        match self.peek() {
            Some(token) => match token.tok {
                SpecTok::Name(_) => true,
                _ => false,
            },
            None => false,
        }
    }

    #[tactic(auto, unfolding(crate::specs::Inner::Stopping::end_at))]
    pub fn end(&self) -> Result<(), Halt>
        ensures reads { Gives (end_of self.now) (λ x. (x, rest_of self.now)) result (end_at (rest_of self.now)) }
        ensures calm { result ≢ Err Halt.Memory }
    {
        match self.peek() {
            None => Ok(()),
            Some(token) => Err(Halt::At(Stop::Expected(What::Item), token.span.start)),
        }
    }

    #[tactic(auto, unfolding(crate::specs::Inner::Stopping::next_token))]
    pub fn word(&mut self, word: Keyword, what: What) -> Result<(), Halt>
        ensures same { Same self.old self.new }
        ensures reads { Gives (end_of self.old) (λ x. (x, rest_of self.new)) result (word_at word what (rest_of self.old)) }
        ensures calm { result ≢ Err Halt.Memory }
    {
        match self.peek() {
            None => Err(Halt::At(Stop::Expected(what), self.end)),
            Some(token) => match token.tok {
                SpecTok::Keyword(k) if k == word => {
                    self.at += 1;
                    match k {
                        Keyword::Session => self.sessions += 1,
                        Keyword::Step => self.steps += 1,
                        _ => {}
                    }
                    Ok(())
                }
                _ => Err(Halt::At(Stop::Expected(what), token.span.start)),
            },
        }
    }

    #[tactic(auto, unfolding(crate::specs::Inner::Stopping::next_token))]
    pub fn sign(&mut self, sign: Sign, what: What) -> Result<(), Halt>
        ensures same { Same self.old self.new }
        ensures reads { Gives (end_of self.old) (λ x. (x, rest_of self.new)) result (sign_at sign what (rest_of self.old)) }
        ensures calm { result ≢ Err Halt.Memory }
    {
        match self.peek() {
            None => Err(Halt::At(Stop::Expected(what), self.end)),
            Some(token) => match token.tok {
                SpecTok::Sign(s) if s == sign => {
                    self.at += 1;
                    Ok(())
                }
                _ => Err(Halt::At(Stop::Expected(what), token.span.start)),
            },
        }
    }

    #[tactic(auto, unfolding(crate::specs::Inner::Stopping::name_next))]
    pub fn name(&mut self, what: What) -> Result<PlacedName<'a>, Halt>
        ensures same { Same self.old self.new }
        ensures reads { Gives (end_of self.old) (λ x. (placed_view x, rest_of self.new)) result (name_next what (rest_of self.old)) }
        ensures calm { result ≢ Err Halt.Memory }
    {
        match self.peek() {
            None => Err(Halt::At(Stop::Expected(what), self.end)),
            Some(token) => match token.tok {
                SpecTok::Name(name) => {
                    self.at += 1;
                    Ok(PlacedName {
                        name,
                        at: token.span.start,
                    })
                }
                _ => Err(Halt::At(Stop::Expected(what), token.span.start)),
            },
        }
    }

    #[tactic(auto, unfolding(crate::specs::Inner::Stopping::block_next))]
    pub fn block(&mut self) -> Result<Part<'a>, Halt>
        ensures same { Same self.old self.new }
        ensures reads { Gives (end_of self.old) (λ x. (part_view x, rest_of self.new)) result (block_next (rest_of self.old)) }
        ensures calm { result ≢ Err Halt.Memory }
    {
        match self.peek() {
            None => Err(Halt::At(Stop::Expected(What::Block), self.end)),
            Some(token) => match token.tok {
                SpecTok::Block { blanks, sql } => {
                    let block = self.blocks;
                    self.at += 1;
                    self.blocks += 1;
                    Ok(Part {
                        sql,
                        at: token.span.start + 1 + blanks,
                        block,
                    })
                }
                _ => Err(Halt::At(Stop::Expected(What::Block), token.span.start)),
            },
        }
    }
}
