//! Reads a file's parts in their order.

use crate::draft::FileDraft;
use crate::fault::Halt;
use crate::reader::Reader;
use std::alloc::Global;

impl<'t, 'a> Reader<'t, 'a> {
    ghost use Rattle.spec_parser.specs.Trees.{file_view};
    ghost use Rattle.spec_parser.specs.Inner.Stopping.{file_at};
    ghost use Rattle.spec_parser.specs.Inner.Readers.{end_of, rest_of, Same, Gives};

    /// The whole file.
    #[tactic(auto, unfolding(crate::specs::Inner::Stopping::file_at, crate::specs::Inner::Stopping::some_at, crate::specs::Inner::Stopping::all_at, crate::specs::Inner::Stopping::many_at))]
    pub fn file(&mut self, alloc: Global) -> Result<FileDraft<'a>, Halt>
        ensures same { Same self.old self.new }
        ensures reads { Gives (end_of self.old) (λ x. (file_view x, rest_of self.new)) result (file_at (rest_of self.old)) }
    {
        let setups = self.setups(alloc)?;
        let teardown = self.teardown()?;
        let sessions = self.sessions(alloc)?;
        let perms = self.perms(alloc)?;
        self.end()?;
        Ok(FileDraft {
            setups,
            teardown,
            sessions,
            perms,
        })
    }
}
