//! A permutation's report in memory, before its turn comes.

ghost use Rattle.std.specs.Prelude.{◌≡◌, ◌≢◌, ◌||◌, ◌⊎◌, true, false, Err, IsTrue, IsErrOf};
ghost use Rattle.std.specs.Io.KnownBytes.{Appends};
ghost use Rattle.iso_lexer.specs.Devices.{page_text, PutsFront};
ghost use Rattle.spec_files.specs.Runs.{has_ended};

use crate::fault::RunFault;
use iso_lexer::{Page, Sink};
use spec_parser::Entry;

/// The report and the notes of a permutation, and what its run came to.
#[derive(Drop)]
pub struct Draft {
    pub entries: Vec<Entry>,
    pub text: Page,
    pub notes: Page,
    pub result: Result<(), RunFault>,
}

/// Whether a run came to an end, be it an early one.
fn has_ended(answer: &Result<(), RunFault>) -> bool
    ensures { result ≡ has_ended answer.now }
{
    match answer {
        Ok(())
        | Err(
            RunFault::SetupFailed { .. } | RunFault::SetupWaits | RunFault::TooManyPermutations,
        ) => true,
        Err(_) => false,
    }
}

impl Draft {
    /// Writes the report of a run that came to an end, and behind it the notes; nothing of another. Answers as the run did.
    pub fn put<W: Sink, N: Sink>(self, out: &mut W, notes: &mut N) -> Result<(), RunFault>
        ensures whole { IsTrue (has_ended result) → Appends (W.put_so_far out.old) (W.put_so_far out.new) (page_text self.text)
            × Appends (N.put_so_far notes.old) (N.put_so_far notes.new) (page_text self.notes) }
        ensures front { IsTrue (has_ended self.result) → PutsFront (W.put_so_far out.old) (W.put_so_far out.new) (page_text self.text)
            × PutsFront (N.put_so_far notes.old) (N.put_so_far notes.new) (page_text self.notes) }
        ensures order { (notes.new ≡ notes.old) ⊎ Appends (W.put_so_far out.old) (W.put_so_far out.new) (page_text self.text) }
        ensures nothing { has_ended self.result ≡ false → (out.new ≡ out.old) × (notes.new ≡ notes.old) × (result ≡ self.result) }
        ensures answer { (result ≡ self.result) ⊎ (result ≡ Err RunFault.Write) }
        ensures write { IsErrOf result RunFault.Write → self.result ≢ Err RunFault.Write → (W.failed out.new || N.failed notes.new) ≡ true }
    {
        if !has_ended(&self.result) {
            return self.result;
        }
        out.put(self.text.bytes())?;
        notes.put(self.notes.bytes())?;
        self.result
    }
}
