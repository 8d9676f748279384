//! The laws of waits, at the state that an engine is in and in its history: each function's contract is one of them, and its body does nothing.

ghost use Rattle.std.specs.Prelude.{◌≡◌, ℕ, List, ◌∷◌, ◌++◌, Some, Ok, slice_get};
ghost use Rattle.row_versions.specs.declared.write.Write.{Write};
ghost use Rattle.row_versions.specs.Log.{IsOpen};
ghost use Rattle.row_locks.specs.Cycles.{blocks, NoCycle, AllEnd};
ghost use Rattle.session_machine.specs.declared.event.Event.TheVariants.{Step};
ghost use Rattle.session_machine.specs.declared.reply.HistItem.{HistItem};
ghost use Rattle.session_machine.specs.Machine.{Machine, Next, Run, next, opening, turn_in};
ghost use Rattle.session_machine.specs.Waits.{waits_in};
ghost use Rattle.wait_laws.specs.Laws.{IsHeldToWrite, IsNearerRest};
ghost use Rattle.wait_laws.specs.Replies.{IsAnsweredSo};

use crate::engine::EngineState;
use row_versions::Versions;
use wait_laws::laws;

impl<'a, 't, V: Versions> EngineState<'a, 't, V> {
    /// No sessions wait in a cycle, and from each that waits its blockers lead to one that waits for nobody.
    pub fn no_cycle_of_waits(&self)
        ensures { (m : Machine) → self.now.machine ≡ Some m → NoCycle (blocks (waits_in m.db m.sessions)) × AllEnd (blocks (waits_in m.db m.sessions)) }
    {
        laws::no_cycle_of_waits();
        let _told = self.history();
    }

    /// Each of its replies says `deadlock detected` exactly where the statement asked for something of which a wait would have closed a cycle, in the
    /// state of that moment, and that the session waits exactly where others held what it asked for and a wait closed none.
    pub fn deadlock_is_answered(&self)
        ensures { (before : List HistItem) (item : HistItem) (later : List HistItem) → self.now.history ≡ before ++ item ∷ later
            → (m : Machine) × Run self.now.blocks self.now.mode (opening self.now.count) before m × IsAnsweredSo self.now.blocks m item.event item.reply.outcome }
    {
        laws::deadlock_is_answered();
        let _told = self.history();
    }

    /// A row that an open transaction wrote is held by it so strongly that nobody else writes it.
    pub fn writes_are_held(&self)
        ensures { (m : Machine) → self.now.machine ≡ Some m → (place : ℕ) (w : Write) → slice_get m.db.content.log place ≡ Some w
            → IsOpen m.db.content w.tx → IsHeldToWrite m.db place w }
    {
        laws::writes_are_held();
        let _told = self.history();
    }

    /// The step of the session whose turn it is is taken, and comes nearer to rest.
    pub fn rest_is_reached(&self)
        ensures { (m : Machine) → self.now.machine ≡ Some m → (k : ℕ) → turn_in m ≡ Some k
            → (n : Next) × (next self.now.blocks self.now.mode m (Step k) ≡ Ok n) × IsNearerRest self.now.blocks m n.machine }
    {
        laws::rest_is_reached();
        let _told = self.history();
    }
}
