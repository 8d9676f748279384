//! The end of a run: the engine's state beside the seats.
ghost use Rattle.std.specs.Prelude.{◌≡◌, ◌≤◌, ℕ, Err, None, Some, true, false, IfOk, IfErr, IfNone, IfSome};
ghost use Rattle.iso_lexer.specs.declared.limits.TheConstants.{MOST_SESSIONS};
ghost use Rattle.row_versions.specs.Log.{empty_content};
ghost use Rattle.sql_blocks.specs.Blocks.{blocks_of};
ghost use Rattle.session_machine.specs.Engine.{opened};
ghost use Rattle.session_seats.specs.Seats.{empty_seats};
ghost use Rattle.session_threads.specs.Seats.{AllFit, IsMisfit};

use crate::held::Held;
use row_versions::Versions;
use session_core::EngineState;
use session_crews::Joined;
use session_machine::Mode;
use session_seats::{Seat, ThreadFault, empty_seats, first_misfit, leave_seats};
use sql_blocks::Block;
use std::alloc::Global;
use std::marker::Model;

/// A run that is over: the engine's state, and a seat for each session, whose items are the history's items of that
/// session, in order.
pub struct Closed<'a, 't, V: Versions> {
    held: Held<'a, 't, V>,
    seats: Vec<Seat<'t>>,
}

/// Written out, as that of the engine is.
impl<'a, 't, V: Versions> Drop for Closed<'a, 't, V> {
    fn drop(self) {
        let Closed { held: _, seats } = self;
        leave_seats(seats);
    }
}

impl<'a, 't, V: Versions> Model for Closed<'a, 't, V> {
    ghost use Rattle.session_threads.specs.Closing.{ClosedOf};
    ghost use Rattle.session_threads.specs.Seats.{AllFit};
    ghost use Rattle.session_machine.specs.Inner.TreeCodes.{tree_code};
    ghost use Rattle.std.specs.Coded.{codes};

    ghost Value = { ClosedOf };

    ghost coded = { Prim.hlevel (codes, tree_code) };

    ghost view = { λ c. record { state = c.held.state; seats = c.seats.items } };

    ghost invariant = { λ c. AllFit c.held.state c.seats.items };
}

impl<'a, 't, V: Versions> Closed<'a, 't, V> {
    /// The engine as it stood at the end.
    pub fn state(&self) -> &EngineState<'a, 't, V>
        ensures { result.now ≡ self.now.state }
    {
        &self.held.state
    }

    /// The seats that were handed in.
    pub fn seats(&self) -> &[Seat<'t>]
        ensures lends { result.now ≡ self.now.seats }
        ensures fit { AllFit self.now.state self.now.seats }
    {
        let _ = &self.held;
        self.seats.as_slice()
    }

    /// Lets the run go, as a drop does.
    pub fn end(self) {}
}

/// Puts the state and the seats together, where there is one seat for each session, and its items are the history's.
pub fn close<'a, 't, V: Versions>(
    state: EngineState<'a, 't, V>,
    seats: Vec<Seat<'t>>,
) -> Result<Closed<'a, 't, V>, ThreadFault>
    ensures ok { IfOk result (λ c. (c.state ≡ state.entry) × (c.seats ≡ seats.entry.items) × AllFit state.entry seats.entry.items) }
    ensures err { IfErr result (λ e. (s : ℕ) × (e ≡ ThreadFault.SeatMismatch s) × IsMisfit state.entry seats.entry.items s) }
{
    let refused = seat_fault(&state, &seats);
    closed_unless(refused, Held { state }, seats)
}

/// The seats beside the state, unless something is against it.
fn closed_unless<'a, 't, V: Versions>(
    refused: Option<ThreadFault>,
    held: Held<'a, 't, V>,
    seats: Vec<Seat<'t>>,
) -> Result<Closed<'a, 't, V>, ThreadFault>
    requires { refused ≡ None → AllFit held.state seats.items }
    ensures refused { IfSome refused (λ fault. result ≡ Err fault) }
    ensures closed { refused ≡ None → IfOk result (λ c. c ≡ record { state = held.entry.state; seats = seats.entry.items }) }
    ensures err { IfErr result (λ fault. refused ≡ Some fault) }
{
    match refused {
        Some(fault) => {
            leave_seats(seats);
            Err(fault)
        }
        None => Ok(Closed { held, seats }),
    }
}

/// What the seats have against the run's being closed.
fn seat_fault<V: Versions>(
    state: &EngineState<'_, '_, V>,
    seats: &[Seat<'_>],
) -> Option<ThreadFault>
    ensures fit { IfNone result (AllFit state.now seats.now) }
    ensures misfit { IfSome result (λ e. (s : ℕ) × (e ≡ ThreadFault.SeatMismatch s) × IsMisfit state.now seats.now s) }
{
    match first_misfit(state.history(), state.sessions(), seats) {
        Some(session) => Some(ThreadFault::SeatMismatch { session }),
        None => None,
    }
}

/// The end of a run, which is the one that was handed in or another. A fault that was met comes first, then that it is another run, then what was seen after
/// the joins, then the seats.
pub fn end_of<'a, 't, V: Versions>(
    run: Joined<Held<'a, 't, V>, Seat<'t>>,
    is_own: bool,
) -> Result<Closed<'a, 't, V>, ThreadFault>
    ensures met { IfSome run.entry.met (λ fault. result ≡ Err fault) }
    ensures other_run { run.entry.met ≡ None → is_own ≡ false → result ≡ Err ThreadFault.OtherRun }
    ensures late { run.entry.met ≡ None → is_own ≡ true → IfSome run.entry.late (λ fault. result ≡ Err fault) }
    ensures seats { run.entry.met ≡ None → is_own ≡ true → run.entry.late ≡ None
        → IfErr result (λ e. (s : ℕ) × (e ≡ ThreadFault.SeatMismatch s) × IsMisfit run.entry.engine.state run.entry.seats.items s) }
    ensures ok { IfOk result (λ c. (is_own ≡ true) × (run.entry.met ≡ None) × (run.entry.late ≡ None)
        × (c ≡ record { state = run.entry.engine.state; seats = run.entry.seats.items })) }
{
    let Joined {
        engine,
        seats,
        met,
        late,
    } = run;
    let refused = end_fault(&engine.state, is_own, met, late, &seats);
    closed_unless(refused, engine, seats)
}

/// What is against closing a run, in the order in which it is told.
fn end_fault<V: Versions>(
    engine: &EngineState<'_, '_, V>,
    is_own: bool,
    met: Option<ThreadFault>,
    late: Option<ThreadFault>,
    seats: &[Seat<'_>],
) -> Option<ThreadFault>
    ensures met { IfSome met (λ fault. result ≡ Some fault) }
    ensures other_run { met ≡ None → is_own ≡ false → result ≡ Some ThreadFault.OtherRun }
    ensures late { met ≡ None → is_own ≡ true → IfSome late (λ fault. result ≡ Some fault) }
    ensures seats { met ≡ None → is_own ≡ true → late ≡ None
        → IfSome result (λ e. (s : ℕ) × (e ≡ ThreadFault.SeatMismatch s) × IsMisfit engine.now seats.now s) }
    ensures fit { IfNone result ((is_own ≡ true) × (met ≡ None) × (late ≡ None) × AllFit engine.now seats.now) }
{
    match (met, late) {
        (Some(fault), _) => Some(fault),
        _ if !is_own => Some(ThreadFault::OtherRun),
        (None, Some(fault)) => Some(fault),
        (None, None) => seat_fault(engine, seats),
    }
}

/// An engine in which nothing has happened, and an empty seat for each session.
pub fn opened_with_seats<'a, 't, V: Versions>(
    alloc: Global,
    blocks: &'a [Block<'t>],
    sessions: u32,
    mode: Mode,
    store: V,
) -> Result<(Held<'a, 't, V>, Vec<Seat<'t>>), ThreadFault>
    requires few { sessions ≤ MOST_SESSIONS }
    requires empty { V.content store ≡ empty_content }
    ensures ok { IfOk result (λ run. (run.0.state ≡ opened (blocks_of blocks.now) sessions mode) × (run.1.items ≡ empty_seats sessions)) }
    ensures err { IfErr result (λ fault. fault ≡ ThreadFault.Memory) }
{
    let seats = empty_seats(alloc, sessions)?;
    match EngineState::new(alloc, blocks, sessions, mode, store) {
        Ok(state) => Ok((Held { state }, seats)),
        Err(_) => {
            leave_seats(seats);
            Err(ThreadFault::Memory)
        }
    }
}
