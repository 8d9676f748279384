//! A session's seat: its own events and their replies.
ghost use Rattle.std.specs.Prelude.{◌≡◌, ◌≤◌, IfOk, IfErr};
ghost use Rattle.iso_lexer.specs.declared.limits.TheConstants.{MOST_SESSIONS};
ghost use Rattle.session_seats.specs.Seats.{empty_seat, empty_seats};

use crate::fault::ThreadFault;
use session_machine::HistItem;
use std::alloc::Global;
use std::marker::Model;

/// A session's number, and its events with their replies, in order.
pub struct Seat<'t> {
    session: u32,
    /// The events with their replies. One who puts another behind them makes room for it first.
    pub items: Vec<HistItem<'t>>,
}

/// Written out, so that a crate that drops a seat calls this, and needn't prove anew how each of its parts is dropped.
impl<'t> Drop for Seat<'t> {
    fn drop(self) {
        let Seat {
            session: _,
            items: _,
        } = self;
    }
}

impl<'t> Model for Seat<'t> {
    ghost use Rattle.session_seats.specs.Seats.{SeatOf};

    ghost Value = { SeatOf };

    ghost view = { λ s. record { session = s.session; items = s.items.items } };
}

impl<'t> Seat<'t> {
    /// The session's seat in which nothing stands. It takes no memory.
    pub fn new(alloc: Global, session: u32) -> Self
        ensures { result ≡ empty_seat session }
    {
        Seat {
            session,
            items: Vec::new(alloc),
        }
    }

    /// The session's number.
    pub fn session(&self) -> u32
        ensures { result ≡ self.now.session }
    {
        self.session
    }
}

/// A seat for the control session, which is session 0, and for each of so many sessions beside it.
pub fn empty_seats<'t>(alloc: Global, sessions: u32) -> Result<Vec<Seat<'t>>, ThreadFault>
    requires { sessions ≤ MOST_SESSIONS }
    ensures ok { IfOk result (λ seats. seats.items ≡ empty_seats sessions) }
    ensures err { IfErr result (λ fault. fault ≡ ThreadFault.Memory) }
{
    let mut seats = Vec::new(alloc);
    for session in 0..sessions + 1 {
        if seats.push(Seat::new(alloc, session)).is_err() {
            return Err(ThreadFault::Memory);
        }
    }
    Ok(seats)
}

/// Lets the seats go, as a drop does.
pub fn leave_seats(_seats: Vec<Seat<'_>>) {}
