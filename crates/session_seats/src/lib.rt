//! What the threads of a run have in common: their seats and whether these fit a history, the gate that they ask, the board
//! that says who looks at which run, and how each thread is started.
#![tactic(auto)]

mod board;
mod crew;
mod fault;
mod fitting;
mod free;
mod gate;
mod ordering;
mod seat;
mod seat_at;

pub use board::{Board, MOST_RUNS, bit_of};
pub use crew::{NotStarted, THREAD_STACK, make_room, start_thread};
pub use fault::ThreadFault;
pub use fitting::{first_misfit, number_of};
pub use free::{BlockState, FreePlan, Runner, Tried, block_state, may_release, script_of};
pub use gate::{Admitted, AtOpenGate, Gate, OpenGate, Told, ask, tell};
pub use ordering::{Orderings, Scripting};
pub use seat::{Seat, empty_seats, leave_seats};
pub use seat_at::SeatAt;
