//! A thread for each session, and one engine behind one lock: who says what the sessions are given, and what each session's
//! thread does.
#![tactic(auto)]

mod acting;
mod closing;
mod directed;
mod driver;
mod ending;
mod free;
mod held;
mod many;
mod opening;
mod reports;

pub use acting::act;
pub use closing::{Closed, close};
pub use directed::run_directed;
pub use driver::{ByDriver, Driver};
pub use ending::close_run;
pub use free::run_free;
pub use held::Held;
pub use many::run_each;
pub use opening::{Run, open_run};
pub use reports::Reports;
pub use session_machine::Order;
pub use session_seats::{FreePlan, Gate, OpenGate, Seat, THREAD_STACK, ThreadFault};
