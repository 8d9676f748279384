//! What can happen: outcomes with their verdicts.

use crate::serial_orders::SerialOrder;
use crate::verdict::Verdict;
use outcome_counts::Counted;

/// The verdict on an outcome, and the serial orders beside which it was held.
pub struct Judged<'t> {
    pub verdict: Verdict,
    pub orders: Vec<SerialOrder<'t>>,
}

/// Written out, as that of `RunOutcome`.
impl<'t> Drop for Judged<'t> {
    fn drop(self) {
        let Judged {
            verdict: _,
            orders: _,
        } = self;
    }
}

/// What can happen: the tables that the file makes, how many permutations there are, how they are counted, and a verdict on each of
/// their outcomes.
pub struct Outcomes<'t> {
    pub tables: Vec<String>,
    pub permutations: u64,
    pub counted: Counted<'t>,
    pub judged: Vec<Judged<'t>>,
}

/// Written out, as that of `RunOutcome`.
impl<'t> Drop for Outcomes<'t> {
    fn drop(self) {
        let Outcomes {
            tables: _,
            permutations: _,
            counted: _,
            judged: _,
        } = self;
    }
}
