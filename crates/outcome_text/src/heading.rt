//! How many permutations and outcomes there are, in a line.

use crate::text::Text;

/// How many permutations there are, of which so many start a step whose session waits, and so many end with a step that waits; how
/// many outcomes, and how many of them no serial order has.
#[derive(Drop)]
pub struct Heading {
    pub permutations: u64,
    pub blocked: u64,
    pub waiting: u64,
    pub outcomes: u64,
    pub not_serial: u64,
}

/// Puts a number, and the words for one or for more.
fn put_counted(out: &mut Text, number: u64, one: &str, more: &str) {
    out.put_count(number);
    out.put(if number == 1 { one } else { more });
}

/// Puts the same behind a comma, if there are any.
fn put_if_any(out: &mut Text, number: u64, one: &str, more: &str) {
    if number > 0 {
        out.put(", ");
        put_counted(out, number, one, more);
    }
}

impl Heading {
    /// Puts the first line.
    pub fn put_line(&self, out: &mut Text) {
        let ended = self.permutations.saturating_sub(self.blocked);
        put_counted(out, self.permutations, " permutation: ", " permutations: ");
        put_counted(out, ended.saturating_sub(self.waiting), " runs", " run");
        put_if_any(
            out,
            self.blocked,
            " starts a step whose session waits",
            " start a step whose session waits",
        );
        put_if_any(
            out,
            self.waiting,
            " ends with a step that waits",
            " end with a step that waits",
        );
        out.put(". ");
        put_counted(out, self.outcomes, " outcome", " outcomes");
        out.put(", ");
        out.put_count(self.not_serial);
        out.put(" in no serial order.\n");
    }
}
