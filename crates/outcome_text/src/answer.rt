//! What is printed of what can happen.

use crate::heading::Heading;
use crate::naming::names_of;
use crate::page::text_of;
use crate::telling::told_all;
use outcome_verdicts::{Judged, Outcomes, Verdict};
use spec_parser::Spec;
use std::alloc::{AllocError, Global};

/// What is printed, and whether each outcome is that of a serial order, as far as can be told.
pub struct Answer {
    pub text: String,
    pub serial: bool,
}

/// Written out, as that of `RunOutcome`.
impl Drop for Answer {
    fn drop(self) {
        let Answer { text: _, serial: _ } = self;
    }
}

/// How many of these outcomes no serial order has.
fn not_serial_in(judged: &[Judged<'_>]) -> u64 {
    let mut number = 0u64;
    for one in judged {
        if matches!(one.verdict, Verdict::NotSerial) {
            number = number.saturating_add(1);
        }
    }
    number
}

/// How many permutations and outcomes there are.
fn heading_of(outcomes: &Outcomes<'_>) -> Heading {
    Heading {
        permutations: outcomes.permutations,
        blocked: outcomes.counted.blocked,
        waiting: outcomes.counted.waiting,
        outcomes: outcomes.judged.len() as u64,
        not_serial: not_serial_in(&outcomes.judged),
    }
}

/// What is printed of the outcomes of a spec, as text or as a page of HTML.
pub fn answer_in(
    alloc: Global,
    spec: &Spec<'_>,
    outcomes: &Outcomes<'_>,
    is_html: bool,
) -> Result<Answer, AllocError> {
    let heading = heading_of(outcomes);
    let names = names_of(alloc, spec, &outcomes.tables);
    let told = told_all(alloc, spec, &names, outcomes);
    let text = text_of(alloc, &heading, &names, &told, is_html)?;
    Ok(Answer {
        text,
        serial: heading.not_serial == 0,
    })
}
