//! Names of sessions, steps and tables, and verdicts in a few words.

use crate::gathered::Gathered;
use crate::names::Names;
use crate::text::Text;
use outcome_counts::written;
use outcome_verdicts::{Verdict, step_number};
use spec_parser::{SessionPart, Spec};
use std::alloc::{AllocError, Global};

/// Adds the names of a session and of its steps, and their SQL.
fn add_session(alloc: Global, names: &mut Names, session: &SessionPart<'_>) {
    names.sessions.add_made(written(alloc, &session.name));
    for step in &session.steps {
        names.rows.add_made(written(alloc, &step.name));
        names
            .sqls
            .add_made(String::from_str(alloc, step.part.sql.trim()));
    }
}

/// The names in a spec, and these of its tables.
pub fn names_of(alloc: Global, spec: &Spec<'_>, tables: &[String]) -> Names {
    let mut names = Names {
        sessions: Gathered::new(alloc),
        rows: Gathered::new(alloc),
        sqls: Gathered::new(alloc),
    };
    names.rows.add(String::new(alloc));
    for session in &spec.sessions {
        add_session(alloc, &mut names, session);
    }
    for table in tables {
        names.rows.add_made(String::from_str(alloc, table.as_str()));
    }
    names.rows.add_made(String::from_str(alloc, "permutations"));
    names.rows.add_made(String::from_str(alloc, "verdict"));
    names
}

/// A verdict in a few words.
pub fn words_of(
    alloc: Global,
    spec: &Spec<'_>,
    names: &Names,
    verdict: &Verdict,
) -> Result<String, AllocError> {
    let mut words = Text::new(alloc, false);
    match verdict {
        Verdict::Serial(order) => names.put_order(&mut words, order),
        Verdict::RestSerial { failed, rest } => names.put_rest(&mut words, failed, rest),
        Verdict::NotSerial => words.put("NOT SERIAL"),
        Verdict::Untold { session, step } => {
            names.put_untold(&mut words, step_number(spec, *session, *step));
        }
    }
    words.end()
}
