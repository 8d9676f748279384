//! The sessions of a spec file, each with its steps.

use crate::levels::level_after;
use iso_lexer::Name;
use spec_parser::{SessionPart, Spec};
use std::alloc::{AllocError, Global};

/// Longer names of sessions are cut.
const LONGEST_NAME: usize = 60;

/// A session: what stands over its column, and the names of its steps.
#[derive(Drop)]
pub struct Column {
    /// Its name, and the level of the transaction that its setup leaves open.
    pub head: String,
    pub steps: Vec<String>,
}

/// A name as it is printed: a doubled quote stands for one.
fn decoded(alloc: Global, name: &Name<'_>) -> Result<String, AllocError> {
    let text = match *name {
        Name::Plain(text) | Name::Quoted(text) | Name::Folded(text) => text,
    };
    let mut out = String::new(alloc);
    let mut is_second = false;
    for ch in text.chars() {
        if ch == '"' && is_second {
            is_second = false;
        } else {
            out.push(ch)?;
            is_second = ch == '"';
        }
    }
    Ok(out)
}

fn head_of(alloc: Global, session: &SessionPart<'_>) -> Result<String, AllocError> {
    let name = decoded(alloc, &session.name)?;
    let mut head = String::new(alloc);
    for ch in name.as_str().chars().take(LONGEST_NAME) {
        head.push(ch)?;
    }
    if head.len() < name.len() {
        head.push_str("..")?;
    }
    if let Some(setup) = session.setup {
        if let Some(level) = level_after(setup.sql) {
            head.push_str(" (")?;
            head.push_str(level)?;
            head.push(')')?;
        }
    }
    Ok(head)
}

fn column_of(alloc: Global, session: &SessionPart<'_>) -> Result<Column, AllocError> {
    let mut steps = Vec::new(alloc);
    for step in &session.steps {
        steps.push(decoded(alloc, &step.name)?)?;
    }
    Ok(Column {
        head: head_of(alloc, session)?,
        steps,
    })
}

pub fn columns_of(alloc: Global, spec: &Spec<'_>) -> Result<Vec<Column>, AllocError> {
    let mut columns = Vec::new(alloc);
    for session in &spec.sessions {
        columns.push(column_of(alloc, session)?)?;
    }
    Ok(columns)
}
