//! What can happen, behind its heading.

use crate::gathered::Gathered;
use crate::heading::Heading;
use crate::html::put_html;
use crate::markup::HEAD;
use crate::names::Names;
use crate::plain::put_plain;
use crate::text::Text;
use crate::told::Told;
use std::alloc::{AllocError, Global};

/// Notes whether memory was refused for what is to be printed.
fn note_refusals(out: &mut Text, names: &Names, outcomes: &Gathered<Told>) {
    out.note(names.is_refused());
    out.note(outcomes.is_refused());
    for told in outcomes.all() {
        out.note(told.is_refused());
    }
}

/// What is printed of what can happen: as text, or as a page of HTML.
pub fn text_of(
    alloc: Global,
    heading: &Heading,
    names: &Names,
    outcomes: &Gathered<Told>,
    is_html: bool,
) -> Result<String, AllocError> {
    let mut out = Text::new(alloc, is_html);
    note_refusals(&mut out, names, outcomes);
    if is_html {
        out.put(HEAD);
        heading.put_line(&mut out);
        put_html(&mut out, names, outcomes.all());
    } else {
        heading.put_line(&mut out);
        put_plain(&mut out, &names.rows, outcomes.all());
    }
    out.end()
}
