//! The interleaving of an outcome, drawn: a column for each session, and a row for each step in the order in which they start.

use crate::names::Names;
use crate::text::Text;
use crate::told::{Place, Told, text_in};

/// What the nearest serial order has in this row, if that is another.
fn other(told: &Told, row: usize) -> Option<&str> {
    let nearest = told.nearest()?;
    for differing in nearest.rows.all() {
        if *differing == row {
            return Some(text_in(&nearest.cells, row));
        }
    }
    None
}

/// Puts the cell of a step, marked where the nearest serial order has another answer.
fn put_cell(out: &mut Text, names: &Names, told: &Told, row: usize) {
    let other = other(told, row);
    out.fill(
        "<td class=\"step{}\"><b>{}</b><span class=\"sql\">{}</span><span class=\"answer\">",
        &[
            if other.is_some() { " differs" } else { "" },
            text_in(&names.rows, row),
            text_in(&names.sqls, row.saturating_sub(1)),
        ],
    );
    out.tell_lines(text_in(&told.cells, row), "<br>");
    if let Some(serial) = other {
        out.put("</span><span class=\"mark\">serial: ");
        out.tell_lines(serial, "<br>");
    }
    out.put("</span>");
}

/// Puts the row of a step.
fn put_row(out: &mut Text, names: &Names, told: &Told, number: usize, place: &Place) {
    out.put("<tr><th scope=\"row\" class=\"number\">");
    out.put_count(number as u64);
    out.put("</th>");
    for session in 1..names.sessions.all().len().saturating_add(1) {
        if session == place.session {
            put_cell(out, names, told, place.row);
        } else {
            out.put("<td>");
        }
        out.put("</td>");
    }
    out.put("</tr>\n");
}

/// Puts the interleaving of an outcome; steps that answer otherwise in the nearest serial order are marked.
pub fn put_interleaving(out: &mut Text, names: &Names, told: &Told) {
    out.put(
        "<div class=\"scroll\" role=\"region\" aria-label=\"interleaving\" tabindex=\"0\"><table class=\"run\">\n<thead><tr><th scope=\"col\" class=\"number\">#</th>",
    );
    for session in names.sessions.all() {
        out.fill("<th scope=\"col\">{}</th>", &[session.as_str()]);
    }
    out.put("</tr></thead>\n<tbody>\n");
    for (at, place) in told.steps.all().iter().enumerate() {
        put_row(out, names, told, at.saturating_add(1), place);
    }
    out.put("</tbody></table></div>\n");
}
