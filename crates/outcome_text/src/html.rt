//! What can happen, as a page of HTML that fetches nothing.

use crate::gathered::Gathered;
use crate::interleaving::put_interleaving;
use crate::names::Names;
use crate::plain::put_nearest;
use crate::text::Text;
use crate::told::{Class, Told, is_shown, text_in};

/// Puts the names of the outcomes, each a link to its part of the page.
fn put_links(out: &mut Text, outcomes: &[Told]) {
    for told in outcomes {
        out.fill(
            "<th scope=\"col\"><a href=\"#outcome-{}\">{}</a></th>",
            &[told.name(), told.name()],
        );
    }
}

/// Puts a row of the table.
fn put_row(out: &mut Text, head: &str, outcomes: &[Told], row: usize) {
    out.fill("<tr><th scope=\"row\">{}</th>", &[head]);
    for told in outcomes {
        out.put("<td>");
        out.tell_lines(text_in(&told.cells, row), "<br>");
        out.put("</td>");
    }
    out.put("</tr>\n");
}

/// Puts the table of outcomes.
fn put_table(out: &mut Text, rows: &Gathered<String>, outcomes: &[Told]) {
    out.put(
        "<div class=\"scroll\" role=\"region\" aria-label=\"outcomes\" tabindex=\"0\"><table>\n<thead><tr><th></th>",
    );
    put_links(out, outcomes);
    out.put("</tr></thead>\n<tbody>\n");
    for (row, head) in rows.all().iter().enumerate() {
        if row > 0 && is_shown(outcomes, row) {
            put_row(out, head.as_str(), outcomes, row);
        }
    }
    out.put("</tbody></table></div>\n");
}

/// The class of a verdict; one that can't be told has none of the two colours.
fn class_name(class: &Class) -> &str {
    match class {
        Class::Serial => "as",
        Class::NotSerial(_) => "bad",
        Class::Untold => "untold",
    }
}

/// Puts the heading of an outcome: its name and its verdict; and its permutation.
fn put_title(out: &mut Text, told: &Told) {
    out.fill(
        "<section id=\"outcome-{}\">\n<h2>{} <span class=\"{}\">{}</span></h2>\n<p><code>{}</code></p>\n",
        &[
            told.name(),
            told.name(),
            class_name(&told.class),
            told.verdict(),
            told.permutation.as_str(),
        ],
    );
}

/// Puts what is said of an outcome.
fn put_outcome(out: &mut Text, names: &Names, told: &Told) {
    put_title(out, told);
    match &told.class {
        Class::NotSerial(Some(nearest)) => {
            out.put("<p>The nearest serial order: ");
            put_nearest(out, &names.rows, nearest);
            out.put(". Steps that answer otherwise there are framed twice.</p>\n");
        }
        Class::NotSerial(None) => {
            out.put("<p>No order of the transactions is serial.</p>\n");
        }
        Class::Serial | Class::Untold => {}
    }
    put_interleaving(out, names, told);
    out.put("<p><a href=\"#outcomes\">All outcomes</a></p>\n</section>\n");
}

/// Puts what can happen, behind the heading.
pub fn put_html(out: &mut Text, names: &Names, outcomes: &[Told]) {
    out.put("</p>\n");
    put_table(out, &names.rows, outcomes);
    for told in outcomes {
        put_outcome(out, names, told);
    }
    out.put("</main>\n</body>\n</html>\n");
}
