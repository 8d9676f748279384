//! Permutations as a picture.

use crate::names::Column;
use crate::reading::{PermutationReport, StepReport, StepStatus};
use crate::table::widths_of;
use std::alloc::{AllocError, Global};

// All in pixels.
const LINE: usize = 17;

const PAD: usize = 8;

const GAP: usize = 10;

const MARGIN: usize = 20;
/// Ten characters of the type are so wide.
const TEN_CHARS: usize = 80;

/// The picture of NUL; those of the control characters after it follow.
const FIRST_CONTROL_PICTURE: u32 = 0x2400;

const UNKNOWN: char = '\u{fffd}';

const STYLE: &str = "<style>
text { font: 13px monospace; white-space: pre; fill: #222 }
.title { font: 15px sans-serif; fill: #555 }
.head { font: bold 15px sans-serif; text-anchor: middle }
.done { fill: #eef4fb; stroke: #7a9cc6 }
.failed { fill: #fdecea; stroke: #c0392b }
.waits { fill: #fff6dd; stroke: #d8a200 }
.bar { fill: #f3d27a }
.life { stroke: #ccc }
text.error { fill: #c0392b; font-weight: bold }
</style>
";

/// A session's column in the picture, and since when it waits.
#[derive(Drop)]
struct Lane {
    left: usize,
    width: usize,
    waits_from: Option<usize>,
}

fn lanes_of(
    alloc: Global,
    columns: &[Column],
    report: &PermutationReport,
) -> Result<Vec<Lane>, AllocError> {
    let mut lanes = Vec::new(alloc);
    let mut left = MARGIN;
    for chars in &widths_of(alloc, columns, report)? {
        let width = chars.saturating_mul(TEN_CHARS) / 10;
        let width = width.saturating_add(2 * PAD);
        lanes.push(Lane {
            left,
            width,
            waits_from: None,
        })?;
        left = left.saturating_add(width).saturating_add(2 * GAP);
    }
    Ok(lanes)
}

/// What stands for a character that XML has no place for, or that shows nothing.
fn shown(ch: char) -> char {
    let code = u32::from(ch);
    if ch == '\t' {
        ' '
    } else if code < 32 {
        char::from_u32(FIRST_CONTROL_PICTURE.saturating_add(code)).unwrap_or(UNKNOWN)
    } else if ch.is_control() || code == 0xfffe || code == 0xffff {
        UNKNOWN
    } else {
        ch
    }
}

fn put_escaped(out: &mut String, text: &str) -> Result<(), AllocError> {
    for ch in text.chars() {
        match ch {
            '<' => out.push_str("&lt;")?,
            '>' => out.push_str("&gt;")?,
            '&' => out.push_str("&amp;")?,
            '"' => out.push_str("&quot;")?,
            '\'' => out.push_str("&#39;")?,
            _ => out.push(shown(ch))?,
        }
    }
    Ok(())
}

fn put_text(
    alloc: Global,
    out: &mut String,
    class: &str,
    x: usize,
    y: usize,
    text: &str,
) -> Result<(), AllocError> {
    let open = format!(in alloc; "<text class=\"{class}\" x=\"{x}\" y=\"{y}\">")?;
    out.push_str(open.as_str())?;
    put_escaped(out, text)?;
    out.push_str("</text>\n")
}

/// Puts a bar from where the lane's step began to wait down to `to`.
fn put_bar(alloc: Global, out: &mut String, lane: &mut Lane, to: usize) -> Result<(), AllocError> {
    if let Some(from) = lane.waits_from.take() {
        let x = lane.left.saturating_add(lane.width / 2).saturating_sub(PAD);
        let height = to.saturating_sub(from);
        let bar = format!(in alloc;
            "<rect class=\"bar\" x=\"{x}\" y=\"{from}\" width=\"16\" height=\"{height}\"/>\n"
        )?;
        out.push_str(bar.as_str())?;
    }
    Ok(())
}

fn class_of(step: &StepReport) -> &'static str {
    if step.is_failed() {
        "failed"
    } else if step.status == StepStatus::Waits {
        "waits"
    } else {
        "done"
    }
}

/// Puts a step's box with its top at `top`, and gives its height.
fn put_box(
    alloc: Global,
    out: &mut String,
    lane: &Lane,
    top: usize,
    step: &StepReport,
) -> Result<usize, AllocError> {
    let height = step.lines.len().saturating_mul(LINE).saturating_add(PAD);
    let class = class_of(step);
    let x = lane.left;
    let width = lane.width;
    let frame = format!(in alloc;
        "<rect class=\"{class}\" x=\"{x}\" y=\"{top}\" width=\"{width}\" height=\"{height}\" rx=\"4\"/>\n"
    )?;
    out.push_str(frame.as_str())?;
    let mut y = top;
    for line in &step.lines {
        y = y.saturating_add(LINE);
        let class = if line.as_str().starts_with("ERROR:") {
            "error"
        } else {
            "line"
        };
        put_text(alloc, out, class, x.saturating_add(PAD), y, line.as_str())?;
    }
    Ok(height)
}

fn put_heads(
    alloc: Global,
    out: &mut String,
    columns: &[Column],
    lanes: &[Lane],
    y: usize,
) -> Result<(), AllocError> {
    for (column, lane) in columns.iter().zip(lanes.iter()) {
        let middle = lane.left.saturating_add(lane.width / 2);
        put_text(alloc, out, "head", middle, y, column.head.as_str())?;
    }
    Ok(())
}

/// Puts each lane's line from `top` to `end`.
fn put_lives(
    alloc: Global,
    out: &mut String,
    lanes: &[Lane],
    top: usize,
    end: usize,
) -> Result<(), AllocError> {
    for lane in lanes {
        let x = lane.left.saturating_add(lane.width / 2);
        let life = format!(in alloc;
            "<line class=\"life\" x1=\"{x}\" y1=\"{top}\" x2=\"{x}\" y2=\"{end}\"/>\n"
        )?;
        out.push_str(life.as_str())?;
    }
    Ok(())
}

/// Puts the steps of a permutation from `top` on, and gives where they end.
fn put_steps(
    alloc: Global,
    out: &mut String,
    lanes: &mut Vec<Lane>,
    report: &PermutationReport,
    top: usize,
) -> Result<usize, AllocError> {
    let mut y = top;
    for step in &report.steps {
        if let Some(lane) = lanes.get_mut(step.column) {
            put_bar(alloc, out, lane, y)?;
            let height = put_box(alloc, out, lane, y, step)?;
            y = y.saturating_add(height);
            if step.status == StepStatus::Waits {
                lane.waits_from = Some(y);
            }
            y = y.saturating_add(GAP);
        }
    }
    for lane in lanes {
        put_bar(alloc, out, lane, y)?;
    }
    Ok(y)
}

/// Puts a permutation from `top` on, and gives where it ends.
fn put_report(
    alloc: Global,
    out: &mut String,
    columns: &[Column],
    report: &PermutationReport,
    top: usize,
) -> Result<usize, AllocError> {
    let mut lanes = lanes_of(alloc, columns, report)?;
    let title = top.saturating_add(LINE);
    let heads = title.saturating_add(2 * LINE);
    let first = heads.saturating_add(GAP);
    let mut steps = String::new(alloc);
    let end = put_steps(alloc, &mut steps, &mut lanes, report, first)?;
    put_text(alloc, out, "title", MARGIN, title, report.title.as_str())?;
    put_heads(alloc, out, columns, &lanes, heads)?;
    put_lives(alloc, out, &lanes, first, end)?;
    out.push_str(steps.as_str())?;
    if report.is_invalid {
        put_text(
            alloc,
            out,
            "error",
            MARGIN,
            end.saturating_add(LINE),
            "invalid permutation detected",
        )?;
    }
    Ok(end.saturating_add(2 * LINE))
}

fn width_of(
    alloc: Global,
    columns: &[Column],
    report: &PermutationReport,
) -> Result<usize, AllocError> {
    let lanes = lanes_of(alloc, columns, report)?;
    let title = report
        .title
        .as_str()
        .chars()
        .count()
        .saturating_mul(TEN_CHARS)
        / 10;
    let right = match lanes.last() {
        Some(lane) => lane.left.saturating_add(lane.width),
        None => 0,
    };
    Ok(
        right
            .max(title.saturating_add(MARGIN))
            .saturating_add(MARGIN),
    )
}

/// The permutations as an SVG file, one below the other.
pub fn picture_of(
    alloc: Global,
    columns: &[Column],
    reports: &[PermutationReport],
) -> Result<String, AllocError> {
    let mut body = String::new(alloc);
    let mut height = PAD;
    let mut width = 0usize;
    for report in reports {
        height = put_report(alloc, &mut body, columns, report, height)?;
        width = width_of(alloc, columns, report)?.max(width);
    }
    let body = body.as_str();
    let size = format!(in alloc;
        "width=\"{width}\" height=\"{height}\" viewBox=\"0 0 {width} {height}\""
    )?;
    format!(in alloc;
        "<svg xmlns=\"http://www.w3.org/2000/svg\" xml:space=\"preserve\" {size}>\n{STYLE}<rect width=\"100%\" height=\"100%\" fill=\"white\"/>\n{body}</svg>\n"
    )
}
