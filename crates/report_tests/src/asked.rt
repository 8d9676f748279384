//! What is asked of a file, of entries of its steps, and of a history of these.

ghost use Rattle.std.specs.Prelude.{◌+◌, ◌<◌, ◌^◌, length};

use crate::histories::{Round, history};
use crate::texts::{ENDLESS, Ending, entries_of, free_ending, report_of};
use permutation_lists::line_of;
use permutation_plans::{FreeLaunches, Launches, free_fits, launches_fit};
use report_lines::{PermutationRun, RunState, report};
use session_machine::{HistItem, Order};
use spec_parser::{Entry, Spec, parse_spec};
use std::alloc::{AllocError, Global};
use std::test::Fail;

/// A question, with the answer that is right.
#[derive(Clone, Copy)]
pub(crate) enum Asked {
    /// Whether the history fits a plan of the entries.
    Fits(bool),
    /// Which order comes first in a plan that the history fits.
    First(Order),
    /// Which order comes behind the history, and whether that fits.
    Behind(Order, bool),
    /// How many scripts a free run has, which the history fits.
    Scripts(u32),
    /// How many lines are said behind so many setups, up to the end of the entries.
    Lines(u32, usize),
    /// Whether the line that lists the entries is whole.
    Listed,
    /// Whether the text is written to its end.
    Written,
    WrittenFreely,
}

/// The order behind these items, in a plan that has come no further.
fn next_of(
    alloc: Global,
    launches: &Launches,
    entries: &[Entry],
    items: &[HistItem<'_>],
) -> Result<Order, AllocError> {
    let mut progress = launches.begin(alloc, entries)?;
    launches.go_on(alloc, entries, items, &mut progress)
}

fn order_behind(
    alloc: Global,
    spec: &Spec<'_>,
    entries: &[Entry],
    items: &[HistItem<'_>],
) -> Result<Order, AllocError>
    requires { length spec.now.sessions.items < 2 ^ 32 }
{
    let launches = Launches::of(alloc, spec, entries)?;
    next_of(alloc, &launches, entries, items)
}

fn scripts_of(alloc: Global, spec: &Spec<'_>) -> Result<usize, AllocError>
    requires { length spec.now.sessions.items < 2 ^ 32 }
{
    Ok(FreeLaunches::of(alloc, spec)?.scripts.len())
}

/// How many lines are said; none where the report doesn't come to its end.
fn lines_said(
    alloc: Global,
    entries: &[Entry],
    items: &[HistItem<'_>],
    setups: usize,
) -> Result<Option<usize>, AllocError>
    requires { setups + length entries.now + 1 < 2 ^ 64 }
{
    let run = PermutationRun::new(alloc, entries, items, setups)?;
    let (so_far, state) = report(alloc, &run)?;
    Ok(match state {
        RunState::Whole => Some(so_far.lines().len()),
        _ => None,
    })
}

fn is_listed(alloc: Global, spec: &Spec<'_>, entries: &[Entry]) -> Result<bool, AllocError> {
    let line = line_of(alloc, spec, entries)?;
    Ok(line.starts_with(b"permutation") && line.ends_with(b"\n"))
}

fn is_right(
    alloc: Global,
    spec: &Spec<'_>,
    entries: &[Entry],
    items: &[HistItem<'_>],
    asked: Asked,
) -> Result<bool, AllocError>
    requires sessions { length spec.now.sessions.items + 1 < 2 ^ 32 }
    requires entries { length entries.now < 2 ^ 32 }
{
    Ok(match asked {
        Asked::Fits(fits) => launches_fit(alloc, spec, entries, items)? == fits,
        Asked::First(order) => {
            launches_fit(alloc, spec, entries, items)?
                && order_behind(alloc, spec, entries, &[])? == order
        }
        Asked::Behind(order, fits) => {
            launches_fit(alloc, spec, entries, items)? == fits
                && order_behind(alloc, spec, entries, items)? == order
        }
        Asked::Scripts(count) => {
            free_fits(alloc, spec, items)? && scripts_of(alloc, spec)? == count as usize
        }
        Asked::Lines(setups, count) => {
            lines_said(alloc, entries, items, setups as usize)? == Some(count)
        }
        Asked::Listed => is_listed(alloc, spec, entries)?,
        Asked::Written => report_of(alloc, spec, entries, items, ENDLESS)?.ending == Ending::Whole,
        Asked::WrittenFreely => free_ending(alloc, spec, items)? == Ending::Whole,
    })
}

/// The same of a file with at most 64 sessions, as any has.
fn is_right_of_few(
    alloc: Global,
    spec: &Spec<'_>,
    entries: &[Entry],
    items: &[HistItem<'_>],
    asked: Asked,
) -> Result<bool, Fail> {
    if spec.sessions.len() > 64 || entries.len() > 10_000 {
        return Err(Fail::new("too many"));
    }
    Ok(is_right(alloc, spec, entries, items, asked)?)
}

/// The same of a history by its rounds. The entries are those of the file's first permutation line where none are given.
fn is_right_of(
    alloc: Global,
    spec: &Spec<'_>,
    entries: Option<&[Entry]>,
    rounds: &[Round<'_>],
    count: u32,
    asked: Asked,
) -> Result<bool, Fail> {
    let items = history(alloc, rounds, count)?;
    let entries = match entries {
        Some(entries) => entries,
        None => entries_of(spec),
    };
    is_right_of_few(alloc, spec, entries, &items, asked)
}

/// Whether the answer is right for this file.
pub(crate) fn is_right_of_file(
    alloc: Global,
    text: &str,
    entries: Option<&[Entry]>,
    rounds: &[Round<'_>],
    count: u32,
    asked: Asked,
) -> Result<bool, Fail> {
    let spec = parse_spec(alloc, text)?;
    is_right_of(alloc, &spec, entries, rounds, count, asked)
}
