//! The interleavings of counts, and the lines that list a file's permutations.

ghost use Rattle.std.specs.Prelude.{◌<◌, ◌^◌, length, IfOk};
ghost use Rattle.spec_parser.specs.Trees.{spec_view};
ghost use Rattle.spec_parser.specs.Stands.{Stands};

use crate::histories::holds;
use permutation_lists::{Interleavings, Permutations, line_of};
use spec_parser::{Entry, Spec, SpecFault, parse_spec, specs_stand};
use std::alloc::{AllocError, Global};
use std::test::Fail;

/// So many lists are given for these counts.
fn number(alloc: Global, counts: &[u32]) -> Result<u32, AllocError>
    requires { length counts.now < 2 ^ 32 }
{
    let mut all = Interleavings::new(alloc, counts)?;
    let mut out = Vec::new(alloc);
    for given in 0..10_000 {
        if !all.next(&mut out)? {
            return Ok(given);
        }
    }
    Ok(10_000)
}

#[test]
fn their_number_is_the_multinomial(rt: HostRuntime) -> Result<(), AllocError> {
    holds(&rt, number(rt.alloc(), &[3, 3, 3])? == 1680);
    holds(&rt, number(rt.alloc(), &[6, 0, 6])? == 924);
    Ok(())
}

fn read(alloc: Global, text: &str) -> Result<Spec<'_>, SpecFault>
    ensures { IfOk result (λ spec. Stands (spec_view spec)) }
{
    specs_stand();
    parse_spec(alloc, text)
}

fn push_line(
    alloc: Global,
    lines: &mut Vec<u8>,
    spec: &Spec<'_>,
    entries: &[Entry],
) -> Result<(), AllocError> {
    let line = line_of(alloc, spec, entries)?;
    lines.extend_from_slice(&line)
}

/// The lines of all permutations.
fn lines_of(alloc: Global, spec: &Spec<'_>) -> Result<Vec<u8>, AllocError>
    requires { Stands (spec_view spec.now) }
{
    let mut lines = Vec::new(alloc);
    let mut permutations = Permutations::of(alloc, spec)?;
    for _ in 0..10_000 {
        if !permutations.advance(alloc)? {
            break;
        }
        push_line(alloc, &mut lines, spec, permutations.entries())?;
    }
    Ok(lines)
}

/// Whether these are the lines of the file.
fn has_lines(alloc: Global, text: &str, wanted: &str) -> Result<bool, Fail> {
    let spec = read(alloc, text)?;
    lists(alloc, &spec, wanted)
}

fn lists(alloc: Global, spec: &Spec<'_>, wanted: &str) -> Result<bool, Fail>
    requires { Stands (spec_view spec.now) }
{
    let lines = lines_of(alloc, spec)?;
    Ok(lines.as_slice() == wanted.as_bytes())
}

#[test]
fn lines_are_listed_as_they_stand(rt: HostRuntime) -> Result<(), Fail> {
    let text =
        "session s step a { } step \"b\"\"c\" { } permutation a(*, \"b\"\"c\") \"b\"\"c\"(a) a permutation \"b\"\"c\"";
    let wanted =
        "permutation \"a\"(*, \"b\"\"c\") \"b\"\"c\"(\"a\") \"a\"\npermutation \"b\"\"c\"\n";
    holds(&rt, has_lines(rt.alloc(), text, wanted)?);
    Ok(())
}
