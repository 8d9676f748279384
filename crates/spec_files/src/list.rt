//! Lists the permutations of a spec file.

ghost use Rattle.std.specs.Prelude.{◌≡◌, ◌≢◌, ◌↔◌, ◌+◌, List, ℕ, Ok, Err, true, false, IsTrue, IfErr, IsErrOf};
ghost use Rattle.std.specs.Io.KnownBytes.{Appends};
ghost use Rattle.iso_lexer.specs.Devices.{IsFront, PutsFront};
ghost use Rattle.iso_lexer.specs.declared.limits.TheConstants.{LONGEST_FILE};
ghost use Rattle.spec_parser.specs.Trees.{spec_view};
ghost use Rattle.spec_parser.specs.Stands.{Stands};
ghost use Rattle.permutation_lists.specs.Permutations.{permutations_of};
ghost use Rattle.spec_files.specs.Lists.{listed, FileLists};
ghost use Rattle.spec_files.specs.Runs.{is_refusal, is_of_listing, has_ended, has_read, IsListed};
ghost use Rattle.spec_files.specs.Begun.{ListBegun};
ghost use Rattle.spec_files.specs.Promises.{IfFile};
ghost use Rattle.report_text.specs.Said.{Said};

use crate::fault::RunFault;
use crate::file::read_file;
use iso_lexer::{LONGEST_FILE, Sink, Source, read_all};
use permutation_lists::{Permutations, line_of};
use spec_parser::Spec;
use std::alloc::Global;

/// A line for each permutation of the spec, up to so many.
fn list_permutations<W: Sink>(
    alloc: Global,
    spec: &Spec<'_>,
    out: &mut W,
    limit: u64,
) -> Result<(), RunFault>
    requires { Stands (spec_view spec.now) }
    ensures lists { IsTrue (has_ended result) → IsListed (W.put_so_far out.old) (W.put_so_far out.new) result (listed (spec_view spec.now) limit (permutations_of (spec_view spec.now))) }
    ensures begun { PutsFront (W.put_so_far out.old) (W.put_so_far out.new) (listed (spec_view spec.now) limit (permutations_of (spec_view spec.now))).text }
    ensures write { IsErrOf result RunFault.Write → W.failed out.new ≡ true }
    ensures kinds { IfErr result (λ e. is_of_listing e ≡ true) }
    ensures no_refusal { IfErr result (λ e. is_refusal e ≡ false) }
    ensures read { result ≢ Err RunFault.Read }
{
    let mut permutations = Permutations::of(alloc, spec)?;
    let mut left = limit;
    while permutations.advance(alloc)? {
        if left == 0 {
            return Err(RunFault::TooManyPermutations);
        }
        left -= 1;
        let line = line_of(alloc, spec, permutations.entries())?;
        out.put(line.as_slice())?;
    }
    Ok(())
}

/// A line for each permutation of the spec file that these bytes are, up to so many.
fn list_file<W: Sink>(alloc: Global, bytes: &[u8], out: &mut W, limit: u64) -> Result<(), RunFault>
    ensures lists { IsTrue (has_ended result) →
        ((said : Said) × FileLists bytes.now limit (Ok said) × IsListed (W.put_so_far out.old) (W.put_so_far out.new) result said) }
    ensures refused { IfErr result (λ e. is_refusal e ≡ true → FileLists bytes.now limit (Err e)) }
    ensures untouched { IfErr result (λ e. is_refusal e ≡ true → out.new ≡ out.old) }
    ensures begun { ListBegun bytes.now limit (W.put_so_far out.old) (W.put_so_far out.new) }
    ensures write { IsErrOf result RunFault.Write → W.failed out.new ≡ true }
    ensures kinds { IfErr result (λ e. is_of_listing e ≡ true) }
    ensures read { result ≢ Err RunFault.Read }
{
    let file = read_file(alloc, bytes)?;
    list_permutations(alloc, &file.spec, out, limit)
}

/// Reads a spec file, and writes a line for each of its permutations. After `limit` lines, with one more permutation
/// there, it stops. A file is refused before anything is written, as a run of it is.
pub fn list_spec<S: Source, W: Sink>(
    alloc: Global,
    input: &mut S,
    out: &mut W,
    limit: u64,
) -> Result<(), RunFault>
    ensures lists { IfFile (S.left input.old) (λ file. IsTrue (has_ended result) →
        ((said : Said) × FileLists file limit (Ok said) × IsListed (W.put_so_far out.old) (W.put_so_far out.new) result said)) }
    ensures refused { IfFile (S.left input.old) (λ file. IfErr result (λ e. is_refusal e ≡ true → FileLists file limit (Err e))) }
    ensures untouched { IfErr result (λ e. is_refusal e ≡ true → out.new ≡ out.old) }
    ensures begun { IfFile (S.left input.old) (λ file. ListBegun file limit (W.put_so_far out.old) (W.put_so_far out.new)) }
    ensures read { IsErrOf result RunFault.Read ↔ (S.failed input.new ≡ true) }
    ensures unread { IsErrOf result RunFault.Read → out.new ≡ out.old }
    ensures kinds { IfErr result (λ e. is_of_listing e ≡ true) }
    ensures write { IsErrOf result RunFault.Write → W.failed out.new ≡ true }
    ensures taken { IsTrue (has_read result) → ((bytes : List ℕ) × IsFront (LONGEST_FILE + 1) (S.left input.old) (S.left input.new) bytes) }
{
    let bytes = read_all(alloc, input, LONGEST_FILE + 1)?;
    list_file(alloc, &bytes, out, limit)
}
