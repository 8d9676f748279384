//! Prints the permutations of a file, each run on the calling thread alone.

ghost use Rattle.std.specs.Prelude.{◌≡◌, ◌≤◌, ◌||◌, List, Contains, Ok, length, map, true, IfErr, IsErrOf, IsTrue, IsUtf8};
ghost use Rattle.iso_lexer.specs.declared.limits.TheConstants.{LONGEST_FILE};
ghost use Rattle.sql_blocks.specs.Blocks.{blocks_of};
ghost use Rattle.spec_parser.specs.Trees.{EntryTree, entry_view, spec_view};
ghost use Rattle.spec_parser.specs.Stands.{Stands};
ghost use Rattle.permutation_lists.specs.Permutations.{permutations_of};
ghost use Rattle.spec_files.specs.Complete.{HasItsBlocks, HasItsSteps};
ghost use Rattle.spec_files.specs.Files.{File, FileIs};
ghost use Rattle.spec_files.specs.Prints.{Prints};
ghost use Rattle.spec_files.specs.Runs.{has_ended, is_refusal, IsOneTold, IsTold};
ghost use Rattle.report_text.specs.Said.{Said};
ghost use Rattle.plain_runs.specs.Alone.{IsOfFile, IsOfPrint};

use crate::one_run::run_alone;
use history_laws::laws::specs_have_their_blocks;
use iso_lexer::Sink;
use permutation_lists::Permutations;
use spec_files::{RunFault, read_file, write_permutation};
use spec_parser::{Entry, Spec};
use sql_blocks::Block;
use std::alloc::Global;

/// Runs a permutation, and writes its report.
fn print_one<W: Sink, N: Sink>(
    alloc: Global,
    spec: &Spec<'_>,
    blocks: &[Block<'_>],
    entries: &[Entry],
    out: &mut W,
    notes: &mut N,
) -> Result<(), RunFault>
    requires stands { Stands (spec_view spec.now) }
    requires blocks { HasItsBlocks (spec_view spec.now) (blocks_of blocks.now) }
    requires steps { HasItsSteps (spec_view spec.now) (map entry_view entries.now) }
    ensures told { IsTrue (has_ended result) → IsOneTold (spec_view spec.now) (blocks_of blocks.now) (map entry_view entries.now)
        (W.put_so_far out.old) (W.put_so_far out.new) (N.put_so_far notes.old) (N.put_so_far notes.new) result }
    ensures faults { IfErr result (IsOfPrint (W.failed out.new || N.failed notes.new)) }
{
    let engine = run_alone(alloc, spec, blocks, entries)?;
    write_permutation(alloc, spec, entries, engine.history(), out, notes)?;
    Ok(())
}

/// Runs the permutations of a spec, up to so many, and writes their reports.
fn print_all<W: Sink, N: Sink>(
    alloc: Global,
    spec: &Spec<'_>,
    blocks: &[Block<'_>],
    out: &mut W,
    notes: &mut N,
    limit: u64,
) -> Result<(), RunFault>
    requires stands { Stands (spec_view spec.now) }
    requires blocks { HasItsBlocks (spec_view spec.now) (blocks_of blocks.now) }
    requires steps { (p : List EntryTree) → Contains (permutations_of (spec_view spec.now)) p → HasItsSteps (spec_view spec.now) p }
    ensures told { IsTrue (has_ended result) →
        ((said : Said) × Prints (spec_view spec.now) (blocks_of blocks.now) limit (permutations_of (spec_view spec.now)) said
        × IsTold (W.put_so_far out.old) (W.put_so_far out.new) (N.put_so_far notes.old) (N.put_so_far notes.new) result said) }
    ensures faults { IfErr result (IsOfPrint (W.failed out.new || N.failed notes.new)) }
{
    let mut permutations = Permutations::of(alloc, spec)?;
    let mut left = limit;
    while permutations.advance(alloc)? {
        if left == 0 {
            return Err(RunFault::TooManyPermutations);
        }
        left -= 1;
        print_one(alloc, spec, blocks, permutations.entries(), out, notes)?;
    }
    Ok(())
}

/// Runs the permutations of the spec file that these bytes are, up to so many, one after the other on the calling thread, and
/// writes their reports: what `run_spec` prints behind the first line. After `limit` permutations, with one more there, the run
/// ends; so it does after a setup that fails or waits. No run of a permutation fails but for want of memory.
pub fn print_alone<W: Sink, N: Sink>(
    alloc: Global,
    bytes: &[u8],
    out: &mut W,
    notes: &mut N,
    limit: u64,
) -> Result<(), RunFault>
    ensures told { IsTrue (has_ended result) →
        ((file : File) × (said : Said) × FileIs bytes.now (Ok file) × Prints file.spec file.blocks limit (permutations_of file.spec) said
        × IsTold (W.put_so_far out.old) (W.put_so_far out.new) (N.put_so_far notes.old) (N.put_so_far notes.new) result said) }
    ensures faults { IfErr result (IsOfFile bytes.now (W.failed out.new || N.failed notes.new)) }
    ensures room { IsErrOf result RunFault.Memory → (length bytes.now ≤ LONGEST_FILE) × IsUtf8 bytes.now }
    ensures untouched { IfErr result (λ e. is_refusal e ≡ true → (out.new ≡ out.old) × (notes.new ≡ notes.old)) }
{
    specs_have_their_blocks();
    let file = read_file(alloc, bytes)?;
    print_all(alloc, &file.spec, &file.blocks, out, notes, limit)
}
