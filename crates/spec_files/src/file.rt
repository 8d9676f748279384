//! A file as a spec with the statements of its blocks.

ghost use Rattle.std.specs.Prelude.{◌≡◌, ◌≢◌, ◌≤◌, length, true, Ok, Err, IsUtf8, IfOk, IfErr, IsErrOf};
ghost use Rattle.iso_lexer.specs.declared.limits.TheConstants.{LONGEST_FILE};
ghost use Rattle.spec_parser.specs.Trees.{spec_view};
ghost use Rattle.spec_parser.specs.Stands.{Stands};
ghost use Rattle.spec_files.specs.BlockAnswers.{file_view};
ghost use Rattle.spec_files.specs.Files.{FileIs};
ghost use Rattle.spec_files.specs.Runs.{is_refusal, is_of_reading};

use crate::blocks::{blocks_in, read_blocks};
use crate::fault::RunFault;
use iso_lexer::{Fault, FaultKind, LONGEST_FILE};
use spec_parser::{Spec, parse_spec, specs_are_slices, specs_stand};
use sql_blocks::Block;
use std::alloc::Global;

/// A spec, and the statements of its blocks in file order.
pub struct SpecFile<'a> {
    pub spec: Spec<'a>,
    pub blocks: Vec<Block<'a>>,
}

/// Written out, so that a crate that drops one calls this, and needn't prove anew how each statement of a block is dropped.
impl<'a> Drop for SpecFile<'a> {
    fn drop(self) {
        let SpecFile { spec: _, blocks: _ } = self;
    }
}

/// The text of a file that is not too long and in UTF-8.
fn text_of(bytes: &[u8]) -> Result<&str, RunFault>
    ensures ok { IfOk result (λ text. (text.now ≡ bytes.now) × (length bytes.now ≤ LONGEST_FILE) × IsUtf8 bytes.now) }
    ensures err { IfErr result (λ e. FileIs bytes.now (Err e)) }
    ensures kinds { IfErr result (λ e. is_refusal e ≡ true) }
    ensures read { IfErr result (λ e. is_of_reading e ≡ true) }
{
    if bytes.len() > LONGEST_FILE {
        return Err(RunFault::Lex(Fault {
            kind: FaultKind::FileTooLong,
            at: LONGEST_FILE,
        }));
    }
    match std::str::from_utf8(bytes) {
        Ok(text) => Ok(text),
        Err(fault) => Err(RunFault::NotUtf8 {
            at: fault.valid_up_to(),
        }),
    }
}

/// The spec that a file is, with the statements of its blocks, or why the file is refused.
pub fn read_file(alloc: Global, bytes: &[u8]) -> Result<SpecFile<'_>, RunFault>
    ensures ok { IfOk result (λ file. FileIs bytes.now (Ok (file_view file))) }
    ensures stands { IfOk result (λ file. Stands (spec_view file.spec)) }
    ensures err { IfErr result (λ e. e ≢ RunFault.Memory → FileIs bytes.now (Err e)) }
    ensures kinds { IfErr result (λ e. is_of_reading e ≡ true) }
    // What is too long or no UTF-8 is refused before anything grows.
    ensures room { IsErrOf result RunFault.Memory → (length bytes.now ≤ LONGEST_FILE) × IsUtf8 bytes.now }
{
    specs_stand();
    specs_are_slices();
    let text = text_of(bytes)?;
    let spec = parse_spec(alloc, text)?;
    let parts = blocks_in(alloc, &spec)?;
    let blocks = read_blocks(alloc, &parts)?;
    Ok(SpecFile { spec, blocks })
}
