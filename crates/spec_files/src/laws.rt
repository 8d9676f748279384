//! What is so of every file.

ghost use Rattle.spec_files.specs.Laws.{FilesAreOneThing, FilesListOneThing, FilesSayOneThing};

use iso_lexer::one_sql_reading;
use permutation_plans::laws::each_has_one_history;
pub use permutation_plans::laws::one_history;
use spec_parser::one_answer;

/// The bytes of a file are one spec, or have one refusal.
pub fn one_file()
    ensures { FilesAreOneThing }
{
    one_answer();
    one_sql_reading();
}

/// What a file lists is a function of its bytes: one text, or one refusal.
pub fn one_list()
    ensures { FilesListOneThing }
{
    one_file();
}

/// What a run of a file says, up to so many permutations, is a function of its bytes: one text with its notes and its end,
/// or one refusal.
pub fn one_text()
    ensures { FilesSayOneThing }
{
    each_has_one_history();
    one_file();
}
