//! What is so of every text.

ghost use Rattle.spec_parser.specs.Laws.{OneAnswer, ReadsAreFiles, FaultsAreFirst, StopsAreFirst, FilesAreRead, LimitsAreFirst, LimitsAreNames};
ghost use Rattle.spec_parser.specs.Laws.{SpecsAreExact, RepeatsAreExact, UndefinedAreExact, SpecsStand, SpecsAreSlices};

/// A text says one thing, or has one fault.
pub fn one_answer()
    ensures { OneAnswer }
{
    iso_lexer::one_reading();
}

/// What is read whole is a file of the grammar, within the limits.
pub fn reads_are_files()
    ensures { ReadsAreFiles }
{}

/// Of tokens, and of texts: the tokens before a stop begin a file of the grammar, and what is told as expected can follow
/// them; with the next token they begin none, or are at a limit.
pub fn faults_are_first()
    ensures tokens { FaultsAreFirst }
    ensures texts { StopsAreFirst }
{}

/// A file of the grammar is read whole where it is within the limits, and nowhere else.
pub fn files_are_read()
    ensures { FilesAreRead }
{}

/// Of tokens, and of texts: a limit is told before the first name that is over it.
pub fn limits_are_first()
    ensures tokens { LimitsAreFirst }
    ensures texts { LimitsAreNames }
{}

/// A text is read as a spec exactly where it is that spec file.
pub fn specs_are_exact()
    ensures { SpecsAreExact }
{}

/// A step name is refused exactly where it is the first that an earlier step has.
pub fn repeats_are_exact()
    ensures { RepeatsAreExact }
{}

/// A name of a permutation is refused exactly where it is the first that no step has.
pub fn undefined_are_exact()
    ensures { UndefinedAreExact }
{}

/// The numbers in a spec name steps that are there, its counts are within the limits, and its blocks are numbered in file
/// order.
pub fn specs_stand()
    ensures { SpecsStand }
{}

/// Each block and each name of a spec is a slice of its text.
pub fn specs_are_slices()
    ensures { SpecsAreSlices }
{
    iso_lexer::tokens_are_slices();
}
