//! What the definitions of the words and of a quoted line come to.

ghost use Rattle.program_words.specs.Options.{WorkedWords};
ghost use Rattle.program_words.specs.Quote.{WorkedQuotes};

/// What some words give, and why others are refused.
pub fn words_are_read()
    ensures { WorkedWords }
{}

/// How some lines are quoted.
pub fn lines_are_quoted()
    ensures { WorkedQuotes }
{}
