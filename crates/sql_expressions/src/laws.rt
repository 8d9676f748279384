//! What is so of every list of tokens.

ghost use Rattle.sql_expressions.specs.Laws.{DeepIsFirst, ExpressionsAreRead, FaultsAreFirst, FrontsAreTaken};

/// The tokens before a refusal begin an expression, whatever its depth; with the next token none does. It is LeftOut or Syntax by that token.
pub fn faults_are_first()
    ensures { FaultsAreFirst }
{}

/// The tokens before what is too deep begin an expression, whatever its depth; with the next token none within the limits does.
pub fn deep_is_first()
    ensures { DeepIsFirst }
{}

/// What is read as an expression depends on its tokens and the one behind them alone.
pub fn fronts_are_taken()
    ensures { FrontsAreTaken }
{}

/// An expression at the front of the tokens, whatever its depth, is read whole, or is too deep.
pub fn expressions_are_read()
    ensures { ExpressionsAreRead }
{}
