// Laws of the definitions, each the contract of a function with an empty body.
ghost use Rattle.avs_runtime.specs.Laws.{ExpressionIsFound};

/// `compile` gives an expression exactly where the text has tokens, these are one expression statement alone, its parts are
/// those of the expression, and that is a number.
pub fn expression_is_found()
    ensures { ExpressionIsFound }
{}
