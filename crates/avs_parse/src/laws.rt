// Laws of the tree of a text, each the contract of a function with an empty body.
ghost use Rattle.avs_parse.specs.Laws.{FirstFaultIsFound, FirstFaultIsTold, NestingIsTold, ScriptIsFound, SyntaxIsTold, TokensAreFound};

/// `tokens_of` gives the tokens of a text exactly where it has tokens.
pub fn tokens_are_found()
    ensures { TokensAreFound }
{}

/// `tokens_of` gives a fault and its line exactly where that is the first fault of the text.
pub fn first_fault_is_found()
    ensures { FirstFaultIsFound }
{}

/// `script_of` gives a tree and a last line exactly where the tokens of the text have that tree and end on that line.
pub fn script_is_found()
    ensures { ScriptIsFound }
{}

/// `script_of` gives a lexical fault and its line exactly where that is the first fault of the text.
pub fn first_fault_is_told()
    ensures { FirstFaultIsTold }
{}

/// `script_of` gives a syntax fault and its line exactly where the text has tokens, and at one of them, on that line, no
/// script goes on.
pub fn syntax_is_told()
    ensures { SyntaxIsTold }
{}

/// `script_of` gives too deep a nesting and its line exactly where the text has tokens, and at one of them, on that line,
/// the nesting becomes too deep.
pub fn nesting_is_told()
    ensures { NestingIsTold }
{}
