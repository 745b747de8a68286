// Laws on the place of a fault, each the contract of a function with an empty body.
ghost use Rattle.avs_tree.specs.Grammar.{OneTree};
ghost use Rattle.avs_tree.specs.Laws.{Exact, Accepted, OneStop, OneDeep, NeverBoth, EndIsTold, OneToken, ScriptsAreShort};
ghost use Rattle.avs_tree.specs.Examples.{Examples};

/// The token that the machine names is the first one such that no script begins with the tokens up to it, or the one at which
/// the nesting becomes too deep, whichever is earlier.
pub fn place_is_exact()
    ensures { Exact }
{}

/// Each script within the limit of nesting is accepted, as its tree.
pub fn scripts_are_accepted()
    ensures { Accepted }
{}

/// The facts of a place hold of one token at most, and of one kind of fault.
pub fn one_place()
    ensures stop { OneStop }
    ensures deep { OneDeep }
    ensures apart { NeverBoth }
{}

/// Tokens have at most one tree, however deep it nests.
pub fn one_tree()
    ensures { OneTree }
{}

/// Tokens that end with the end of a script are accepted, or one of them is told as the place of a fault.
pub fn end_is_told()
    ensures { EndIsTold }
{}

/// What a token does depends on no token after it.
pub fn one_token()
    ensures { OneToken }
{}

/// A statement has fewer expressions than its script has tokens.
pub fn scripts_are_short()
    ensures { ScriptsAreShort }
{}

/// The places of the faults in the scripts of a table.
pub fn examples()
    ensures { Examples }
{}
