//! What stands between the tokens of a script, where a script fails, and what changes no token.
//!
//! Each is a law of `avs_lex`'s definitions `Tokens` and `LexFault`, and the contract of a function with an empty body.
#![tactic(auto)]

ghost use Rattle.lex_laws.specs.Case.{CaseKeepsBytes, CaseKeepsFaults, CaseKeepsTokens};
ghost use Rattle.lex_laws.specs.EndLine.{RestIsNotRead};
ghost use Rattle.lex_laws.specs.Faults.{EachTextFailsOrNot, FaultsAreKnown, FaultsExclude};
ghost use Rattle.lex_laws.specs.Gaps.{EndIsTheEnd, OnlyGaps, OnlyGapsBeforeFault};
ghost use Rattle.lex_laws.specs.Newlines.{EachNewlineIsPlaced, NewlineTokens};

/// Before each token of a text, from the end of the token before it, stand blanks, comments, joined lines, and newlines
/// inside parentheses, and nothing else. The script ends at the end of the text or before a line `__END__`. Where a
/// text has a fault, the same holds up to the fault.
pub fn only_gaps()
    ensures tokens { OnlyGaps }
    ensures ends { EndIsTheEnd }
    ensures fault { OnlyGapsBeforeFault }
{}

/// A text fails where a float, a number that is too large, an open string, an open comment, or a character with which
/// nothing begins comes after what is read, and only there. At most one of these begins a text. Each text has tokens
/// or fails, never both, and it fails in one way.
pub fn faults_are_known()
    ensures known { FaultsAreKnown }
    ensures exclude { FaultsExclude }
    ensures one { EachTextFailsOrNot }
{}

/// Two texts that agree up to the end of a line `__END__`, before which the script ends, have the same tokens.
pub fn rest_is_not_read()
    ensures { RestIsNotRead }
{}

/// A newline token is one newline outside parentheses that no `\` joins to the next line, so several newlines in a row
/// are several tokens. Each newline before the end is such a token, or is in a string, in a comment or in a joined
/// line, or is inside parentheses.
pub fn newlines_are_tokens()
    ensures tokens { NewlineTokens }
    ensures each { EachNewlineIsPlaced }
{}

/// Two texts that differ in nothing but the case of letters have the same tokens, or the same fault, if the word
/// `__END__` is at the same offsets in both. So the names in them differ in nothing but case.
pub fn case_is_not_read()
    ensures tokens { CaseKeepsTokens }
    ensures faults { CaseKeepsFaults }
    ensures bytes { CaseKeepsBytes }
{}
