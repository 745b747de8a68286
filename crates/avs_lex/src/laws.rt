// Laws of the definition of tokens, each the contract of a function with an empty body.
ghost use Rattle.avs_lex.specs.Laws.{BadCharBeginsNothing, EachTextHasOneReading, NestedCommentsEnd, TokensAreListed, TokensAreLongest};
ghost use Rattle.avs_lex.specs.Written.{WrittenIsRead};

/// Each text has either one list of tokens or one first fault.
pub fn one_reading()
    ensures { EachTextHasOneReading }
{}

/// The tokens of a text follow one another in it, and each is spelled as its kind says.
pub fn tokens_listed()
    ensures { TokensAreListed }
{}

/// No longer piece from a token's start is spelled as a token.
pub fn tokens_longest()
    ensures { TokensAreLongest }
{}

/// A script that is written word by word, with a blank after each word or a newline where its line ends, has these words
/// as its tokens.
pub fn written_words_are_read()
    ensures { WrittenIsRead }
{}

/// Where the first fault is a `BadChar`, no token, blank, comment or joined line begins.
pub fn bad_char_begins_nothing()
    ensures { BadCharBeginsNothing }
{}

/// A comment between `[*` and `*]` ends where its grammar says.
pub fn nested_comments_end()
    ensures { NestedCommentsEnd }
{}
