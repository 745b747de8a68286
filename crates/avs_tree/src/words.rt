// The words of the language: the reserved words, and the words for the types of parameters.
ghost use Rattle.std.specs.Prelude.{◌≡◌, map};
ghost use Rattle.std.specs.Str.{str_eq_ignore_ascii_case};
ghost use Rattle.avs_tree.specs.Lexeme.{meaning_in, keyword_of, type_word_of, word_of_keyword, word_of_type};

/// A reserved word.
#[derive(Clone, Copy, Debug, PartialEq, Eq)]
pub enum Keyword {
    Function,
    Global,
    Return,
    If,
    Else,
    While,
    For,
    True,
    False,
    End,
}

/// The type of a parameter.
#[derive(Clone, Copy, Debug, PartialEq, Eq)]
pub enum TypeWord {
    Clip,
    Int,
    String,
    Bool,
    Val,
}

// A keyword is written as its first word here.
const KEYWORDS: [(&str, Keyword); 12] = [
    ("function", Keyword::Function),
    ("global", Keyword::Global),
    ("return", Keyword::Return),
    ("if", Keyword::If),
    ("else", Keyword::Else),
    ("while", Keyword::While),
    ("for", Keyword::For),
    ("true", Keyword::True),
    ("yes", Keyword::True),
    ("false", Keyword::False),
    ("no", Keyword::False),
    ("__END__", Keyword::End),
];

const TYPE_WORDS: [(&str, TypeWord); 5] = [
    ("clip", TypeWord::Clip),
    ("int", TypeWord::Int),
    ("string", TypeWord::String),
    ("bool", TypeWord::Bool),
    ("val", TypeWord::Val),
];

// Whether two words are the same without regard to case.
fn same_word(a: &str, b: &str) -> bool
    ensures { result ≡ str_eq_ignore_ascii_case a.now b.now }
{
    a.eq_ignore_ascii_case(b)
}

/// What a word means by a table, without regard to case: what stands in the first row of this word.
pub fn meaning<A: Copy>(mut table: &[(&str, A)], word: &str) -> Option<A>
    ensures { result ≡ meaning_in (map (λ row. (row.0.now, row.1)) table.entry.now) word.now }
{
    while let [row, rest @ ..] = table {
        if same_word(word, row.0) {
            return Some(row.1);
        }
        table = rest;
    }
    None
}

/// The reserved word that this is.
#[tactic(auto, unfolding(crate::specs::Lexeme::keyword_of))]
pub fn reserved_word(word: &str) -> Option<Keyword>
    ensures { result ≡ keyword_of word.now }
{
    meaning(&KEYWORDS, word)
}

/// The type that a word names.
#[tactic(auto, unfolding(crate::specs::Lexeme::type_word_of))]
pub fn type_word(word: &str) -> Option<TypeWord>
    ensures { result ≡ type_word_of word.now }
{
    meaning(&TYPE_WORDS, word)
}

impl Keyword {
    /// How the keyword is written.
    pub fn word(self) -> &'static str
        ensures { result.now ≡ word_of_keyword self }
    {
        let mut table = KEYWORDS.as_slice();
        while let [row, rest @ ..] = table {
            if row.1 == self {
                return row.0;
            }
            table = rest;
        }
        ""
    }
}

impl TypeWord {
    /// How the type is written.
    pub fn word(self) -> &'static str
        ensures { result.now ≡ word_of_type self }
    {
        let mut table = TYPE_WORDS.as_slice();
        while let [row, rest @ ..] = table {
            if row.1 == self {
                return row.0;
            }
            table = rest;
        }
        ""
    }
}
