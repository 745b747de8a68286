// Why a text has no tokens.
ghost use Rattle.std.specs.Prelude.{◌≡◌};
ghost use Rattle.avs_lex.specs.Tokens.{lex_kind_name};

use crate::Token;
use std::alloc::AllocFailed;

/// What is wrong at an offset of a text.
#[derive(Clone, Copy, Debug, PartialEq, Eq)]
pub enum LexKind {
    /// A number with a `.`.
    FloatLiteral,
    /// A number over its bound.
    IntRange,
    /// A string without its closing quotes.
    OpenString,
    /// A comment without its end.
    OpenComment,
    /// Any other character.
    BadChar,
}

impl LexKind {
    /// The name of the fault, as it is printed.
    pub fn name(self) -> &'static str
        ensures { result.now ≡ lex_kind_name self }
    {
        match self {
            LexKind::FloatLiteral => "FloatLiteral",
            LexKind::IntRange => "IntRange",
            LexKind::OpenString => "OpenString",
            LexKind::OpenComment => "OpenComment",
            LexKind::BadChar => "BadChar",
        }
    }
}

/// Why a text has no tokens.
#[derive(Clone, Copy, Debug, PartialEq, Eq)]
pub enum LexError {
    /// The first fault of the text, and its line.
    Fault { kind: LexKind, line: u32 },
    /// Out of memory.
    Memory,
}

impl From<AllocFailed<Token>> for LexError {
    ghost use Rattle.std.specs.Prelude.{◌≡◌};
    ghost use Rattle.avs_lex.specs.declared.fault.LexError.TheVariants.{Memory};

    ghost from_gives = { λ _ error. error ≡ Memory };

    fn from(_: AllocFailed<Token>) -> LexError {
        LexError::Memory
    }
}
