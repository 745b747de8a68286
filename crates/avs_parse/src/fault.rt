// Why tokens have no tree, and why a text has none.
use avs_lex::LexKind;

/// Why there is no tree. Tokens are counted from 0.
#[derive(Clone, Copy, Debug, PartialEq, Eq)]
pub enum ParseError {
    /// The grammar does not allow this token here.
    Syntax { token: u32, line: u32 },
    /// This token opens more levels than the limit.
    NestLimit { token: u32, line: u32 },
    /// Out of memory.
    Memory,
}

/// Why a text has no tree. Lines are counted from 1.
#[derive(Clone, Copy)]
pub enum LoadFault {
    /// The first fault of the text, which has no tokens.
    Lex { kind: LexKind, line: u32 },
    /// The grammar does not allow a token on this line.
    Syntax { line: u32 },
    /// A token on this line opens more levels than the limit.
    NestLimit { line: u32 },
    /// Out of memory.
    Memory,
}
