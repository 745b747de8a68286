// A position in the text of a script, with its line.
ghost use Rattle.std.specs.Prelude.{◌≡◌, ◌+◌, ◌-◌, ◌<◌, ◌≤◌, ◌^◌, length, count_by};
ghost use Rattle.avs_lex.specs.Spelling as c;
ghost use Rattle.avs_lex.specs.Cursor.{IsIn, Steps, token_of};
ghost use Rattle.avs_lex.specs.Tokens.{start_of};

use crate::{Token, TokenKind};

/// A position in a script, and the bytes from there on.
#[derive(Clone, Copy)]
pub struct Cursor<'t> {
    pub rest: &'t [u8],
    pub offset: u32,
    pub line: u32,
    pub begins_line: bool,
}

// How many lines end in the bytes.
fn newlines(bytes: &[u8]) -> usize
    ensures count { result ≡ count_by c.is_newline bytes.now }
    ensures within { result ≤ length bytes.now }
{
    bytes.iter().filter(|byte| **byte == b'\n').count()
}

impl<'t> Cursor<'t> {
    /// The start of a script, after a first character U+FEFF.
    pub fn new(text: &'t [u8]) -> Self
        ensures starts { result.offset ≡ start_of text.now }
        ensures offset { IsIn text.now result }
    {
        let start = if text.starts_with(b"\xEF\xBB\xBF") {
            3
        } else {
            0
        };
        let (_, rest) = text.split_at(start);
        Cursor {
            rest,
            offset: start as u32,
            line: 1,
            begins_line: true,
        }
    }

    /// The position that is `size` bytes further on.
    pub fn past(self, size: usize) -> Self
        requires some { 0 < size }
        requires within { size ≤ length self.rest.now }
        requires fits { self.offset + length self.rest.now < 2 ^ 32 - 1 }
        requires lines { self.line ≤ self.offset + 1 }
        ensures { Steps self.entry size result }
    {
        let (piece, rest) = self.rest.split_at(size);
        Cursor {
            rest,
            offset: self.offset + size as u32,
            line: self.line + newlines(piece) as u32,
            begins_line: piece[size - 1] == b'\n',
        }
    }

    /// The token of `size` bytes that begins here.
    pub fn token(&self, kind: TokenKind, size: usize) -> Token
        requires { self.now.offset + size < 2 ^ 32 }
        ensures { result ≡ token_of self.now kind size }
    {
        Token {
            kind,
            start: self.offset,
            end: self.offset + size as u32,
            line: self.line,
        }
    }
}
