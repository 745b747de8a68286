// The lexer: a text becomes its tokens, or the first lexical fault.
ghost use Rattle.std.specs.Prelude.{◌≡◌, ◌+◌, ◌-◌, ◌<◌, ◌≤◌, ◌^◌, length, IfOk, IfErr};
ghost use Rattle.avs_lex.specs.Tokens.{IsTokenList, Tokens, IsFault, open_parentheses_after};

use crate::cursor::Cursor;
use crate::piece::{Piece, piece_at};
use crate::{LexError, Token, TokenKind};
use std::alloc::Global;

// How many parentheses are open after a token.
fn open_parentheses_after(kind: TokenKind, open_parentheses: usize) -> usize
    requires { open_parentheses < 2 ^ 32 }
    ensures value { result ≡ open_parentheses_after kind open_parentheses }
    ensures bound { result ≤ open_parentheses + 1 }
{
    match kind {
        TokenKind::LeftParen => open_parentheses + 1,
        TokenKind::RightParen => open_parentheses.saturating_sub(1),
        _ => open_parentheses,
    }
}

/// The tokens of a script, of which the last is its end, or its first fault. It takes time in proportion to the text's
/// size.
#[tactic(auto, using(crate::proofs::CursorLemmas::IsIn_steps))]
pub fn lex(alloc: Global, text: &str) -> Result<Vec<Token>, LexError>
    requires { length text.now < 2 ^ 32 - 1 }
    ensures tokens { IfOk result (λ tokens. Tokens text.now tokens.items) }
    ensures listed { IfOk result (λ tokens. IsTokenList text.now tokens.items) }
    ensures fault { IfErr result (IsFault text.now) }
{
    let mut tokens = Vec::new(alloc);
    let mut cursor = Cursor::new(text.as_bytes());
    let mut open_parentheses = 0;
    'pieces: loop {
        match piece_at(cursor.begins_line, open_parentheses, cursor.rest) {
            Piece::Blank(size) => {
                cursor = cursor.past(size);
                continue;
            }
            Piece::One(kind, size) => {
                tokens.push(cursor.token(kind, size))?;
                open_parentheses = open_parentheses_after(kind, open_parentheses);
                cursor = cursor.past(size);
                continue;
            }
            Piece::EndOfScript => {
                tokens.push(cursor.token(TokenKind::End, 0))?;
                return Ok(tokens);
            }
            Piece::Fault(kind) => {
                return Err(LexError::Fault {
                    kind,
                    line: cursor.line,
                });
            }
        }
    }
}
