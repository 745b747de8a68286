// What a script has at an offset.
ghost use Rattle.std.specs.Prelude.{◌≡◌, ◌<◌, length};
ghost use Rattle.avs_lex.specs.Piece as s;
ghost use Rattle.avs_lex.specs.Piece.{IsWithin};

use crate::characters::begins_name;
use crate::enclosed::{block_comment, nested_comment, string};
use crate::line::{is_end_line, joined, line_end};
use crate::number::{decimal, hexadecimal};
use crate::punctuation::punctuation;
use crate::run::{byte_at, line_len, name_len};
use crate::{LexKind, TokenKind};

/// What the rest of a script begins with, and its size in bytes.
#[derive(Clone, Copy)]
pub enum Piece {
    /// A blank, a comment, or a joined line.
    Blank(usize),
    /// A token.
    One(TokenKind, usize),
    /// The end of the script.
    EndOfScript,
    /// A fault.
    Fault(LexKind),
}

// What the rest of a script begins with, where this many parentheses are open.
#[tactic(auto, unfolding(crate::specs::Piece::front))]
fn front(open_parentheses: usize, rest: &[u8]) -> Piece
    requires { 0 < length rest.now }
    ensures { result ≡ s.front open_parentheses rest.now }
{
    let first = rest[0];
    let second = byte_at(rest, 1);
    if begins_name(first) {
        return Piece::One(TokenKind::Ident, name_len(rest));
    }
    if first.is_ascii_digit() {
        return decimal(rest);
    }
    match first {
        b' ' | b'\t' | b'\r' => Piece::Blank(1),
        b'\n' => line_end(open_parentheses, rest),
        b'\\' => joined(rest),
        b'#' => Piece::Blank(line_len(rest)),
        b'/' => {
            if second == b'*' {
                block_comment(rest)
            } else {
                punctuation(rest)
            }
        }
        b'[' => {
            if second == b'*' {
                nested_comment(rest)
            } else {
                Piece::Fault(LexKind::BadChar)
            }
        }
        b'"' => string(rest),
        b'$' => hexadecimal(rest),
        b'.' => {
            if second.is_ascii_digit() {
                Piece::Fault(LexKind::FloatLiteral)
            } else {
                punctuation(rest)
            }
        }
        _ => punctuation(rest),
    }
}

/// What the rest of a script begins with, or the end of the script, where this many parentheses are open.
pub fn piece_at(begins_line: bool, open_parentheses: usize, rest: &[u8]) -> Piece
    ensures piece { result ≡ s.piece begins_line open_parentheses rest.now }
    ensures within { IsWithin rest.now result }
{
    if rest.is_empty() || (begins_line && is_end_line(rest)) {
        Piece::EndOfScript
    } else {
        front(open_parentheses, rest)
    }
}
