// Comments between `/*` and `*/` or `[*` and `*]`, and strings between quotes.
ghost use Rattle.std.specs.Prelude.{◌≡◌, ◌<◌, ◌≤◌, length, drop, codes};
ghost use Rattle.avs_lex.specs.Piece as s;
ghost use Rattle.avs_lex.specs.Spelling as w;

use crate::piece::Piece;
use crate::{LexKind, TokenKind};

// The offset after the first occurrence of a word, searched for from an offset on.
#[tactic(auto, using(crate::proofs::WordLemmas::steps))]
fn through(word: &[u8], from: usize, rest: &[u8]) -> Option<usize>
    ensures { result ≡ w.through word.now from (drop from rest.now) }
{
    for offset in from..rest.len() {
        let (_, left) = rest.split_at(offset);
        if left.starts_with(word) {
            return Some(offset + word.len());
        }
    }
    None
}

// The offset after the nested comment at the front.
#[tactic(auto, using(crate::proofs::CommentLemmas::steps))]
fn nested_end(rest: &[u8]) -> Option<usize>
    requires { 2 ≤ length rest.now }
    ensures { result ≡ s.nested_end 0 2 (drop 2 rest.now) }
{
    let mut inner: usize = 0;
    let mut offset = 2;
    while offset + 1 < rest.len() {
        let (first, second) = (rest[offset], rest[offset + 1]);
        if first == b'[' && second == b'*' {
            inner += 1;
            offset += 2;
            continue;
        }
        if first == b'*' && second == b']' {
            if inner == 0 {
                return Some(offset + 2);
            }
            inner -= 1;
            offset += 2;
            continue;
        }
        offset += 1;
    }
    None
}

fn comment_to(end: Option<usize>) -> Piece
    ensures { result ≡ s.comment_to end }
{
    match end {
        Some(size) => Piece::Blank(size),
        None => Piece::Fault(LexKind::OpenComment),
    }
}

fn string_to(end: Option<usize>) -> Piece
    ensures { result ≡ s.string_to end }
{
    match end {
        Some(size) => Piece::One(TokenKind::Str, size),
        None => Piece::Fault(LexKind::OpenString),
    }
}

/// The comment that `/*` begins.
pub fn block_comment(rest: &[u8]) -> Piece
    ensures { result ≡ s.comment_to (w.through (codes "*/") 2 (drop 2 rest.now)) }
{
    comment_to(through(b"*/", 2, rest))
}

/// The comment that `[*` begins.
pub fn nested_comment(rest: &[u8]) -> Piece
    requires { 2 ≤ length rest.now }
    ensures { result ≡ s.comment_to (s.nested_end 0 2 (drop 2 rest.now)) }
{
    comment_to(nested_end(rest))
}

/// The string that a quote begins.
pub fn string(rest: &[u8]) -> Piece
    ensures { result ≡ s.string rest.now }
{
    if rest.starts_with(b"\"\"\"") {
        string_to(through(b"\"\"\"", 3, rest))
    } else {
        string_to(through(b"\"", 1, rest))
    }
}
