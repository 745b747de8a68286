// Operators, brackets and separators at the start of a text.
ghost use Rattle.std.specs.Prelude.{◌≡◌, ◌<◌, [], ◌∷◌, length};
ghost use Rattle.avs_lex.specs.Spelling.{pairs, singles, first_of};
ghost use Rattle.avs_lex.specs.Piece as s;

use crate::piece::Piece;
use crate::run::byte_at;
use crate::{LexKind, TokenKind};

// The punctuation of two characters.
fn pair(first: u8, second: u8) -> Option<TokenKind>
    ensures { result ≡ first_of pairs (first ∷ second ∷ []) }
{
    match (first, second) {
        (b'=', b'=') => Some(TokenKind::Equal),
        (b'!', b'=') => Some(TokenKind::NotEqual),
        (b'<', b'=') => Some(TokenKind::LessEqual),
        (b'>', b'=') => Some(TokenKind::GreaterEqual),
        (b'+', b'+') => Some(TokenKind::PlusPlus),
        (b'&', b'&') => Some(TokenKind::AndAnd),
        (b'|', b'|') => Some(TokenKind::OrOr),
        _ => None,
    }
}

// The punctuation of one character.
fn single(first: u8) -> Option<TokenKind>
    ensures { result ≡ first_of singles (first ∷ []) }
{
    match first {
        b'(' => Some(TokenKind::LeftParen),
        b')' => Some(TokenKind::RightParen),
        b'{' => Some(TokenKind::LeftBrace),
        b'}' => Some(TokenKind::RightBrace),
        b',' => Some(TokenKind::Comma),
        b'.' => Some(TokenKind::Dot),
        b'=' => Some(TokenKind::Assign),
        b'<' => Some(TokenKind::Less),
        b'>' => Some(TokenKind::Greater),
        b'+' => Some(TokenKind::Plus),
        b'-' => Some(TokenKind::Minus),
        b'*' => Some(TokenKind::Times),
        b'/' => Some(TokenKind::Divide),
        b'%' => Some(TokenKind::Remainder),
        b'!' => Some(TokenKind::Not),
        b'?' => Some(TokenKind::Question),
        b':' => Some(TokenKind::Colon),
        _ => None,
    }
}

/// The longest punctuation at the front.
pub fn punctuation(rest: &[u8]) -> Piece
    requires { 0 < length rest.now }
    ensures { result ≡ s.punctuation rest.now }
{
    let (first, second) = (rest[0], byte_at(rest, 1));
    if let Some(kind) = pair(first, second) {
        return Piece::One(kind, 2);
    }
    match single(first) {
        Some(kind) => Piece::One(kind, 1),
        None => Piece::Fault(LexKind::BadChar),
    }
}
