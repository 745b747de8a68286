// The ends of lines, joined lines, and the line that ends a script.
ghost use Rattle.std.specs.Prelude.{◌≡◌, ◌<◌, length};
ghost use Rattle.avs_lex.specs.Piece as s;

use crate::piece::Piece;
use crate::run::{blanks_len, byte_at};
use crate::{LexKind, TokenKind};

fn without_blanks(rest: &[u8]) -> &[u8]
    ensures { result.now ≡ s.without_blanks rest.now }
{
    &rest[blanks_len(rest)..]
}

fn ends_line(rest: &[u8]) -> bool
    ensures { result ≡ s.ends_line rest.now }
{
    rest.is_empty() || rest[0] == b'\n'
}

/// Whether the rest begins with a line that ends the script.
pub fn is_end_line(rest: &[u8]) -> bool
    ensures { result ≡ s.is_end_line rest.now }
{
    let word = without_blanks(rest);
    word.starts_with(b"__END__") && ends_line(without_blanks(&word[7..]))
}

/// What a newline begins.
pub fn line_end(open_parentheses: usize, rest: &[u8]) -> Piece
    requires { 0 < length rest.now }
    ensures { result ≡ s.line_end open_parentheses rest.now }
{
    let blanks = blanks_len(&rest[1..]);
    if byte_at(rest, 1 + blanks) == b'\\' {
        Piece::Blank(2 + blanks)
    } else if open_parentheses == 0 {
        Piece::One(TokenKind::Newline, 1)
    } else {
        Piece::Blank(1)
    }
}

/// What a `\` begins.
pub fn joined(rest: &[u8]) -> Piece
    requires { 0 < length rest.now }
    ensures { result ≡ s.joined rest.now }
{
    let blanks = blanks_len(&rest[1..]);
    if rest.len() == 1 + blanks {
        Piece::Blank(1 + blanks)
    } else if byte_at(rest, 1 + blanks) == b'\n' {
        Piece::Blank(2 + blanks)
    } else {
        Piece::Fault(LexKind::BadChar)
    }
}
