// Decimal and hexadecimal numbers at the start of a text.
ghost use Rattle.std.specs.Prelude.{◌≡◌, ◌<◌, ◌≤◌, length, pos, Some, None, if◌then◌else◌, IsTrue};
ghost use Rattle.std.specs.List.{list_all};
ghost use Rattle.std.specs.Char.{digit_value, is_ascii_hexdigit};
ghost use Rattle.avs_lex.specs.Piece as s;
ghost use Rattle.avs_lex.specs.Spelling.{is_number, hexadecimal_digits, value};

use crate::piece::Piece;
use crate::run::{byte_at, digits_len, hexdigits_len};
use crate::{LexKind, TokenKind};

// How many hexadecimal digits 64 bits have.
const HEXADECIMAL_DIGITS: usize = 16;

// The value of a digit of base 36, and 36 for any other character.
fn digit_value(digit: u8) -> u8
    ensures value { result ≡ digit_value digit }
    ensures small { result ≤ 36 }
{
    match digit {
        b'0'..=b'9' => digit - b'0',
        b'A'..=b'Z' => digit - b'A' + 10,
        b'a'..=b'z' => digit - b'a' + 10,
        _ => 36,
    }
}

// The number that decimal digits write, if it is in range.
fn decimal_value(digits: &[u8]) -> Option<i64>
    ensures { let number = pos (value 10 digits.now) in result ≡ (if is_number number then Some number else None) }
{
    let mut number: u64 = 0;
    for digit in digits {
        number = number
            .checked_mul(10)?
            .checked_add(u64::from(digit_value(*digit)))?;
    }
    i64::try_from(number).ok()
}

// The number that hexadecimal digits write.
fn hexadecimal_value(digits: &[u8]) -> u64
    requires few { length digits.now ≤ hexadecimal_digits }
    requires digits { IsTrue (list_all is_ascii_hexdigit digits.now) }
    ensures { result ≡ value 16 digits.now }
{
    let mut number: u64 = 0;
    for digit in digits {
        number = 16 * number + u64::from(digit_value(*digit));
    }
    number
}

/// What a decimal digit begins.
pub fn decimal(rest: &[u8]) -> Piece
    ensures { result ≡ s.decimal rest.now }
{
    let size = digits_len(rest);
    if byte_at(rest, size) == b'.' {
        return Piece::Fault(LexKind::FloatLiteral);
    }
    match decimal_value(&rest[..size]) {
        Some(number) => Piece::One(TokenKind::Int(number), size),
        None => Piece::Fault(LexKind::IntRange),
    }
}

/// What a `$` begins.
pub fn hexadecimal(rest: &[u8]) -> Piece
    requires { 0 < length rest.now }
    ensures { result ≡ s.hexadecimal rest.now }
{
    let (_, rest) = rest.split_at(1);
    let size = hexdigits_len(rest);
    if size == 0 {
        return Piece::Fault(LexKind::BadChar);
    }
    if size > HEXADECIMAL_DIGITS {
        return Piece::Fault(LexKind::IntRange);
    }
    let number = hexadecimal_value(&rest[..size]);
    Piece::One(TokenKind::Int(number.cast_signed()), 1 + size)
}
