// Runs of characters of one class.
ghost use Rattle.std.specs.Prelude.{◌≡◌, ◌≤◌, ◌<◌, ◌==◌, length, slice_index, not};
ghost use Rattle.std.specs.List.{prefix_len, position_or_len};
ghost use Rattle.std.specs.Char.{is_ascii_digit, is_ascii_hexdigit};
ghost use Rattle.avs_lex.specs.Spelling as c;

use crate::characters::{continues_name, is_blank};

/// The byte at an offset, and 0 after the end.
pub fn byte_at(rest: &[u8], offset: usize) -> u8
    ensures { result ≡ slice_index rest.now offset }
{
    rest.get(offset).copied().unwrap_or(0)
}

/// How many blanks there are at the front.
pub fn blanks_len(rest: &[u8]) -> usize
    ensures size { result ≡ prefix_len c.is_blank rest.now }
    ensures within { result ≤ length rest.now }
{
    rest.iter().take_while(|byte| is_blank(**byte)).count()
}

/// How many characters of a name there are at the front.
pub fn name_len(rest: &[u8]) -> usize
    ensures size { result ≡ prefix_len c.continues_name rest.now }
    ensures within { result ≤ length rest.now }
{
    rest.iter()
        .take_while(|byte| continues_name(**byte))
        .count()
}

/// How many decimal digits there are at the front.
pub fn digits_len(rest: &[u8]) -> usize
    ensures size { result ≡ prefix_len is_ascii_digit rest.now }
    ensures within { result ≤ length rest.now }
{
    rest.iter().take_while(|byte| byte.is_ascii_digit()).count()
}

/// How many hexadecimal digits there are at the front.
pub fn hexdigits_len(rest: &[u8]) -> usize
    ensures size { result ≡ prefix_len is_ascii_hexdigit rest.now }
    ensures within { result ≤ length rest.now }
{
    rest.iter()
        .take_while(|byte| byte.is_ascii_hexdigit())
        .count()
}

/// How many bytes there are before the first newline.
pub fn line_len(rest: &[u8]) -> usize
    ensures size { result ≡ position_or_len c.is_newline rest.now }
    ensures within { result ≤ length rest.now }
{
    rest.iter().take_while(|byte| **byte != b'\n').count()
}
