// What arguments may be, and what they say, where several crates ask it.
ghost use Rattle.std.specs.Prelude.{◌≡◌, ◌≤ℤ◌, pos, true};
ghost use Rattle.std.specs.List.{list_all, list_any};
ghost use Rattle.std.specs.Char.{to_ascii_uppercase};
ghost use Rattle.clip_term.specs.Blank as b;
ghost use Rattle.clip_term.specs.Refusals as r;
ghost use Rattle.clip_term.specs.Space as s;
ghost use Rattle.clip_term.specs.Filters as t;

use crate::{Channels, FilterFault};
use fv_io::Text;
use fv_plane::Colour;

/// The colour that counts where none is given, as $YYUUVV.
pub const BLACK: i32 = 0x10_80_80;

/// The greatest size of a weight of `GeneralConvolution`.
pub const MAX_WEIGHT: i32 = 1_024;

/// The greatest size of its bias.
pub const MAX_BIAS: i32 = 255;

/// Whether a number is a colour, which is 0 to $FFFFFF.
pub fn is_colour(number: i32) -> bool
    ensures { result ≡ r.is_colour number }
{
    number >= 0 && number <= 0xFF_FF_FF
}

/// The part of a colour $YYUUVV that a plane shows.
pub fn part_of(colour: u32, plane: u32) -> u8
    ensures { result ≡ r.part_of colour plane }
{
    match plane {
        0 => (colour / 65_536 % 256) as u8,
        1 => (colour / 256 % 256) as u8,
        _ => (colour % 256) as u8,
    }
}

/// The parts of a colour $YYUUVV.
pub fn colour_of(number: i32) -> Colour
    ensures { result ≡ b.colour_of number }
{
    let colour = number.unsigned_abs();
    Colour {
        y: part_of(colour, 0),
        u: part_of(colour, 1),
        v: part_of(colour, 2),
    }
}

/// Whether a number is the bits that a sample may have: 8, 10, 12, 14 or 16.
pub fn names_depth(bits: i32) -> bool
    ensures { result ≡ s.names_depth bits }
{
    matches!(bits, 8 | 10 | 12 | 14 | 16)
}

/// The bits of a sample, of a number that is one of these.
pub fn depth_of(bits: i32) -> u8
    requires { s.names_depth bits ≡ true }
    ensures { result ≡ r.nat_of bits }
{
    bits.unsigned_abs() as u8
}

// Whether the size of a number is over this.
fn is_over(most: i32, number: i32) -> bool
    requires { pos 0 ≤ℤ most }
    ensures { result ≡ r.is_over most number }
{
    number < -most || number > most
}

/// Whether a number may be the bias of `GeneralConvolution`.
pub fn is_bias(bias: i32) -> bool
    ensures { result ≡ r.is_bias bias }
{
    !is_over(MAX_BIAS, bias)
}

/// Whether a number may be a weight.
pub fn is_weight(entry: i32) -> bool
    ensures { result ≡ r.is_weight entry }
{
    !is_over(MAX_WEIGHT, entry)
}

fn are_weights(entries: &[i32]) -> bool
    ensures { result ≡ list_all r.is_weight entries.now }
{
    entries.iter().all(|entry| is_weight(*entry))
}

/// Whether numbers are a matrix: 9 or 25 weights.
pub fn is_matrix(entries: &[i32]) -> bool
    ensures { result ≡ r.is_matrix entries.now }
{
    (entries.len() == 9 || entries.len() == 25) && are_weights(entries)
}

fn is_channel(letter: u8) -> bool
    ensures { result ≡ t.is_channel letter }
{
    matches!(letter.to_ascii_uppercase(), b'Y' | b'U' | b'V')
}

fn are_channels(letters: &[u8]) -> bool
    ensures { result ≡ list_all t.is_channel letters.now }
{
    letters.iter().all(|letter| is_channel(*letter))
}

fn has_letter(letter: u8, letters: &[u8]) -> bool
    ensures { result ≡ t.has_letter letter letters.now }
{
    letters
        .iter()
        .any(|other| other.to_ascii_uppercase() == letter)
}

impl Channels {
    ghost use Rattle.std.specs.Prelude.{◌≡◌};
    ghost use Rattle.clip_term.specs.Filters as t;

    /// The planes that the letters Y, U and V name, in any case. Another letter is `BadText`.
    pub fn named(letters: &str) -> Result<Channels, FilterFault>
        ensures { result ≡ t.channels_named letters.now }
    {
        let letters = letters.as_bytes();
        if !are_channels(letters) {
            return Err(FilterFault::BadText);
        }
        Ok(Channels {
            y: has_letter(b'Y', letters),
            u: has_letter(b'U', letters),
            v: has_letter(b'V', letters),
        })
    }
}

/// The planes that a text names, as `Channels::named`.
pub fn read_channels(text: &Text) -> Result<Channels, FilterFault>
    ensures { result ≡ t.channels_named text.now }
{
    Channels::named(text.as_str())
}
