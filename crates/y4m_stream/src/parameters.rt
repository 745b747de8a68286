// The parameters of a stream's head.
ghost use Rattle.std.specs.Prelude.{◌≡◌, ◌<◌, ◌^◌, IfOk, IfErr, IfSome, None, Some, true};
ghost use Rattle.std.specs.List.{slice_split};
ghost use Rattle.std.specs.Option.{option_copied};
ghost use Rattle.fv_plane.specs.Format.{IsLegal, has_depth};
ghost use Rattle.fv_plane.specs.Info.{IsRate, IsPar};
ghost use Rattle.y4m_stream.specs.Head.{value_in, value, rate_of, par_of, field_of, colour_of, info_of, parameter_fault};
ghost use Rattle.y4m_stream.specs.Stream.{is_space};

use crate::colourspace::colourspace_named;
use crate::fault::Y4mFault;
use crate::numbers::{lowest, number, ratio};
use fv_plane::{Field, Format, Info, Par, PixelType, Shape, Tag};

// What a stream has that names no format.
const FOUR_TWO_ZERO: Format = Format {
    kind: PixelType::YV12,
    bits: 8,
};

// The value of a parameter, where it has this letter.
fn value_in<'a>(parameter: &'a [u8], letter: u8) -> Option<&'a [u8]>
    ensures { option_copied result ≡ value_in letter parameter.now }
{
    match parameter {
        [first, text @ ..] if *first == letter => Some(text),
        _ => None,
    }
}

// The value of the last parameter with this letter.
fn value<'a>(line: &'a [u8], letter: u8) -> Option<&'a [u8]>
    ensures { option_copied result ≡ value letter (slice_split is_space line.now) }
{
    let mut found = None;
    for parameter in line.split(|byte| *byte == b' ') {
        found = value_in(parameter, letter).or(found);
    }
    found
}

// Frames a second, in lowest terms.
fn rate(text: Option<&[u8]>) -> Option<(u32, u32)>
    ensures rate { result ≡ rate_of (option_copied text.entry) }
    ensures lawful { IfSome result (λ rate. IsRate rate.0 rate.1) }
{
    match text {
        None => Some((25, 1)),
        Some(text) => {
            let (num, den) = ratio(text)?;
            lowest(num, den)
        }
    }
}

// The shape of a pixel, as it is given.
fn par(text: Option<&[u8]>) -> Option<(u32, u32)>
    ensures par { result ≡ par_of (option_copied text.entry) }
    ensures small { IfSome result (λ par. (par.0 < 2 ^ 31) × (par.1 < 2 ^ 31)) }
{
    match text {
        None => Some((0, 0)),
        Some(text) => ratio(text),
    }
}

fn field(text: Option<&[u8]>) -> Field
    ensures { result ≡ field_of (option_copied text.entry) }
{
    match text {
        Some(b"p") => Field::Progressive,
        Some(b"t") => Field::Top,
        Some(b"b") => Field::Bottom,
        _ => Field::Unknown,
    }
}

fn colour(name: Option<&[u8]>) -> Option<(Format, Tag)>
    ensures colour { result ≡ colour_of (option_copied name.entry) }
    ensures legal { IfSome result (λ found. has_depth found.0.kind found.0.bits ≡ true) }
{
    match name {
        None => Some((FOUR_TWO_ZERO, Tag::Jpeg)),
        Some(name) => colourspace_named(name),
    }
}

/// The info that the parameters of a head say, with no frames counted, or their first fault.
pub(crate) fn read_parameters(line: &[u8]) -> Result<Info, Y4mFault>
    ensures sound { IfOk result (λ _. parameter_fault (slice_split is_space line.now) ≡ None) }
    ensures info { IfOk result (λ info. info ≡ info_of (slice_split is_space line.now)) }
    ensures legal { IfOk result (λ info. IsLegal info.shape) }
    ensures rate { IfOk result (λ info. IsRate info.num info.den) }
    ensures par { IfOk result (λ info. IsPar info.par) }
    ensures fault { IfErr result (λ fault. parameter_fault (slice_split is_space line.now) ≡ Some fault) }
{
    let (Some(width), Some(height)) = (value(line, b'W'), value(line, b'H')) else {
        return Err(Y4mFault::NoSize);
    };
    let Some(width) = number(width) else {
        return Err(Y4mFault::BadNumber('W'));
    };
    let Some(height) = number(height) else {
        return Err(Y4mFault::BadNumber('H'));
    };
    let Some((num, den)) = rate(value(line, b'F')) else {
        return Err(Y4mFault::BadNumber('F'));
    };
    let Some((par_num, par_den)) = par(value(line, b'A')) else {
        return Err(Y4mFault::BadNumber('A'));
    };
    let Some((format, tag)) = colour(value(line, b'C')) else {
        return Err(Y4mFault::UnknownColour);
    };
    let shape = Shape {
        kind: format.kind,
        bits: format.bits,
        width,
        height,
    };
    if !shape.has_whole_sides() {
        return Err(Y4mFault::BadSize);
    }
    if !shape.is_legal() {
        return Err(Y4mFault::TooLarge);
    }
    Ok(Info {
        shape,
        frames: 0,
        num,
        den,
        field: field(value(line, b'I')),
        par: Par {
            num: par_num,
            den: par_den,
        },
        tag,
    })
}
