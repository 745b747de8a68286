// The limits that every clip keeps.
ghost use Rattle.std.specs.Prelude.{◌≡◌};
ghost use Rattle.fv_plane.specs.Info.{lowest};
ghost use Rattle.clip_term.specs.Refusals.{limits, rate_of};
ghost use Rattle.clip_check.specs.Numbers.{rate_in, shape_in};

use clip_term::FilterFault;
use fv_plane::{Info, PixelType, Shape, lowest};

/// A format and sides, which may be too large for a shape.
#[derive(Clone, Copy)]
pub struct Sides {
    pub kind: PixelType,
    pub bits: u8,
    pub width: u128,
    pub height: u128,
}

/// Frames a second, in any terms.
#[derive(Clone, Copy)]
pub struct FrameRate {
    pub num: u128,
    pub den: u128,
}

/// The sides of a shape.
pub fn sides_of(shape: Shape) -> Sides
    ensures { shape_in result ≡ shape }
{
    Sides {
        kind: shape.kind,
        bits: shape.bits,
        width: shape.width as u128,
        height: shape.height as u128,
    }
}

/// The rate of a clip.
pub fn rate_of(c: Info) -> FrameRate
    ensures { rate_in result ≡ rate_of c }
{
    FrameRate {
        num: c.num as u128,
        den: c.den as u128,
    }
}

// A rate with a part of 0 stays as it is.
fn lowest_terms(rate: FrameRate) -> FrameRate
    ensures { rate_in result ≡ lowest (rate_in rate) }
{
    if rate.num == 0 || rate.den == 0 {
        return rate;
    }
    let (num, den) = lowest(rate.num, rate.den);
    FrameRate { num, den }
}

/// The clip `c` with this length, rate and size, or the limit that it passes.
pub fn limits(c: Info, frames: u128, rate: FrameRate, sides: Sides) -> Result<Info, FilterFault>
    ensures { result ≡ limits c frames (rate_in rate) (shape_in sides) }
{
    let made = lowest_terms(rate);
    if frames == 0 {
        return Err(FilterFault::EmptyClip);
    }
    if frames > Info::MAX_FRAMES as u128 {
        return Err(FilterFault::LengthLimit);
    }
    if made.num > Info::MAX_RATE as u128 || made.den > Info::MAX_RATE as u128 {
        return Err(FilterFault::RateLimit);
    }
    if sides.width > Shape::MAX_SIDE as u128 || sides.height > Shape::MAX_SIDE as u128 {
        return Err(FilterFault::TooLarge);
    }
    let shape = Shape {
        kind: sides.kind,
        bits: sides.bits,
        width: sides.width as u32,
        height: sides.height as u32,
    };
    if shape.frame_bytes() > Shape::MAX_BYTES {
        return Err(FilterFault::TooLarge);
    }
    Ok(Info {
        frames: frames as u32,
        num: made.num as u32,
        den: made.den as u32,
        shape,
        ..c
    })
}
