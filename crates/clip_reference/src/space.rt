// The samples of what a frame becomes.
ghost use Rattle.std.specs.Prelude.{◌≡◌, ◌+◌, ◌-◌, ◌*◌, ◌≤◌, ◌&&◌, None, pos, if◌then◌else◌, ◌==◌};
ghost use Rattle.fv_plane.specs.Format.{IsLegal, largest_sample, scale, plane_width, plane_height};
ghost use Rattle.fv_plane.specs.Picture.{look_in, across, down};
ghost use Rattle.fv_plane.specs.Refusals.{first_fault};
ghost use Rattle.clip_term.specs.Refusals.{nat_of, paint};
ghost use Rattle.clip_term.specs.Space.{space_at, space_refusals, is_within, is_among, limited, swapped, converted};

use crate::place::{across, down, height, look, width};
use clip_term::{Channels, SpaceOp, depth_of, part_of};
use fv_plane::{Frame, Shape};

/// A sample of what the op makes of a frame of this shape.
pub fn space_sample(op: &SpaceOp, shape: Shape, input: &Frame, plane: u32, x: u32, y: u32) -> u16
    requires accepted { first_fault (space_refusals op.now shape) ≡ None }
    requires legal { IsLegal shape }
    requires fits { space_at op.now shape (look_in input.now) plane x y ≤ 65535 }
    ensures { result ≡ space_at op.now shape (look_in input.now) plane x y }
{
    let column = x as u64;
    let row = y as u64;
    let here = look(input, plane, column, row);
    match op {
        SpaceOp::Crop { left, top, .. } => cropped(shape, input, *left, *top, plane, x, y),
        SpaceOp::CropBottom { .. } => here,
        SpaceOp::AddBorders {
            left,
            top,
            color_yuv,
            ..
        } => bordered(shape, input, *left, *top, *color_yuv, plane, x, y),
        SpaceOp::LetterBox {
            top,
            bottom,
            x1,
            x2,
            color_yuv,
        } => {
            let uncovered = is_open(shape, *top, *bottom, *x1, *x2, plane, column, row);
            painted(uncovered, here, *color_yuv, shape, plane)
        }
        SpaceOp::FlipHorizontal => look(input, plane, opposite(width(shape, plane), column), row),
        SpaceOp::FlipVertical => look(input, plane, column, opposite(height(shape, plane), row)),
        SpaceOp::Turn180 => upside_down(shape, input, plane, column, row),
        SpaceOp::TurnLeft => look(input, plane, opposite(width(shape, plane), row), column),
        SpaceOp::TurnRight => look(input, plane, row, opposite(height(shape, plane), column)),
        SpaceOp::Greyscale => grey(shape, plane, here),
        SpaceOp::Invert { channels } => inverted(*channels, shape, plane, here),
        SpaceOp::Limiter {
            min_luma,
            max_luma,
            min_chroma,
            max_chroma,
        } => {
            if plane == 0 {
                limited(shape, *min_luma, *max_luma, here)
            } else {
                limited(shape, *min_chroma, *max_chroma, here)
            }
        }
        SpaceOp::SwapUV => look(input, swapped(plane), column, row),
        SpaceOp::UToY8 => look(input, 1, column, row),
        SpaceOp::VToY8 => look(input, 2, column, row),
        SpaceOp::ConvertToY8 => look(input, 0, column, row),
        SpaceOp::ConvertBits { bits } => converted(shape.bits, depth_of(*bits), here),
    }
}

// The sample of a picture that is cut at the left and the top.
fn cropped(shape: Shape, input: &Frame, left: i32, top: i32, plane: u32, x: u32, y: u32) -> u16
    ensures { result ≡ space_at (SpaceOp.Crop left top (pos 0) (pos 0)) shape (look_in input.now) plane x y }
{
    let column = x as u64 + across(shape, plane, left.unsigned_abs());
    let row = y as u64 + down(shape, plane, top.unsigned_abs());
    look(input, plane, column, row)
}

// The sample of a picture with borders at the left and the top, and around it.
fn bordered(
    shape: Shape,
    input: &Frame,
    left: i32,
    top: i32,
    colour: i32,
    plane: u32,
    x: u32,
    y: u32,
) -> u16
    requires { IsLegal shape }
    ensures { result
        ≡ space_at (SpaceOp.AddBorders left top (pos 0) (pos 0) colour) shape (look_in input.now) plane x y }
{
    let column = (x as u64).saturating_sub(across(shape, plane, left.unsigned_abs()));
    let row = (y as u64).saturating_sub(down(shape, plane, top.unsigned_abs()));
    let inside = is_inside(shape, left, top, plane, x as u64, y as u64);
    painted(
        inside,
        look(input, plane, column, row),
        colour,
        shape,
        plane,
    )
}

fn upside_down(shape: Shape, input: &Frame, plane: u32, x: u64, y: u64) -> u16
    ensures { result ≡ space_at SpaceOp.Turn180 shape (look_in input.now) plane x y }
{
    let column = opposite(width(shape, plane), x);
    let row = opposite(height(shape, plane), y);
    look(input, plane, column, row)
}

// The sample, or the colour where the picture is covered.
fn painted(uncovered: bool, sample: u16, colour: i32, shape: Shape, plane: u32) -> u16
    requires { IsLegal shape }
    ensures { result ≡ (if uncovered then sample else paint colour shape plane) }
{
    if uncovered {
        sample
    } else {
        paint(colour, shape, plane)
    }
}

// The place as far from the other edge.
fn opposite(size: u64, at: u64) -> u64
    ensures { result ≡ size - 1 - at }
{
    size.saturating_sub(1).saturating_sub(at)
}

fn is_within(start: u64, end: u64, at: u64) -> bool
    ensures { result ≡ is_within start end at }
{
    start <= at && at < end
}

// A value of eight bits, as a sample.
fn scaled(value: u8, shape: Shape) -> u16
    requires { IsLegal shape }
    ensures { result ≡ value * scale shape }
{
    value as u16 * shape.scale()
}

fn paint(colour: i32, shape: Shape, plane: u32) -> u16
    requires { IsLegal shape }
    ensures { result ≡ paint colour shape plane }
{
    scaled(part_of(colour.unsigned_abs(), plane), shape)
}

// Whether borders leave a place to the picture.
fn is_inside(shape: Shape, left: i32, top: i32, plane: u32, x: u64, y: u64) -> bool
    ensures { let dx = across shape plane (nat_of left) in let dy = down shape plane (nat_of top) in
        result ≡ is_within dx (dx + plane_width shape plane) x && is_within dy (dy + plane_height shape plane) y }
{
    let dx = across(shape, plane, left.unsigned_abs());
    let dy = down(shape, plane, top.unsigned_abs());
    is_within(dx, dx + width(shape, plane), x) && is_within(dy, dy + height(shape, plane), y)
}

// Whether a letter box leaves a column of a plane open.
fn is_open_across(shape: Shape, x1: i32, x2: i32, plane: u32, x: u64) -> bool
    ensures { result ≡ is_within (across shape plane (nat_of x1))
        (plane_width shape plane - across shape plane (nat_of x2)) x }
{
    let start = across(shape, plane, x1.unsigned_abs());
    let end = width(shape, plane).saturating_sub(across(shape, plane, x2.unsigned_abs()));
    is_within(start, end, x)
}

// Whether it leaves a row of a plane open.
fn is_open_down(shape: Shape, top: i32, bottom: i32, plane: u32, y: u64) -> bool
    ensures { result ≡ is_within (down shape plane (nat_of top))
        (plane_height shape plane - down shape plane (nat_of bottom)) y }
{
    let start = down(shape, plane, top.unsigned_abs());
    let end = height(shape, plane).saturating_sub(down(shape, plane, bottom.unsigned_abs()));
    is_within(start, end, y)
}

fn is_open(
    shape: Shape,
    top: i32,
    bottom: i32,
    x1: i32,
    x2: i32,
    plane: u32,
    x: u64,
    y: u64,
) -> bool
    ensures { result ≡ is_within (across shape plane (nat_of x1)) (plane_width shape plane - across shape plane (nat_of x2)) x
        && is_within (down shape plane (nat_of top)) (plane_height shape plane - down shape plane (nat_of bottom)) y }
{
    is_open_across(shape, x1, x2, plane, x) && is_open_down(shape, top, bottom, plane, y)
}

fn grey(shape: Shape, plane: u32, sample: u16) -> u16
    requires { IsLegal shape }
    ensures { result ≡ (if plane == 0 then sample else 128 * scale shape) }
{
    if plane == 0 {
        sample
    } else {
        scaled(128, shape)
    }
}

fn is_among(channels: Channels, plane: u32) -> bool
    ensures { result ≡ is_among channels plane }
{
    if plane == 0 {
        channels.y
    } else if plane == 1 {
        channels.u
    } else {
        channels.v
    }
}

fn inverted(channels: Channels, shape: Shape, plane: u32, sample: u16) -> u16
    requires { IsLegal shape }
    ensures { result ≡ (if is_among channels plane then largest_sample shape - sample else sample) }
{
    if is_among(channels, plane) {
        shape.largest_sample().saturating_sub(sample)
    } else {
        sample
    }
}

fn limited(shape: Shape, low: i32, high: i32, sample: u16) -> u16
    requires low { nat_of low ≤ 255 }
    requires high { nat_of high ≤ 255 }
    requires legal { IsLegal shape }
    ensures { result ≡ limited (nat_of low * scale shape) (nat_of high * scale shape) sample }
{
    let low = scaled(low.unsigned_abs() as u8, shape);
    let high = scaled(high.unsigned_abs() as u8, shape);
    sample.max(low).min(high)
}

// A sample of `old` bits in `new` bits.
fn converted(old: u8, new: u8, sample: u16) -> u16
    requires old { old ≤ 16 }
    requires new { new ≤ 16 }
    requires fits { converted old new sample ≤ 65535 }
    ensures { result ≡ converted old new sample }
{
    let sample = sample as u64;
    if old <= new {
        return (sample << (new - old)) as u16;
    }
    let lost = old - new;
    let rounded = (sample + (1 << (lost - 1))) >> lost;
    rounded.min((1 << new) - 1) as u16
}

// The planes of chroma exchanged.
fn swapped(plane: u32) -> u32
    ensures { result ≡ swapped plane }
{
    match plane {
        1 => 2,
        2 => 1,
        _ => plane,
    }
}
