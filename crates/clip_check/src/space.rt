// The checks of the group Space.
ghost use Rattle.std.specs.Prelude.{◌≡◌, ◌-ℤ◌, pos, List, length, IfOk, ◌∷◌, [], ◌||◌, ◌==◌, not};
ghost use Rattle.std.specs.Result.{result_err};
ghost use Rattle.fv_plane.specs.declared.format.Info.{Info};
ghost use Rattle.fv_plane.specs.Info.{IsLawful};
ghost use Rattle.fv_plane.specs.Refusals.{first_fault};
ghost use Rattle.fv_plane.specs.declared.format.PixelType.TheVariants.{Y8, YV16, YV411};
ghost use Rattle.clip_term.specs.declared.fault.FilterFault.TheVariants.{BadRange, NotWholeChroma, TurnFormat, NeedsChroma, DepthRefused};
ghost use Rattle.clip_term.specs.declared.op.SpaceOp.TheVariants as op;
ghost use Rattle.clip_term.specs.Refusals.{beyond, is_whole, are_whole, same_kind, sized};
ghost use Rattle.clip_term.specs.Space.{size_from, cut_refusals, bad_bounds, is_no_part, is_outside, cover_more, bad_borders, names_depth, luma_of, space_refusals, space_shape, check_space};
ghost use Rattle.clip_term.specs.Terms.{space, IsSound, AreLawful};
ghost use Rattle.clip_check.specs.Numbers.{shape_in};
ghost use Rattle.clip_check.specs.Summaries.{TellsAll};

use crate::limits::{Sides, limits, rate_of, sides_of};
use crate::shared::{bad_range, beyond, is_whole};
use crate::summary::Summary;
use clip_term::{FilterFault, SpaceOp, depth_of, is_colour, names_depth};
use fv_plane::{Info, PixelType, Shape};

fn whole_fault(shape: Shape, left: u64, top: u64, right: u64, bottom: u64) -> Option<FilterFault>
    ensures { result ≡ first_fault ((NotWholeChroma, not (are_whole shape left top right bottom)) ∷ []) }
{
    if is_whole(shape, left, top) && is_whole(shape, right, bottom) {
        None
    } else {
        Some(FilterFault::NotWholeChroma)
    }
}

// A size that is 0 or less counts from the far edge.
fn size_from(start: i32, size: i32, whole: u32) -> i64
    ensures { result ≡ size_from start size whole }
{
    if size > 0 {
        size as i64
    } else {
        whole as i64 - start as i64 + size as i64
    }
}

fn is_no_part(whole: u32, start: i32, size: i64) -> bool
    ensures { result ≡ is_no_part whole start size }
{
    size < 1 || start as i128 + size as i128 > whole as i128
}

fn is_outside(shape: Shape, left: i32, top: i32, width: i64, height: i64) -> bool
    ensures { result ≡ is_outside shape left top width height }
{
    is_no_part(shape.width, left, width) || is_no_part(shape.height, top, height)
}

fn cut_fault(shape: Shape, left: i32, top: i32, width: i64, height: i64) -> Option<FilterFault>
    ensures { result ≡ first_fault (cut_refusals shape left top width height) }
{
    if is_outside(shape, left, top, width, height) {
        return Some(FilterFault::OutOfPicture);
    }
    whole_fault(
        shape,
        left.unsigned_abs() as u64,
        top.unsigned_abs() as u64,
        width.unsigned_abs(),
        height.unsigned_abs(),
    )
}

fn crop_fault(shape: Shape, left: i32, top: i32, width: i32, height: i32) -> Option<FilterFault>
    ensures { result ≡ first_fault (space_refusals (op.Crop left top width height) shape) }
{
    if left < 0 || top < 0 {
        return Some(FilterFault::BadRange);
    }
    cut_fault(
        shape,
        left,
        top,
        size_from(left, width, shape.width),
        size_from(top, height, shape.height),
    )
}

fn height_above(height: u32, n: i32) -> i64
    ensures { result ≡ pos height -ℤ n }
{
    height as i64 - n as i64
}

fn bottom_fault(shape: Shape, n: i32) -> Option<FilterFault>
    ensures { result ≡ first_fault (space_refusals (op.CropBottom n) shape) }
{
    if n < 0 {
        return Some(FilterFault::BadRange);
    }
    let height = height_above(shape.height, n);
    cut_fault(shape, 0, 0, shape.width as i64, height)
}

fn bad_borders(left: i32, top: i32, right: i32, bottom: i32, color: i32) -> bool
    ensures { result ≡ bad_borders left top right bottom color }
{
    left < 0 || top < 0 || right < 0 || bottom < 0 || !is_colour(color)
}

fn borders_fault(
    shape: Shape,
    left: i32,
    top: i32,
    right: i32,
    bottom: i32,
    color_yuv: i32,
) -> Option<FilterFault>
    ensures { result ≡ first_fault (space_refusals (op.AddBorders left top right bottom color_yuv) shape) }
{
    if bad_borders(left, top, right, bottom, color_yuv) {
        return Some(FilterFault::BadRange);
    }
    whole_fault(
        shape,
        left.unsigned_abs() as u64,
        top.unsigned_abs() as u64,
        right.unsigned_abs() as u64,
        bottom.unsigned_abs() as u64,
    )
}

fn cover_more(shape: Shape, left: u32, top: u32, right: u32, bottom: u32) -> bool
    ensures { result ≡ cover_more shape left top right bottom }
{
    top as u64 + bottom as u64 > shape.height as u64
        || left as u64 + right as u64 > shape.width as u64
}

fn letter_box_fault(
    shape: Shape,
    top: i32,
    bottom: i32,
    x1: i32,
    x2: i32,
    color_yuv: i32,
) -> Option<FilterFault>
    ensures { result ≡ first_fault (space_refusals (op.LetterBox top bottom x1 x2 color_yuv) shape) }
{
    if bad_borders(x1, top, x2, bottom, color_yuv) {
        return Some(FilterFault::BadRange);
    }
    let (left, right) = (x1.unsigned_abs(), x2.unsigned_abs());
    let (top, bottom) = (top.unsigned_abs(), bottom.unsigned_abs());
    if cover_more(shape, left, top, right, bottom) {
        return Some(FilterFault::OutOfPicture);
    }
    whole_fault(shape, left as u64, top as u64, right as u64, bottom as u64)
}

fn turn_fault(kind: PixelType) -> Option<FilterFault>
    ensures { result ≡ first_fault ((TurnFormat, same_kind kind YV16 || same_kind kind YV411) ∷ []) }
{
    match kind {
        PixelType::YV16 | PixelType::YV411 => Some(FilterFault::TurnFormat),
        _ => None,
    }
}

fn depth_fault(shape: Shape) -> Option<FilterFault>
    ensures { result ≡ first_fault ((DepthRefused, not (shape.bits == 8)) ∷ []) }
{
    if shape.bits == 8 {
        None
    } else {
        Some(FilterFault::DepthRefused)
    }
}

fn chroma_fault(shape: Shape) -> Option<FilterFault>
    ensures { result
        ≡ first_fault ((NeedsChroma, same_kind shape.kind Y8) ∷ (DepthRefused, not (shape.bits == 8)) ∷ []) }
{
    match shape.kind {
        PixelType::Y8 => Some(FilterFault::NeedsChroma),
        _ => depth_fault(shape),
    }
}

fn bad_bounds(low: i32, high: i32) -> bool
    ensures { result ≡ bad_bounds low high }
{
    beyond(low, 255) || beyond(high, 255) || high < low
}

fn limiter_fault(
    min_luma: i32,
    max_luma: i32,
    min_chroma: i32,
    max_chroma: i32,
) -> Option<FilterFault>
    ensures { result ≡ first_fault ((BadRange, bad_bounds min_luma max_luma || bad_bounds min_chroma max_chroma) ∷ []) }
{
    bad_range(bad_bounds(min_luma, max_luma) || bad_bounds(min_chroma, max_chroma))
}

fn of_size(shape: Shape, width: u64, height: u64) -> Sides
    ensures { shape_in result ≡ sized shape width height }
{
    Sides {
        width: width as u128,
        height: height as u128,
        ..sides_of(shape)
    }
}

fn turned(shape: Shape) -> Sides
    ensures { shape_in result ≡ sized shape shape.height shape.width }
{
    of_size(shape, shape.height as u64, shape.width as u64)
}

// Luma alone, of the size of a plane.
fn luma_of(shape: Shape, plane: u32) -> Sides
    ensures { shape_in result ≡ luma_of shape plane }
{
    Sides {
        kind: PixelType::Y8,
        ..of_size(
            shape,
            shape.plane_width(plane) as u64,
            shape.plane_height(plane) as u64,
        )
    }
}

// The sides that are made where nothing is refused.
fn unless(fault: Option<FilterFault>, sides: Sides) -> Result<Sides, FilterFault>
    ensures refused { result_err result ≡ fault }
    ensures sides { IfOk result (λ made. shape_in made ≡ shape_in sides) }
{
    match fault {
        Some(fault) => Err(fault),
        None => Ok(sides),
    }
}

fn cropped(shape: Shape, left: i32, top: i32, width: i32, height: i32) -> Result<Sides, FilterFault>
    ensures refused { result_err result ≡ first_fault (space_refusals (op.Crop left top width height) shape) }
    ensures sides { IfOk result (λ sides. shape_in sides ≡ space_shape (op.Crop left top width height) shape) }
{
    let sides = of_size(
        shape,
        size_from(left, width, shape.width).unsigned_abs(),
        size_from(top, height, shape.height).unsigned_abs(),
    );
    unless(crop_fault(shape, left, top, width, height), sides)
}

fn cropped_bottom(shape: Shape, n: i32) -> Result<Sides, FilterFault>
    ensures refused { result_err result ≡ first_fault (space_refusals (op.CropBottom n) shape) }
    ensures sides { IfOk result (λ sides. shape_in sides ≡ space_shape (op.CropBottom n) shape) }
{
    let height = (shape.height as u64).saturating_sub(n.unsigned_abs() as u64);
    unless(
        bottom_fault(shape, n),
        of_size(shape, shape.width as u64, height),
    )
}

fn bordered(
    shape: Shape,
    left: i32,
    top: i32,
    right: i32,
    bottom: i32,
    color_yuv: i32,
) -> Result<Sides, FilterFault>
    ensures refused { result_err result ≡
        first_fault (space_refusals (op.AddBorders left top right bottom color_yuv) shape) }
    ensures sides { IfOk result (λ sides.
        shape_in sides ≡ space_shape (op.AddBorders left top right bottom color_yuv) shape) }
{
    let width = shape.width as u64 + left.unsigned_abs() as u64 + right.unsigned_abs() as u64;
    let height = shape.height as u64 + top.unsigned_abs() as u64 + bottom.unsigned_abs() as u64;
    unless(
        borders_fault(shape, left, top, right, bottom, color_yuv),
        of_size(shape, width, height),
    )
}

fn in_bits(shape: Shape, bits: i32) -> Result<Sides, FilterFault>
    ensures refused { result_err result ≡ first_fault (space_refusals (op.ConvertBits bits) shape) }
    ensures sides { IfOk result (λ sides. shape_in sides ≡ space_shape (op.ConvertBits bits) shape) }
{
    if !names_depth(bits) {
        return Err(FilterFault::BadRange);
    }
    let bits = depth_of(bits);
    if shape.kind.has_depth(bits) {
        Ok(Sides {
            bits,
            ..sides_of(shape)
        })
    } else {
        Err(FilterFault::DepthRefused)
    }
}

// What the row refuses, or its size and the bits of its samples.
fn space_sides(op: &SpaceOp, shape: Shape) -> Result<Sides, FilterFault>
    ensures refused { result_err result ≡ first_fault (space_refusals op.now shape) }
    ensures sides { IfOk result (λ sides. shape_in sides ≡ space_shape op.now shape) }
{
    match op {
        SpaceOp::Crop {
            left,
            top,
            width,
            height,
        } => cropped(shape, *left, *top, *width, *height),
        SpaceOp::CropBottom { n } => cropped_bottom(shape, *n),
        SpaceOp::AddBorders {
            left,
            top,
            right,
            bottom,
            color_yuv,
        } => bordered(shape, *left, *top, *right, *bottom, *color_yuv),
        SpaceOp::LetterBox {
            top,
            bottom,
            x1,
            x2,
            color_yuv,
        } => unless(
            letter_box_fault(shape, *top, *bottom, *x1, *x2, *color_yuv),
            sides_of(shape),
        ),
        SpaceOp::TurnLeft | SpaceOp::TurnRight => unless(turn_fault(shape.kind), turned(shape)),
        SpaceOp::Limiter {
            min_luma,
            max_luma,
            min_chroma,
            max_chroma,
        } => unless(
            limiter_fault(*min_luma, *max_luma, *min_chroma, *max_chroma),
            sides_of(shape),
        ),
        SpaceOp::UToY8 => unless(chroma_fault(shape), luma_of(shape, 1)),
        SpaceOp::VToY8 => unless(chroma_fault(shape), luma_of(shape, 2)),
        SpaceOp::ConvertToY8 => unless(depth_fault(shape), luma_of(shape, 0)),
        SpaceOp::ConvertBits { bits } => in_bits(shape, *bits),
        _ => Ok(sides_of(shape)),
    }
}

/// The check of an op of the group Space over the summary of its clips.
pub fn space_info(op: &SpaceOp, summary: &Summary) -> Result<Info, FilterFault>
    ensures { (infos : List Info) → TellsAll summary.now infos → result ≡ check_space op.now infos }
{
    let c = summary.first;
    match space_sides(op, c.shape) {
        Ok(sides) => limits(c, c.frames as u128, rate_of(c), sides),
        Err(fault) => Err(fault),
    }
}

/// The info of a clip of the group Space over clips of these infos, or the first refusal.
pub fn check_space(op: &SpaceOp, infos: &[Info]) -> Result<Info, FilterFault>
    ensures exact { result ≡ check_space op.now infos.now }
    ensures lawful { IsSound (space op.now) (length infos.now) → AreLawful infos.now →
        IfOk result (λ info. IsLawful info) }
{
    space_info(op, &Summary::of(infos))
}
