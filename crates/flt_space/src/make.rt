// The picture that any filter of the group Space makes.
ghost use Rattle.std.specs.Prelude.{◌≡◌, None, IfOk};
ghost use Rattle.fv_plane.specs.Format.{IsLegal};
ghost use Rattle.fv_plane.specs.Refusals.{first_fault};
ghost use Rattle.clip_term.specs.Space.{space_picture, space_refusals, space_shape};
ghost use Rattle.flt_space.specs.Rows.{writes_plane};

use crate::adjust::{greyscale, invert, is_among, limiter, swap_uv};
use crate::borders::{add_borders, letter_box};
use crate::cut::{convert_to_y8, crop, crop_bottom, u_to_y8, v_to_y8};
use crate::depth::convert_bits;
use crate::flip::{flip_horizontal, flip_vertical, turn_180};
use clip_term::SpaceOp;
use flt_turn::{turn_left, turn_right};
use fv_plane::{Frame, FrameMemory};
use std::alloc::{AllocError, Global};

/// Whether a filter writes the rows of a plane, and so takes memory for it. Other planes share the bytes of the input.
pub fn takes_memory(op: &SpaceOp, plane: u32) -> bool
    ensures { result ≡ writes_plane op.now plane }
{
    match op {
        SpaceOp::Crop { .. }
        | SpaceOp::CropBottom { .. }
        | SpaceOp::FlipVertical
        | SpaceOp::SwapUV
        | SpaceOp::UToY8
        | SpaceOp::VToY8
        | SpaceOp::ConvertToY8 => false,
        SpaceOp::AddBorders { .. }
        | SpaceOp::LetterBox { .. }
        | SpaceOp::FlipHorizontal
        | SpaceOp::Turn180
        | SpaceOp::TurnLeft
        | SpaceOp::TurnRight
        | SpaceOp::Limiter { .. }
        | SpaceOp::ConvertBits { .. } => true,
        SpaceOp::Greyscale => plane > 0,
        SpaceOp::Invert { channels } => is_among(*channels, plane),
    }
}

/// The picture that a filter makes of its input, which its check accepted. It is made in `memory` as far as that has room.
/// Parts, single planes, planes that stay, pictures upside down and pictures whose bits stay share the bytes of the input.
/// An `Err` is out of memory, or more shares than can be counted.
pub fn make_space_in(
    alloc: Global,
    memory: FrameMemory,
    op: &SpaceOp,
    input: &Frame,
) -> Result<Frame, AllocError>
    requires accepted { first_fault (space_refusals op.now input.now.shape) ≡ None }
    requires legal { IsLegal (space_shape op.now input.now.shape) }
    ensures { IfOk result (λ made. made ≡ space_picture op.now input.now) }
{
    match op {
        SpaceOp::Crop {
            left,
            top,
            width,
            height,
        } => crop(input, *left, *top, *width, *height),
        SpaceOp::CropBottom { n } => crop_bottom(input, *n),
        SpaceOp::AddBorders {
            left,
            top,
            right,
            bottom,
            color_yuv,
        } => add_borders(
            alloc, memory, input, *left, *top, *right, *bottom, *color_yuv,
        ),
        SpaceOp::LetterBox {
            top,
            bottom,
            x1,
            x2,
            color_yuv,
        } => letter_box(alloc, memory, input, *top, *bottom, *x1, *x2, *color_yuv),
        SpaceOp::FlipHorizontal => flip_horizontal(alloc, memory, input),
        SpaceOp::FlipVertical => flip_vertical(input),
        SpaceOp::Turn180 => turn_180(alloc, memory, input),
        SpaceOp::TurnLeft => turn_left(alloc, memory, input),
        SpaceOp::TurnRight => turn_right(alloc, memory, input),
        SpaceOp::Greyscale => greyscale(alloc, memory, input),
        SpaceOp::Invert { channels } => invert(alloc, memory, input, *channels),
        SpaceOp::Limiter {
            min_luma,
            max_luma,
            min_chroma,
            max_chroma,
        } => limiter(
            alloc,
            memory,
            input,
            *min_luma,
            *max_luma,
            *min_chroma,
            *max_chroma,
        ),
        SpaceOp::SwapUV => swap_uv(alloc, input),
        SpaceOp::UToY8 => u_to_y8(input),
        SpaceOp::VToY8 => v_to_y8(input),
        SpaceOp::ConvertToY8 => convert_to_y8(input),
        SpaceOp::ConvertBits { bits } => convert_bits(alloc, memory, input, *bits),
    }
}

/// The same, in new memory.
pub fn make_space(op: &SpaceOp, input: &Frame) -> Result<Frame, AllocError>
    requires accepted { first_fault (space_refusals op.now input.now.shape) ≡ None }
    requires legal { IsLegal (space_shape op.now input.now.shape) }
    ensures { IfOk result (λ made. made ≡ space_picture op.now input.now) }
{
    make_space_in(input.allocator(), FrameMemory::none(), op, input)
}
