// The maker of the group Join.
ghost use Rattle.std.specs.Prelude.{◌≡◌, [], ◌∷◌, IfOk, IsSome, false, true, is_none};
ghost use Rattle.std.specs.Option.{unwrap_or};
ghost use Rattle.fv_plane.specs.Format.{IsLegal};
ghost use Rattle.fv_plane.specs.declared.format.PixelType.TheVariants.{Y8};
ghost use Rattle.clip_term.specs.declared.op.JoinOp.TheVariants.{YToUV};
ghost use Rattle.clip_term.specs.Refusals.{same_size};
ghost use Rattle.clip_term.specs.Join.{has_sizes, kind_of};
ghost use Rattle.flt_merge.specs.Joined.{CanJoin, shape_joined, join_picture, writes_rows};

use crate::merge::merge;
use crate::planes::{luma_and_chroma, luma_of_three};
use crate::stack::{stack_horizontal, stack_vertical};
use clip_term::JoinOp;
use fv_plane::{Frame, FrameMemory, PixelType, Shape};
use std::alloc::{AllocError, Global};

// Whether luma of the size of `y` has chroma of the size of `u` in this format.
fn has_sizes(u: Shape, y: Shape, kind: PixelType) -> bool
    ensures { result ≡ has_sizes u y kind }
{
    y.width as u64 == u.width as u64 * kind.sub_w() as u64
        && y.height as u64 == u.height as u64 * kind.sub_h() as u64
}

// The format in which luma of the size of `y` has chroma of the size of `u`, and Y8 where there is none.
fn kind_of(u: Shape, y: Shape) -> PixelType
    ensures { result ≡ unwrap_or (kind_of u y) Y8 }
{
    if has_sizes(u, y, PixelType::YV24) {
        PixelType::YV24
    } else if has_sizes(u, y, PixelType::YV16) {
        PixelType::YV16
    } else if has_sizes(u, y, PixelType::YV12) {
        PixelType::YV12
    } else if has_sizes(u, y, PixelType::YV411) {
        PixelType::YV411
    } else {
        PixelType::Y8
    }
}

// The picture whose planes are the luma of `y`, `u` and `v`. They are shared.
fn y_to_uv(alloc: Global, u: &Frame, v: &Frame, y: &Frame) -> Result<Frame, AllocError>
    requires legal { IsLegal (shape_joined YToUV (u.now ∷ v.now ∷ y.now ∷ [])) }
    requires size { same_size u.now.shape v.now.shape ≡ true }
    requires bits { (v.now.shape.bits ≡ u.now.shape.bits) × (y.now.shape.bits ≡ u.now.shape.bits) }
    requires kind { is_none (kind_of u.now.shape y.now.shape) ≡ false }
    ensures { IfOk result (λ made. made ≡ join_picture YToUV (u.now ∷ v.now ∷ y.now ∷ [])) }
{
    let chroma = u.shape();
    let luma = y.shape();
    let shape = Shape {
        kind: kind_of(chroma, luma),
        bits: chroma.bits,
        width: luma.width,
        height: luma.height,
    };
    luma_of_three(alloc, shape, y, u, v)
}

/// Whether a filter writes the rows of its planes, and so takes memory for them. Else they share the bytes of the inputs.
pub fn takes_memory(op: &JoinOp) -> bool
    ensures { result ≡ writes_rows op.now }
{
    match op {
        JoinOp::StackHorizontal | JoinOp::StackVertical | JoinOp::Merge => true,
        JoinOp::MergeLuma | JoinOp::MergeChroma | JoinOp::YToUV => false,
    }
}

/// The frame that a filter makes of a frame of each of its clips. The inputs have the shapes of the clips, which the
/// check of the filter accepts. It is made in `memory` as far as that has room. An `Err` is out of memory.
pub fn make_join_in(
    alloc: Global,
    memory: FrameMemory,
    op: &JoinOp,
    inputs: &[Frame],
) -> Result<Frame, AllocError>
    requires { CanJoin op.now inputs.now }
    ensures { IfOk result (λ made. made ≡ join_picture op.now inputs.now) }
{
    match op {
        JoinOp::StackHorizontal => stack_horizontal(alloc, memory, inputs),
        JoinOp::StackVertical => stack_vertical(alloc, memory, inputs),
        JoinOp::Merge => merge(alloc, memory, &inputs[0], &inputs[1]),
        JoinOp::MergeLuma => luma_and_chroma(alloc, &inputs[1], &inputs[0]),
        JoinOp::MergeChroma => luma_and_chroma(alloc, &inputs[0], &inputs[1]),
        JoinOp::YToUV => y_to_uv(alloc, &inputs[0], &inputs[1], &inputs[2]),
    }
}

/// The same, in new memory.
pub fn make_join(op: &JoinOp, inputs: &[Frame]) -> Result<Frame, AllocError>
    requires { CanJoin op.now inputs.now }
    ensures { IfOk result (λ made. made ≡ join_picture op.now inputs.now) }
{
    make_join_in(inputs[0].allocator(), FrameMemory::none(), op, inputs)
}
