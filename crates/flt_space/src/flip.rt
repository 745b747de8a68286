// `FlipVertical` and `FlipHorizontal`: pictures turned over.
ghost use Rattle.std.specs.Prelude.{◌≡◌, IfOk};
ghost use Rattle.clip_term.specs.declared.op.SpaceOp.TheVariants.{FlipHorizontal, FlipVertical, Turn180};
ghost use Rattle.clip_term.specs.Space.{space_picture};

use crate::kernels::reverse_row;
use crate::rows::{RowFilter, make_by_rows};
use crate::wide::{self, wide_row};
use fv_plane::{Frame, FrameMemory};
use std::alloc::{AllocError, Global};

/// `FlipVertical`: the picture upside down, over the bytes of the input. An `Err` is more shares than can be counted.
pub fn flip_vertical(input: &Frame) -> Result<Frame, AllocError>
    ensures { IfOk result (λ made. made ≡ space_picture FlipVertical input.now) }
{
    input.flipped()
}

#[derive(Drop)]
struct MirrorRows;

impl RowFilter for MirrorRows {
    ghost op = { λ filter. FlipHorizontal };

    fn keeps_plane(&self, plane: u32) -> bool {
        false
    }

    fn fill_row(&self, input: &Frame, plane: u32, y: u32, out: &mut [u8]) {
        reverse_row(input.row(plane, y), out);
    }

    fn fill_samples(&self, input: &Frame, plane: u32, y: u32, out: &mut [u16]) {
        wide::reverse_row(wide_row(input, plane, y), out);
    }
}

/// `FlipHorizontal`: the picture from right to left. An `Err` is out of memory.
pub fn flip_horizontal(
    alloc: Global,
    memory: FrameMemory,
    input: &Frame,
) -> Result<Frame, AllocError>
    ensures { IfOk result (λ made. made ≡ space_picture FlipHorizontal input.now) }
{
    make_by_rows(alloc, memory, &MirrorRows, input, input.shape())
}

#[derive(Drop)]
struct TurnRows;

impl RowFilter for TurnRows {
    ghost op = { λ filter. Turn180 };

    fn keeps_plane(&self, plane: u32) -> bool {
        false
    }

    fn fill_row(&self, input: &Frame, plane: u32, y: u32, out: &mut [u8]) {
        let height = input.shape().plane_height(plane);
        reverse_row(input.row(plane, height - 1 - y), out);
    }

    fn fill_samples(&self, input: &Frame, plane: u32, y: u32, out: &mut [u16]) {
        let height = input.shape().plane_height(plane);
        wide::reverse_row(wide_row(input, plane, height - 1 - y), out);
    }
}

/// `Turn180`: the picture upside down, from right to left. An `Err` is out of memory.
pub fn turn_180(alloc: Global, memory: FrameMemory, input: &Frame) -> Result<Frame, AllocError>
    ensures { IfOk result (λ made. made ≡ space_picture Turn180 input.now) }
{
    make_by_rows(alloc, memory, &TurnRows, input, input.shape())
}
