// `Invert`, `Limiter`, `Greyscale` and `SwapUV`: samples that stay where they are.
ghost use Rattle.std.specs.Prelude.{◌≡◌, ◌*◌, None, IfOk, false};
ghost use Rattle.fv_plane.specs.Format.{IsLegal, scale};
ghost use Rattle.fv_plane.specs.Refusals.{first_fault};
ghost use Rattle.clip_term.specs.declared.op.SpaceOp.TheVariants as op;
ghost use Rattle.clip_term.specs.Refusals.{nat_of, beyond};
ghost use Rattle.clip_term.specs.Space.{space_picture, space_refusals, is_among, swapped};

use crate::kernels::{copy_inverted, copy_limited};
use crate::rows::{RowFilter, make_by_rows};
use crate::wide::{self, wide_row};
use clip_term::Channels;
use fv_plane::{Frame, FrameBuilder, FrameMemory, Shape};
use std::alloc::{AllocError, Global};

/// Whether a plane is among those that a filter changes.
pub fn is_among(channels: Channels, plane: u32) -> bool
    ensures { result ≡ is_among channels plane }
{
    if plane == 0 {
        channels.y
    } else if plane == 1 {
        channels.u
    } else {
        channels.v
    }
}

#[derive(Drop)]
struct InvertRows {
    channels: Channels,
}

impl RowFilter for InvertRows {
    ghost op = { λ filter. op.Invert filter.channels };

    fn keeps_plane(&self, plane: u32) -> bool {
        !is_among(self.channels, plane)
    }

    fn fill_row(&self, input: &Frame, plane: u32, y: u32, out: &mut [u8]) {
        copy_inverted(input.row(plane, y), out);
    }

    fn fill_samples(&self, input: &Frame, plane: u32, y: u32, out: &mut [u16]) {
        let row = wide_row(input, plane, y);
        wide::copy_inverted(row, input.shape().largest_sample(), out);
    }
}

/// `Invert`: the complement of each sample of the planes that are named. The others are shared. An `Err` is out of
/// memory.
pub fn invert(
    alloc: Global,
    memory: FrameMemory,
    input: &Frame,
    channels: Channels,
) -> Result<Frame, AllocError>
    ensures { IfOk result (λ made. made ≡ space_picture (op.Invert channels) input.now) }
{
    make_by_rows(
        alloc,
        memory,
        &InvertRows { channels },
        input,
        input.shape(),
    )
}

// A bound from 0 to 255 as a sample.
fn bound(value: i32) -> u8
    requires { beyond value 255 ≡ false }
    ensures { result ≡ nat_of value }
{
    value.unsigned_abs() as u8
}

// A bound from 0 to 255, as a sample of this many bits.
fn scaled_bound(value: i32, shape: Shape) -> u16
    requires legal { IsLegal shape }
    requires value { beyond value 255 ≡ false }
    ensures { result ≡ nat_of value * scale shape }
{
    bound(value) as u16 * shape.scale()
}

#[derive(Drop)]
struct LimitRows {
    min_luma: i32,
    max_luma: i32,
    min_chroma: i32,
    max_chroma: i32,
}

impl RowFilter for LimitRows {
    ghost op = { λ filter. op.Limiter filter.min_luma filter.max_luma filter.min_chroma filter.max_chroma };

    fn keeps_plane(&self, plane: u32) -> bool {
        false
    }

    fn fill_row(&self, input: &Frame, plane: u32, y: u32, out: &mut [u8]) {
        let row = input.row(plane, y);
        if plane == 0 {
            copy_limited(row, bound(self.min_luma), bound(self.max_luma), out);
        } else {
            copy_limited(row, bound(self.min_chroma), bound(self.max_chroma), out);
        }
    }

    fn fill_samples(&self, input: &Frame, plane: u32, y: u32, out: &mut [u16]) {
        let shape = input.shape();
        let row = wide_row(input, plane, y);
        if plane == 0 {
            let low = scaled_bound(self.min_luma, shape);
            let high = scaled_bound(self.max_luma, shape);
            wide::copy_limited(row, low, high, out);
        } else {
            let low = scaled_bound(self.min_chroma, shape);
            let high = scaled_bound(self.max_chroma, shape);
            wide::copy_limited(row, low, high, out);
        }
    }
}

/// `Limiter`: each sample brought into the bounds of its plane. An `Err` is out of memory.
pub fn limiter(
    alloc: Global,
    memory: FrameMemory,
    input: &Frame,
    min_luma: i32,
    max_luma: i32,
    min_chroma: i32,
    max_chroma: i32,
) -> Result<Frame, AllocError>
    requires { first_fault (space_refusals (op.Limiter min_luma max_luma min_chroma max_chroma) input.now.shape) ≡ None }
    ensures { IfOk result (λ made.
        made ≡ space_picture (op.Limiter min_luma max_luma min_chroma max_chroma) input.now) }
{
    let filter = LimitRows {
        min_luma,
        max_luma,
        min_chroma,
        max_chroma,
    };
    make_by_rows(alloc, memory, &filter, input, input.shape())
}

#[derive(Drop)]
struct GreyRows;

impl RowFilter for GreyRows {
    ghost op = { λ filter. op.Greyscale };

    fn keeps_plane(&self, plane: u32) -> bool {
        plane == 0
    }

    fn fill_row(&self, input: &Frame, plane: u32, y: u32, out: &mut [u8]) {
        out.fill(128);
    }

    fn fill_samples(&self, input: &Frame, plane: u32, y: u32, out: &mut [u16]) {
        out.fill(128 * input.shape().scale());
    }
}

/// `Greyscale`: luma as it is, which is shared, and chroma without colour. An `Err` is out of memory.
pub fn greyscale(alloc: Global, memory: FrameMemory, input: &Frame) -> Result<Frame, AllocError>
    ensures { IfOk result (λ made. made ≡ space_picture op.Greyscale input.now) }
{
    make_by_rows(alloc, memory, &GreyRows, input, input.shape())
}

// The planes of chroma exchanged.
fn swapped(plane: u32) -> u32
    ensures { result ≡ swapped plane }
{
    match plane {
        1 => 2,
        2 => 1,
        _ => plane,
    }
}

/// `SwapUV`: the planes of chroma exchanged. All planes are shared. An `Err` is out of memory.
pub fn swap_uv(alloc: Global, input: &Frame) -> Result<Frame, AllocError>
    ensures { IfOk result (λ made. made ≡ space_picture op.SwapUV input.now) }
{
    let shape = input.shape();
    let mut made = FrameBuilder::new(alloc, shape)?;
    for plane in 0..shape.kind.planes() {
        made.put_plane(plane, input, swapped(plane))?;
    }
    made.finish()
}
