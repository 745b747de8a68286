// `ConvertBits`: samples of other bits.
ghost use Rattle.std.specs.Prelude.{◌≡◌, ◌-◌, ◌*◌, ◌^◌, ◌<◌, ◌≤◌, pos, None, IfOk, false, length};
ghost use Rattle.fv_plane.specs.Picture.{FitsRow, bytes_of_row, look_in};
ghost use Rattle.fv_plane.specs.Format.{IsLegal, planes, plane_width, plane_height, sample_bytes};
ghost use Rattle.fv_plane.specs.Refusals.{first_fault};
ghost use Rattle.clip_term.specs.declared.op.SpaceOp.TheVariants.{ConvertBits};
ghost use Rattle.clip_term.specs.Space.{space_at, space_picture, space_refusals, space_shape};
ghost use Rattle.flt_space.specs.Rows.{CanConvert, row_converted};

use crate::kernels;
use crate::wide::{self, wide_row};
use clip_term::depth_of;
use fv_plane::{Frame, FrameMemory, RowMaker, Shape, make_by_rows, write_samples};
use std::alloc::{AllocError, Global};

// The factor from samples of `old` bits to samples of `new` bits.
fn factor(old: u8, new: u8) -> u16
    requires least { 8 ≤ old }
    requires most { new ≤ 16 }
    requires more { old ≤ new }
    ensures { result ≡ 2 ^ (new - old) }
{
    1 << (new - old)
}

// Writes the samples of a row in the bits of `shape`.
fn convert_samples(input: &Frame, plane: u32, y: u32, shape: Shape, out: &mut [u16])
    requires legal { IsLegal shape }
    requires plane { plane < planes input.now.shape.kind }
    requires inside { y < plane_height input.now.shape plane }
    requires whole { length out.old ≡ plane_width input.now.shape plane }
    ensures row { out.new ≡ row_converted input.now shape.bits plane y }
    ensures fits { FitsRow shape out.new }
{
    let old = input.shape().bits;
    if old == 8 {
        kernels::copy_scaled(input.row(plane, y), factor(old, shape.bits), out);
        return;
    }
    let row = wide_row(input, plane, y);
    if old <= shape.bits {
        wide::copy_scaled(row, factor(old, shape.bits), out);
    } else {
        let bits = (old - shape.bits) as u32;
        wide::copy_rounded(row, bits, shape.largest_sample(), out);
    }
}

// Writes the bytes of a row in the bits of `shape`. `samples` is for its samples.
fn convert_row(input: &Frame, plane: u32, y: u32, shape: Shape, samples: &mut [u16], out: &mut [u8])
    requires legal { IsLegal shape }
    requires plane { plane < planes input.now.shape.kind }
    requires inside { y < plane_height input.now.shape plane }
    requires samples { length samples.old ≡ plane_width input.now.shape plane }
    requires whole { length out.old ≡ plane_width input.now.shape plane * sample_bytes shape }
    ensures { out.new ≡ bytes_of_row shape (row_converted input.now shape.bits plane y) }
{
    convert_samples(input, plane, y, shape, samples);
    if shape.bits == 8 {
        kernels::narrow_row(samples, out);
    } else {
        write_samples(samples, out);
    }
}

// The rows of the picture in the bits of `shape`, which is else that of the input.
#[derive(Drop)]
struct ConvertedRows<'a> {
    input: &'a Frame,
    shape: Shape,
}

impl RowMaker for ConvertedRows<'_> {
    ghost shape_made = { λ rows. rows.shape };

    ghost look_made = { λ rows. space_at (ConvertBits (pos rows.shape.bits)) rows.input.now.shape (look_in rows.input.now) };

    ghost keeps = { λ rows p. false };

    ghost can_make = { λ rows. CanConvert rows.input.now rows.shape };

    fn shape(&self) -> Shape {
        // No sample of the input is over the largest one.
        let _ = self.input.shape();
        self.shape
    }

    fn kept(&self, plane: u32) -> Option<(&Frame, u32)> {
        None
    }

    fn fill_row(&mut self, plane: u32, y: u32, samples: &mut [u16], out: &mut [u8]) {
        // The input is a picture, of whole rows.
        let _ = self.input.shape();
        convert_row(self.input, plane, y, self.shape, samples, out);
    }
}

/// `ConvertBits`: the picture in samples of other bits. Where the bits are those of the input, it is shared. An `Err` is
/// out of memory, or more shares than can be counted.
pub fn convert_bits(
    alloc: Global,
    memory: FrameMemory,
    input: &Frame,
    bits: i32,
) -> Result<Frame, AllocError>
    requires accepted { first_fault (space_refusals (ConvertBits bits) input.now.shape) ≡ None }
    requires legal { IsLegal (space_shape (ConvertBits bits) input.now.shape) }
    ensures { IfOk result (λ made. made ≡ space_picture (ConvertBits bits) input.now) }
{
    let old = input.shape();
    let shape = Shape {
        bits: depth_of(bits),
        ..old
    };
    if shape.bits == old.bits {
        return input.share();
    }
    make_by_rows(alloc, memory, &mut ConvertedRows { input, shape })
}
