// Means of frames that follow each other.
ghost use Rattle.std.specs.Prelude.{◌≡◌, ◌<◌, ◌≤◌, ◌*◌, ◌/◌, pos, false, length, if◌then◌else◌, ◌==◌, EachIndex, slice_index};
ghost use Rattle.fv_plane.specs.Format.{IsLegal, planes, plane_height, plane_width, row_bytes, scale};
ghost use Rattle.clip_term.specs.declared.op.SoftOp.TheVariants.{TemporalSoften};
ghost use Rattle.flt_soft.specs.Pictures.{AreAround, CanSoften, bytes_made, keeps_plane, means_at, shape_of};

use crate::rows::{Stored, row_in};
use crate::scratch::Scratch;
use flt_rows::mean::mean_row;
use fv_plane::{Frame, Shape, write_samples};

// Seven to fifteen rows at a place, by their sums.
fn soften_many<T: Stored>(
    inputs: &[Frame],
    plane: u32,
    y: u32,
    threshold: u16,
    sums: &mut [T::Sum],
    out: &mut [T],
)
    requires some { 0 < threshold }
    requires most { threshold ≤ T.most }
    requires many { 3 ≤ length inputs.now / 2 }
    requires around { AreAround inputs.now plane y }
    requires fits { T.fits (shape_of inputs.now) }
    requires whole { length out.old ≡ plane_width (shape_of inputs.now) plane }
    requires sums { length sums.old ≡ length out.old }
    ensures { EachIndex out.new (λ x. slice_index (T.numbers out.new) x ≡ means_at inputs.now threshold plane x y) }
{
    let row = row_in::<T>(inputs, inputs.len() / 2, plane, y);
    T::clear(sums);
    for i in 0..inputs.len() {
        T::add_near(row, row_in::<T>(inputs, i, plane, y), threshold, sums);
    }
    match inputs.len() {
        7 => mean_row::<T, 7>(sums, out),
        9 => mean_row::<T, 9>(sums, out),
        11 => mean_row::<T, 11>(sums, out),
        13 => mean_row::<T, 13>(sums, out),
        _ => mean_row::<T, 15>(sums, out),
    }
}

// A row of means.
fn soften<T: Stored>(
    inputs: &[Frame],
    plane: u32,
    y: u32,
    threshold: u16,
    sums: &mut [T::Sum],
    out: &mut [T],
)
    requires some { 0 < threshold }
    requires most { threshold ≤ T.most }
    requires around { AreAround inputs.now plane y }
    requires fits { T.fits (shape_of inputs.now) }
    requires whole { length out.old ≡ plane_width (shape_of inputs.now) plane }
    requires sums { length sums.old ≡ length out.old }
    ensures { EachIndex out.new (λ x. slice_index (T.numbers out.new) x ≡ means_at inputs.now threshold plane x y) }
{
    match inputs.len() {
        3 => T::soften_three(
            row_in::<T>(inputs, 0, plane, y),
            row_in::<T>(inputs, 1, plane, y),
            row_in::<T>(inputs, 2, plane, y),
            threshold,
            out,
        ),
        5 => T::soften_five(
            row_in::<T>(inputs, 0, plane, y),
            row_in::<T>(inputs, 1, plane, y),
            row_in::<T>(inputs, 2, plane, y),
            row_in::<T>(inputs, 3, plane, y),
            row_in::<T>(inputs, 4, plane, y),
            threshold,
            out,
        ),
        _ => soften_many(inputs, plane, y, threshold, sums, out),
    }
}

// The threshold of a plane.
fn threshold(luma: u8, chroma: u8, plane: u32) -> u8
    ensures { result ≡ (if plane == 0 then luma else chroma) }
{
    if plane == 0 { luma } else { chroma }
}

// A threshold of eight bits for samples of this shape.
fn scaled(threshold: u8, shape: Shape) -> u16
    requires { IsLegal shape }
    ensures { result ≡ threshold * scale shape }
{
    threshold as u16 * shape.scale()
}

/// The bytes of a row that `TemporalSoften` makes: the mean of each sample and those of the frames before and after it that
/// differ by no more than a threshold.
pub fn soften_row(
    inputs: &[Frame],
    radius: u32,
    luma: u8,
    chroma: u8,
    plane: u32,
    y: u32,
    scratch: &mut Scratch,
    samples: &mut [u16],
    out: &mut [u8],
)
    requires able { CanSoften (TemporalSoften (pos radius) (pos luma) (pos chroma)) inputs.now }
    requires changed { keeps_plane (TemporalSoften (pos radius) (pos luma) (pos chroma)) plane ≡ false }
    requires plane { plane < planes (shape_of inputs.now).kind }
    requires inside { y < plane_height (shape_of inputs.now) plane }
    requires whole { length out.old ≡ row_bytes (shape_of inputs.now) plane }
    requires samples { length samples.old ≡ plane_width (shape_of inputs.now) plane }
    requires room { plane_width (shape_of inputs.now) plane ≤ scratch.old }
    ensures row { out.new ≡ bytes_made (TemporalSoften (pos radius) (pos luma) (pos chroma)) inputs.now plane y }
    ensures room { scratch.new ≡ scratch.old }
{
    let threshold = threshold(luma, chroma, plane);
    let shape = inputs[0].shape();
    let threshold = scaled(threshold, shape);
    if shape.bits == 8 {
        soften::<u8>(inputs, plane, y, threshold, samples, out);
    } else {
        let (sums, _) = scratch.totals.as_mut_slice().split_at_mut(samples.len());
        soften::<u16>(inputs, plane, y, threshold, sums, samples);
        write_samples(samples, out);
    }
}
