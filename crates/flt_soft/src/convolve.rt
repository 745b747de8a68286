// Sums of the samples around a place.
ghost use Rattle.std.specs.Prelude.{◌≡◌, ◌<◌, ◌≤◌, ◌+◌, ◌*◌, ◌^◌, ◌⊎◌, ℕ, pos, negsuc, ◌-ℤ◌, ◌*ℤ◌, ◌≤ℤ◌, length, EachIndex, slice_index, slice_index_or, unsigned_abs, vec_len};
ghost use Rattle.fv_plane.specs.Format.{IsLegal, largest_sample, planes, plane_width, plane_height, row_bytes, scale};
ghost use Rattle.fv_plane.specs.Picture.{look_in};
ghost use Rattle.clip_term.specs.declared.op.SoftOp.TheVariants.{GeneralConvolution};
ghost use Rattle.clip_term.specs.Soft.{place, side_of, weighed, total, divisor_of, convolved};
ghost use Rattle.flt_soft.specs.Pictures.{CanConvolve, CanSoften, bytes_made, shape_of};
ghost use Rattle.flt_rows.specs.Rows.{IsWeight, AreWeights, IsBias, IsWithin, AreWithin};
ghost use Rattle.flt_rows.specs.Squares.{size_of_all, entries_of, IsEnding};

use crate::rows::Stored;
use crate::scratch::Scratch;
use clip_term::Matrix;
use flt_rows::narrow::{self, Ending, Square, Weights, narrow_reciprocal_of};
use flt_rows::reciprocal::reciprocal_of;
use flt_rows::sums::{add_five, add_three, show_row};
use fv_plane::{Frame, Shape, write_samples};

// A place beside another, brought to the edge where it is past it.
fn place(at: u32, step: u32, half: u32, size: u32) -> u32
    requires inside { at < size }
    requires small { size ≤ 65535 }
    requires near { step ≤ 4 }
    ensures place { result ≡ place at step half size }
    ensures inside { result < size }
{
    (at + step).saturating_sub(half).min(size - 1)
}

// A weight by its number.
fn weight(weights: &[i32], k: usize) -> i16
    requires inside { k < length weights.now }
    requires weights { AreWeights weights.now }
    ensures value { result ≡ slice_index_or weights.now k (pos 0) }
    ensures weight { IsWeight result }
{
    weights[k] as i16
}

// The sum of the weights.
fn total(weights: &[i32]) -> i32
    requires few { length weights.now ≤ 25 }
    requires weights { AreWeights weights.now }
    ensures value { result ≡ total weights.now }
    ensures low { negsuc 25599 ≤ℤ result }
    ensures high { result ≤ℤ pos 25600 }
{
    let mut sum = 0;
    for weight in weights {
        sum += *weight;
    }
    sum
}

// The sum of the weights, and 1 where it is 0.
fn divisor_of(weights: &[i32]) -> i32
    requires few { length weights.now ≤ 25 }
    requires weights { AreWeights weights.now }
    ensures value { result ≡ divisor_of weights.now }
    ensures some { 0 < unsigned_abs result }
    ensures small { unsigned_abs result ≤ 25600 }
{
    let sum = total(weights);
    if sum < 0 || sum > 0 { sum } else { 1 }
}

// The sizes of the weights, added up.
fn size_of_all(weights: &[i32]) -> u32
    requires few { length weights.now ≤ 25 }
    requires weights { AreWeights weights.now }
    ensures value { result ≡ size_of_all weights.now }
    ensures size { result ≤ 25600 }
{
    let mut size = 0;
    for weight in weights {
        size += weight.unsigned_abs();
    }
    size
}

// Three weights, from one on.
fn weights_at(weights: &[i32], k: usize) -> Weights
    requires inside { k + 2 < length weights.now }
    requires few { length weights.now ≤ 25 }
    requires weights { AreWeights weights.now }
    ensures left { result.left ≡ slice_index_or weights.now k (pos 0) }
    ensures middle { result.middle ≡ slice_index_or weights.now (k + 1) (pos 0) }
    ensures right { result.right ≡ slice_index_or weights.now (k + 2) (pos 0) }
{
    Weights {
        left: weight(weights, k),
        middle: weight(weights, k + 1),
        right: weight(weights, k + 2),
    }
}

// The weights as a square of three rows.
fn square_of(weights: &[i32]) -> Square
    requires nine { length weights.now ≡ 9 }
    requires weights { AreWeights weights.now }
    ensures { entries_of result ≡ weights.now }
{
    Square {
        above: weights_at(weights, 0),
        middle: weights_at(weights, 3),
        below: weights_at(weights, 6),
    }
}

// How sums end.
fn ending_of(divisor: i32, bias: i32, largest: u16) -> Ending
    requires some { 0 < unsigned_abs divisor }
    requires small { unsigned_abs divisor ≤ 128 }
    requires bias { unsigned_abs bias < 2 ^ 15 }
    requires largest { largest < 2 ^ 15 }
    ensures ending { IsEnding result }
    ensures divisor { result.divisor ≡ divisor }
    ensures bias { pos result.more -ℤ pos result.less ≡ bias }
    ensures largest { result.largest ≡ largest }
{
    let by = narrow_reciprocal_of(divisor.unsigned_abs() as u16);
    let size = bias.unsigned_abs() as u16;
    let (more, less) = if bias < 0 { (0, size) } else { (size, 0) };
    Ending {
        divisor,
        by,
        more,
        less,
        largest,
    }
}

// The sums of the nine samples around each place of a row.
fn sum_nine<T: Stored>(
    input: &Frame,
    plane: u32,
    y: u32,
    weights: &[i32],
    padded: &mut [T],
    sums: &mut [i32],
)
    requires fits { T.fits input.now.shape }
    requires plane { plane < planes input.now.shape.kind }
    requires inside { y < plane_height input.now.shape plane }
    requires nine { length weights.now ≡ 9 }
    requires weights { AreWeights weights.now }
    requires sums { length sums.old ≡ plane_width input.now.shape plane }
    requires padded { length padded.old ≡ length sums.old + 2 }
    ensures sums { (x : ℕ) → x < length sums.new → slice_index_or sums.new x (pos 0)
        ≡ weighed 3 0 weights.now input.now.shape (look_in input.now) plane x y }
    ensures size { AreWithin 1677696000 sums.new }
{
    let height = input.shape().plane_height(plane);
    sums.fill(0);
    for i in 0..3 {
        T::read_padded(input, plane, place(y, i, 1, height), 1, padded);
        let k = 3 * i as usize;
        add_three(
            padded,
            weight(weights, k),
            weight(weights, k + 1),
            weight(weights, k + 2),
            sums,
        );
    }
}

// The sums of the 25 samples around each place of a row.
fn sum_of_25<T: Stored>(
    input: &Frame,
    plane: u32,
    y: u32,
    weights: &[i32],
    padded: &mut [T],
    sums: &mut [i32],
)
    requires fits { T.fits input.now.shape }
    requires plane { plane < planes input.now.shape.kind }
    requires inside { y < plane_height input.now.shape plane }
    requires all { length weights.now ≡ 25 }
    requires weights { AreWeights weights.now }
    requires sums { length sums.old ≡ plane_width input.now.shape plane }
    requires padded { length padded.old ≡ length sums.old + 4 }
    ensures sums { (x : ℕ) → x < length sums.new → slice_index_or sums.new x (pos 0)
        ≡ weighed 5 0 weights.now input.now.shape (look_in input.now) plane x y }
    ensures size { AreWithin 1677696000 sums.new }
{
    let height = input.shape().plane_height(plane);
    sums.fill(0);
    for i in 0..5 {
        T::read_padded(input, plane, place(y, i, 2, height), 2, padded);
        let k = 5 * i as usize;
        add_five(
            padded,
            weight(weights, k),
            weight(weights, k + 1),
            weight(weights, k + 2),
            weight(weights, k + 3),
            weight(weights, k + 4),
            sums,
        );
    }
}

// The sums of the samples around each place of a row.
fn sum_around<T: Stored>(
    input: &Frame,
    plane: u32,
    y: u32,
    weights: &[i32],
    padded: &mut [T],
    sums: &mut [i32],
)
    requires fits { T.fits input.now.shape }
    requires plane { plane < planes input.now.shape.kind }
    requires inside { y < plane_height input.now.shape plane }
    requires square { (length weights.now ≡ 9) ⊎ (length weights.now ≡ 25) }
    requires weights { AreWeights weights.now }
    requires sums { length sums.old ≡ plane_width input.now.shape plane }
    requires padded { length padded.old ≡ length sums.old + 4 }
    ensures sums { (x : ℕ) → x < length sums.new → slice_index_or sums.new x (pos 0)
        ≡ weighed (side_of weights.now) 0 weights.now input.now.shape (look_in input.now) plane x y }
    ensures size { AreWithin 1677696000 sums.new }
{
    if weights.len() == 9 {
        let (padded, _) = padded.split_at_mut(sums.len() + 2);
        sum_nine(input, plane, y, weights, padded, sums);
    } else {
        sum_of_25(input, plane, y, weights, padded, sums);
    }
}

// The bias for samples of this shape.
fn scaled_bias(bias: i32, shape: Shape) -> i32
    requires legal { IsLegal shape }
    requires bias { IsBias bias }
    ensures value { result ≡ bias *ℤ pos (scale shape) }
    ensures size { IsWithin 65280 result }
{
    bias * shape.scale() as i32
}

// A row of the picture that is made, by sums of 32 bits.
fn convolve_in_32_bits<T: Stored>(
    input: &Frame,
    plane: u32,
    y: u32,
    bias: i32,
    weights: &[i32],
    padded: &mut [T],
    sums: &mut [i32],
    out: &mut [T],
)
    requires fits { T.fits input.now.shape }
    requires able { CanConvolve input.now plane y bias weights.now }
    requires whole { length out.old ≡ plane_width input.now.shape plane }
    requires sums { length sums.old ≡ length out.old }
    requires padded { length padded.old ≡ length out.old + 4 }
    ensures { EachIndex out.new (λ x. slice_index (T.numbers out.new) x
        ≡ convolved bias weights.now input.now.shape (look_in input.now) plane x y) }
{
    let shape = input.shape();
    sum_around(input, plane, y, weights, padded, sums);
    let divisor = divisor_of(weights);
    let by = reciprocal_of(divisor.unsigned_abs());
    let bias = scaled_bias(bias, shape);
    show_row(sums, divisor, by, bias, T::largest(input), out);
}

// A row of the picture that is made, by sums of 16 bits.
fn convolve_in_16_bits<T: Stored>(
    input: &Frame,
    plane: u32,
    y: u32,
    bias: i32,
    weights: &[i32],
    out: &mut [T],
)
    requires fits { T.fits input.now.shape }
    requires plane { plane < planes input.now.shape.kind }
    requires inside { y < plane_height input.now.shape plane }
    requires nine { length weights.now ≡ 9 }
    requires weights { AreWeights weights.now }
    requires small { largest_sample input.now.shape < 2 ^ 15 }
    requires light { size_of_all weights.now * largest_sample input.now.shape < 2 ^ 15 }
    requires bias { IsBias bias }
    requires whole { length out.old ≡ plane_width input.now.shape plane }
    ensures { EachIndex out.new (λ x. slice_index (T.numbers out.new) x
        ≡ convolved bias weights.now input.now.shape (look_in input.now) plane x y) }
{
    let shape = input.shape();
    let height = shape.plane_height(plane);
    let above = T::row(input, plane, place(y, 0, 1, height));
    let row = T::row(input, plane, y);
    let below = T::row(input, plane, place(y, 2, 1, height));
    let bias = scaled_bias(bias, shape);
    let largest = T::largest(input);
    let ending = ending_of(divisor_of(weights), bias, largest);
    narrow::convolve_row(square_of(weights), ending, largest, above, row, below, out);
}

// A row of the picture that is made. Where 16 bits hold all sums, they take less than half the time.
fn convolve_row<T: Stored>(
    input: &Frame,
    plane: u32,
    y: u32,
    bias: i32,
    weights: &[i32],
    padded: &mut [T],
    sums: &mut [i32],
    out: &mut [T],
)
    requires fits { T.fits input.now.shape }
    requires able { CanConvolve input.now plane y bias weights.now }
    requires whole { length out.old ≡ plane_width input.now.shape plane }
    requires sums { length sums.old ≡ length out.old }
    requires padded { length padded.old ≡ length out.old + 4 }
    ensures { EachIndex out.new (λ x. slice_index (T.numbers out.new) x
        ≡ convolved bias weights.now input.now.shape (look_in input.now) plane x y) }
{
    let largest = T::largest(input) as u32;
    let size = size_of_all(weights);
    if weights.len() == 9 && largest < 1 << 15 && size * largest < 1 << 15 {
        convolve_in_16_bits(input, plane, y, bias, weights, out);
    } else {
        convolve_in_32_bits(input, plane, y, bias, weights, padded, sums, out);
    }
}

// The same, in rows that may be wider. A row of fewer than three samples is padded in a short one.
fn convolve_in<T: Stored>(
    input: &Frame,
    plane: u32,
    y: u32,
    bias: i32,
    weights: &[i32],
    short: &mut [T],
    padded: &mut Vec<T>,
    sums: &mut Vec<i32>,
    out: &mut [T],
)
    requires fits { T.fits input.now.shape }
    requires able { CanConvolve input.now plane y bias weights.now }
    requires whole { length out.old ≡ plane_width input.now.shape plane }
    requires sums { length out.old ≤ vec_len sums.old }
    requires short { length short.old ≡ 6 }
    requires padded { 3 ≤ length out.old → length out.old + 4 ≤ vec_len padded.old }
    ensures row { EachIndex out.new (λ x. slice_index (T.numbers out.new) x
        ≡ convolved bias weights.now input.now.shape (look_in input.now) plane x y) }
    ensures sums { vec_len sums.new ≡ vec_len sums.old }
    ensures padded { vec_len padded.new ≡ vec_len padded.old }
{
    // The input is a picture, of whole rows.
    let _ = input.shape();
    let width = out.len();
    let (sums, _) = sums.as_mut_slice().split_at_mut(width);
    if width < 3 {
        let (padded, _) = short.split_at_mut(width + 4);
        convolve_row(input, plane, y, bias, weights, padded, sums, out);
    } else {
        let (padded, _) = padded.as_mut_slice().split_at_mut(width + 4);
        convolve_row(input, plane, y, bias, weights, padded, sums, out);
    }
}

/// The bytes of a row that `GeneralConvolution` makes: each sample becomes the sum of those around it, each times its weight,
/// divided by the sum of the weights, plus the bias.
pub fn convolved_row(
    inputs: &[Frame],
    bias: i32,
    matrix: &Matrix,
    plane: u32,
    y: u32,
    scratch: &mut Scratch,
    samples: &mut [u16],
    out: &mut [u8],
)
    requires able { CanSoften (GeneralConvolution bias matrix.now) inputs.now }
    requires plane { plane < planes (shape_of inputs.now).kind }
    requires inside { y < plane_height (shape_of inputs.now) plane }
    requires whole { length out.old ≡ row_bytes (shape_of inputs.now) plane }
    requires samples { length samples.old ≡ plane_width (shape_of inputs.now) plane }
    requires room { plane_width (shape_of inputs.now) plane ≤ scratch.old }
    ensures row { out.new ≡ bytes_made (GeneralConvolution bias matrix.now) inputs.now plane y }
    ensures room { scratch.new ≡ scratch.old }
{
    let input = &inputs[0];
    let weights = matrix.entries.as_slice();
    let sums = &mut scratch.sums;
    let shape = input.shape();
    if shape.bits == 8 {
        let mut short = [0u8; 6];
        let padded = &mut scratch.padded;
        convolve_in(
            input, plane, y, bias, weights, &mut short, padded, sums, out,
        );
    } else {
        let mut short = [0u16; 6];
        let padded = &mut scratch.wide_padded;
        convolve_in(
            input, plane, y, bias, weights, &mut short, padded, sums, samples,
        );
        write_samples(samples, out);
    }
}
