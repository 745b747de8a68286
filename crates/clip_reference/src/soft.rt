// The samples of what a frame becomes by its neighbours.
ghost use Rattle.std.specs.Prelude.{◌≡◌, ◌≢◌, int_div, ◌+◌, ◌-◌, ◌*◌, ◌/◌, ◌≤◌, ◌<◌, ℤ, pos, ◌≤ℤ◌, ◌*ℤ◌, neg_ℤ, ◌^◌, length, map};
ghost use Rattle.std.specs.List.{sum};
ghost use Rattle.fv_plane.specs.Format.{IsLegal, scale, largest_sample};
ghost use Rattle.fv_plane.specs.Picture.{look_in, look_at};
ghost use Rattle.clip_term.specs.Refusals.{nat_of};
ghost use Rattle.clip_term.specs.Soft.{soft_at, softened, near, samples_at, side_of, place, weighed, total, divisor_of, sample_from, convolved};
ghost use Rattle.clip_reference.specs.Ready.{HasNeighbours};

use crate::place::{height, look, look_at, width};
use clip_term::SoftOp;
use fv_plane::{Frame, Shape};

/// A sample of what the op makes of the frames that it asks.
pub fn soft_sample(op: &SoftOp, shape: Shape, frames: &[Frame], plane: u32, x: u32, y: u32) -> u16
    requires asked { HasNeighbours op.now (length frames.now) }
    requires legal { IsLegal shape }
    ensures { result ≡ soft_at op.now shape (map look_in frames.now) plane x y }
{
    match op {
        SoftOp::TemporalSoften {
            radius,
            luma,
            chroma,
        } => {
            let threshold = if plane == 0 { *luma } else { *chroma };
            softened(shape, *radius, threshold, frames, plane, x, y)
        }
        SoftOp::GeneralConvolution { bias, matrix } => convolved(
            *bias,
            matrix.entries.as_slice(),
            shape,
            &frames[0],
            plane,
            x,
            y,
        ),
    }
}

// A sample that differs by more than the threshold counts as the middle one.
fn near(threshold: u64, middle: u16, sample: u16) -> u16
    requires { threshold < 2 ^ 48 }
    ensures { result ≡ near threshold middle sample }
{
    if sample as u64 <= middle as u64 + threshold && middle as u64 <= sample as u64 + threshold {
        sample
    } else {
        middle
    }
}

// The mean of the samples at a place.
fn softened(
    shape: Shape,
    radius: i32,
    threshold: i32,
    frames: &[Frame],
    plane: u32,
    x: u32,
    y: u32,
) -> u16
    requires count { length frames.now ≡ 2 * nat_of radius + 1 }
    requires legal { IsLegal shape }
    ensures { result ≡ softened (nat_of radius) (nat_of threshold * scale shape)
        (look_at (map look_in frames.now) (nat_of radius) plane x y) (samples_at (map look_in frames.now) plane x y) }
{
    let radius = radius.unsigned_abs() as u64;
    let threshold = threshold.unsigned_abs() as u64 * shape.scale() as u64;
    let middle = look_at(frames, radius as usize, plane, x as u64, y as u64);
    if threshold == 0 {
        return middle;
    }
    let mut sum = 0;
    for frame in frames {
        let sample = look(frame, plane, x as u64, y as u64);
        sum += near(threshold, middle, sample) as u64;
    }
    ((sum + radius) / (2 * radius + 1)) as u16
}

// The side of a square of weights.
fn side_of(matrix: &[i32]) -> u64
    ensures { result ≡ side_of matrix.now }
{
    if matrix.len() == 9 { 3 } else { 5 }
}

// A place beside another, brought to the edge where it is past it.
fn place(at: u32, step: u64, half: u64, size: u64) -> u64
    requires { step < 256 }
    ensures { result ≡ place at step half size }
{
    (at as u64 + step)
        .saturating_sub(half)
        .min(size.saturating_sub(1))
}

fn times(number: i32, factor: u16) -> i64
    ensures value { result ≡ number *ℤ pos factor }
    ensures low { neg_ℤ (pos (2 ^ 47)) ≤ℤ result }
    ensures high { result ≤ℤ pos (2 ^ 47) }
{
    number as i64 * factor as i64
}

// The entries, each times the sample that it lies on.
fn weighed(matrix: &[i32], shape: Shape, input: &Frame, plane: u32, x: u32, y: u32) -> i64
    requires { length matrix.now ≤ 25 }
    ensures value { result ≡ weighed (side_of matrix.now) 0 matrix.now shape (look_in input.now) plane x y }
    ensures low { neg_ℤ (pos (2 ^ 52)) ≤ℤ result }
    ensures high { result ≤ℤ pos (2 ^ 52) }
{
    let side = side_of(matrix);
    let mut sum = 0;
    for (k, entry) in matrix.iter().enumerate() {
        let column = place(x, k as u64 % side, side / 2, width(shape, plane));
        let row = place(y, k as u64 / side, side / 2, height(shape, plane));
        sum += times(*entry, look(input, plane, column, row));
    }
    sum
}

// The sum of the entries.
fn total(matrix: &[i32]) -> i64
    requires { length matrix.now ≤ 25 }
    ensures { result ≡ total matrix.now }
{
    let mut sum = 0;
    for entry in matrix {
        sum += *entry as i64;
    }
    sum
}

// The sum of the entries, and 1 where it is 0.
fn divisor_of(matrix: &[i32]) -> i64
    requires { length matrix.now ≤ 25 }
    ensures value { result ≡ divisor_of matrix.now }
    ensures some { result ≢ pos 0 }
{
    let sum = total(matrix);
    if sum < 0 || sum > 0 { sum } else { 1 }
}

// The sample nearest to a number.
fn sample_from(greatest: u16, number: i64) -> u16
    ensures { result ≡ sample_from greatest number }
{
    if number < 0 {
        0
    } else {
        number.unsigned_abs().min(greatest as u64) as u16
    }
}

// Rounded towards 0.
fn mean(sum: i64, divisor: i64) -> i64
    requires some { divisor ≢ pos 0 }
    requires low { neg_ℤ (pos (2 ^ 52)) ≤ℤ sum }
    requires high { sum ≤ℤ pos (2 ^ 52) }
    ensures value { result ≡ int_div sum divisor }
    ensures low { neg_ℤ (pos (2 ^ 52)) ≤ℤ result }
    ensures high { result ≤ℤ pos (2 ^ 52) }
{
    sum / divisor
}

fn convolved(
    bias: i32,
    matrix: &[i32],
    shape: Shape,
    input: &Frame,
    plane: u32,
    x: u32,
    y: u32,
) -> u16
    requires size { length matrix.now ≤ 25 }
    requires legal { IsLegal shape }
    ensures { result ≡ convolved bias matrix.now shape (look_in input.now) plane x y }
{
    let sum = weighed(matrix, shape, input, plane, x, y);
    sample_from(
        shape.largest_sample(),
        mean(sum, divisor_of(matrix)) + times(bias, shape.scale()),
    )
}
