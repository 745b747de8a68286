// What is done to the samples of a row, where they have two bytes. Plain loops over slices, as in `kernels`, which
// read the samples of a row's bytes where they use them.
ghost use Rattle.std.specs.Prelude.{◌≡◌, ◌-◌, ◌+◌, ◌*◌, ◌/◌, ◌^◌, ◌<◌, ◌≤◌, ℕ, min, EachIndex, length, slice_index};
ghost use Rattle.clip_term.specs.Space.{limited};
ghost use Rattle.fv_plane.specs.Picture.{wide_bytes, wide_samples, row_of};
ghost use Rattle.fv_plane.specs.Format.{planes, plane_width, plane_height, sample_bytes};
ghost use Rattle.flt_space.specs.Rows.{padded};

use fv_plane::{Frame, wide_sample, write_samples};

/// The bytes of a row of samples of two bytes.
pub fn wide_row(input: &Frame, plane: u32, y: u32) -> &[u8]
    requires wide { sample_bytes input.now.shape ≡ 2 }
    requires plane { plane < planes input.now.shape.kind }
    requires inside { y < plane_height input.now.shape plane }
    ensures row { wide_samples result.now ≡ row_of input.now.planes plane y }
    ensures whole { length result.now ≡ plane_width input.now.shape plane * 2 }
    ensures long { length (wide_samples result.now) ≡ plane_width input.now.shape plane }
{
    input.row(plane, y)
}

// The sample in column `x` of the bytes of a row.
#[inline(always)]
fn sample(row: &[u8], x: usize) -> u16
    requires { 2 * x + 1 < length row.now }
    ensures { result ≡ slice_index (wide_samples row.now) x }
{
    wide_sample(row, x)
}

/// The complement of each sample.
pub fn copy_inverted(row: &[u8], largest: u16, out: &mut [u16])
    requires same { length row.now ≡ length out.old * 2 }
    requires small { (x : ℕ) → slice_index (wide_samples row.now) x ≤ largest }
    ensures { EachIndex out.new (λ x. slice_index out.new x ≡ largest - slice_index (wide_samples row.now) x) }
{
    for x in 0..out.len() {
        out[x] = largest - sample(row, x);
    }
}

fn limited(sample: u16, low: u16, high: u16) -> u16
    ensures { result ≡ limited low high sample }
{
    sample.max(low).min(high)
}

/// Each sample, brought into bounds.
pub fn copy_limited(row: &[u8], low: u16, high: u16, out: &mut [u16])
    requires { length row.now ≡ length out.old * 2 }
    ensures { EachIndex out.new (λ x. slice_index out.new x ≡ limited low high (slice_index (wide_samples row.now) x)) }
{
    for x in 0..out.len() {
        out[x] = limited(sample(row, x), low, high);
    }
}

/// Each sample times a factor.
pub fn copy_scaled(row: &[u8], factor: u16, out: &mut [u16])
    requires same { length row.now ≡ length out.old * 2 }
    requires small { (x : ℕ) → slice_index (wide_samples row.now) x * factor ≤ 65535 }
    ensures { EachIndex out.new (λ x. slice_index out.new x ≡ slice_index (wide_samples row.now) x * factor) }
{
    for x in 0..out.len() {
        out[x] = sample(row, x) * factor;
    }
}

// A sample without its last bits, rounded, and at most the largest.
fn rounded(sample: u16, bits: u32, largest: u16) -> u16
    requires some { 1 ≤ bits }
    requires few { bits ≤ 16 }
    ensures { result ≡ min largest ((sample + 2 ^ (bits - 1)) / 2 ^ bits) }
{
    let half = 1u32 << (bits - 1);
    let quotient = (sample as u32 + half) >> bits;
    quotient.min(largest as u32) as u16
}

/// Each sample without its last bits, rounded with a half upwards, and at most the largest.
pub fn copy_rounded(row: &[u8], bits: u32, largest: u16, out: &mut [u16])
    requires same { length row.now ≡ length out.old * 2 }
    requires some { 1 ≤ bits }
    requires few { bits ≤ 16 }
    ensures { EachIndex out.new (λ x.
        slice_index out.new x ≡ min largest ((slice_index (wide_samples row.now) x + 2 ^ (bits - 1)) / 2 ^ bits)) }
{
    for x in 0..out.len() {
        out[x] = rounded(sample(row, x), bits, largest);
    }
}

/// The samples from right to left.
pub fn reverse_row(row: &[u8], out: &mut [u16])
    requires { length row.now ≡ length out.old * 2 }
    ensures { EachIndex out.new (λ x. slice_index out.new x ≡ slice_index (wide_samples row.now) (length out.new - 1 - x)) }
{
    let width = out.len();
    for x in 0..width {
        out[width - 1 - x] = sample(row, x);
    }
}

/// The bytes of the row after those of `before` samples of one value, and of samples of that value after it. `samples` is
/// for these.
pub fn pad_bytes(row: &[u8], before: usize, value: u16, samples: &mut [u16], out: &mut [u8])
    requires whole { wide_bytes (wide_samples row.now) ≡ row.now }
    requires even { length row.now ≡ length (wide_samples row.now) * 2 }
    requires inside { before + length (wide_samples row.now) ≤ length samples.old }
    requires same { length out.old ≡ length samples.old * 2 }
    ensures { out.new ≡ wide_bytes (padded before value (wide_samples row.now) (length samples.old)) }
{
    let after = samples.len() - before - row.len() / 2;
    let (start, rest) = out.split_at_mut(2 * before);
    let (middle, end) = rest.split_at_mut(row.len());
    middle.copy_from_slice(row);
    let (edge, _) = samples.split_at_mut(before.max(after));
    edge.fill(value);
    write_samples(&edge[..before], start);
    write_samples(&edge[..after], end);
}
