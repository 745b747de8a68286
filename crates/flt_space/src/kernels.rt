// What is done to the samples of a row. Plain loops over slices, which the compiler turns into vector instructions, and
// vectors of 32 samples where a row is changed in its place.
ghost use Rattle.std.specs.Prelude.{◌≡◌, ◌-◌, ◌+◌, ◌*◌, ◌≤◌, EachIndex, length, map, slice_index};
ghost use Rattle.clip_term.specs.Space.{limited};
ghost use Rattle.flt_space.specs.Rows.{padded};

use std::simd::prelude::*;

fn complement(sample: u8) -> u8
    ensures { result ≡ 255 - sample }
{
    255 - sample
}

fn limited(sample: u8, low: u8, high: u8) -> u8
    ensures { result ≡ limited low high sample }
{
    sample.max(low).min(high)
}

/// Turns each sample of 8 bits into its complement: x becomes 255 - x. The row may have any length.
pub fn invert_row(row: &mut [u8])
    ensures { row.new ≡ map (λ sample. 255 - sample) row.old }
{
    for k in 0..row.len() / 32 {
        let at = 32 * k;
        let samples = u8x32::from_slice(&row[at..]);
        (!samples).copy_to_slice(&mut row[at..]);
    }
    for x in row.len() / 32 * 32..row.len() {
        row[x] = complement(row[x]);
    }
}

/// Brings each sample of 8 bits into the bounds `low` to `high`. Where `low` is the greater, each becomes `high`. The row
/// may have any length.
pub fn limit_row(row: &mut [u8], low: u8, high: u8)
    ensures { row.new ≡ map (limited low high) row.old }
{
    for k in 0..row.len() / 32 {
        let at = 32 * k;
        let samples = u8x32::from_slice(&row[at..]);
        let raised = samples.simd_max(u8x32::splat(low));
        raised
            .simd_min(u8x32::splat(high))
            .copy_to_slice(&mut row[at..]);
    }
    for x in row.len() / 32 * 32..row.len() {
        row[x] = limited(row[x], low, high);
    }
}

/// The complement of each sample. A maker writes its row so in one pass, where a copy that is then inverted takes two.
pub fn copy_inverted(row: &[u8], out: &mut [u8])
    requires { length row.now ≡ length out.old }
    ensures { EachIndex out.new (λ x. slice_index out.new x ≡ 255 - slice_index row.now x) }
{
    for x in 0..out.len() {
        out[x] = complement(row[x]);
    }
}

/// Each sample, brought into bounds, in one pass too.
pub fn copy_limited(row: &[u8], low: u8, high: u8, out: &mut [u8])
    requires { length row.now ≡ length out.old }
    ensures { EachIndex out.new (λ x. slice_index out.new x ≡ limited low high (slice_index row.now x)) }
{
    for x in 0..out.len() {
        out[x] = limited(row[x], low, high);
    }
}

/// Each sample times a factor.
pub fn copy_scaled(row: &[u8], factor: u16, out: &mut [u16])
    requires same { length row.now ≡ length out.old }
    requires small { factor ≤ 256 }
    ensures { EachIndex out.new (λ x. slice_index out.new x ≡ slice_index row.now x * factor) }
{
    for x in 0..out.len() {
        out[x] = row[x] as u16 * factor;
    }
}

/// The samples as bytes, which hold them.
pub fn narrow_row(row: &[u16], out: &mut [u8])
    requires same { length row.now ≡ length out.old }
    requires small { EachIndex row.now (λ x. slice_index row.now x ≤ 255) }
    ensures { out.new ≡ row.now }
{
    for x in 0..out.len() {
        out[x] = row[x] as u8;
    }
}

/// The samples from right to left.
pub fn reverse_row(row: &[u8], out: &mut [u8])
    requires { length row.now ≡ length out.old }
    ensures { EachIndex out.new (λ x. slice_index out.new x ≡ slice_index row.now (length row.now - 1 - x)) }
{
    let width = out.len();
    // The row is read forwards, as the rows of a picture lie, and what is written stays in the cache.
    for x in 0..width {
        out[width - 1 - x] = row[x];
    }
}

/// The row after `before` samples of one value, and samples of that value after it.
pub fn pad_row(row: &[u8], before: usize, value: u8, out: &mut [u8])
    requires { before + length row.now ≤ length out.old }
    ensures { out.new ≡ padded before value row.now (length out.old) }
{
    let (start, rest) = out.split_at_mut(before);
    let (middle, end) = rest.split_at_mut(row.len());
    start.fill(value);
    middle.copy_from_slice(row);
    end.fill(value);
}
