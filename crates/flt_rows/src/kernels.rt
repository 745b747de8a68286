// What is done to rows of samples of one byte. Plain loops over slices, which the compiler turns into vector instructions.
ghost use Rattle.std.specs.Prelude.{◌≡◌, ◌+◌, ◌*◌, ◌/◌, ◌<◌, ◌≤◌, ℕ, EachIndex, length, slice_index, [], ◌∷◌};
ghost use Rattle.clip_term.specs.Soft.{near, softened};
ghost use Rattle.flt_rows.specs.Rows.{extended};

use crate::mean::Mean;

// A sample that differs by more than the threshold counts as the middle one.
fn near(threshold: u8, middle: u8, sample: u8) -> u8
    ensures { result ≡ near threshold middle sample }
{
    if middle.abs_diff(sample) <= threshold {
        sample
    } else {
        middle
    }
}

// The mean of three samples beside the second.
fn mean_of_three(threshold: u8, a: u8, middle: u8, b: u8) -> u8
    requires { 0 < threshold }
    ensures { result ≡ softened 1 threshold middle (a ∷ middle ∷ b ∷ []) }
{
    let sum = near(threshold, middle, a) as u16
        + near(threshold, middle, middle) as u16
        + near(threshold, middle, b) as u16;
    ((sum + 1) / 3) as u8
}

// The mean of five samples beside the third.
fn mean_of_five(threshold: u8, a: u8, b: u8, middle: u8, c: u8, d: u8) -> u8
    requires { 0 < threshold }
    ensures { result ≡ softened 2 threshold middle (a ∷ b ∷ middle ∷ c ∷ d ∷ []) }
{
    let sum = near(threshold, middle, a) as u16
        + near(threshold, middle, b) as u16
        + near(threshold, middle, middle) as u16
        + near(threshold, middle, c) as u16
        + near(threshold, middle, d) as u16;
    ((sum + 2) / 5) as u8
}

impl Mean for u8 {
    type Sum = u16;

    ghost totals = { λ sums. sums };

    fn soften_three(a: &[u8], row: &[u8], b: &[u8], threshold: u16, out: &mut [u8]) {
        for x in 0..out.len() {
            out[x] = mean_of_three(threshold as u8, a[x], row[x], b[x]);
        }
    }

    fn soften_five(
        a: &[u8],
        b: &[u8],
        row: &[u8],
        c: &[u8],
        d: &[u8],
        threshold: u16,
        out: &mut [u8],
    ) {
        for x in 0..out.len() {
            out[x] = mean_of_five(threshold as u8, a[x], b[x], row[x], c[x], d[x]);
        }
    }

    fn clear(sums: &mut [u16]) {
        sums.fill(0);
    }

    fn add_near(row: &[u8], other: &[u8], threshold: u16, sums: &mut [u16]) {
        for x in 0..sums.len() {
            sums[x] += near(threshold as u8, row[x], other[x]) as u16;
        }
    }

    #[inline(always)]
    fn mean(sums: &[u16], x: usize, count: u16) -> u16 {
        (sums[x] + count / 2) / count
    }
}

/// A row with its first and last sample repeated before and after it.
pub fn pad_row(row: &[u8], count: usize, padded: &mut [u8])
    requires some { 0 < length row.now }
    requires wide { length row.now ≤ 65535 }
    requires few { count ≤ 2 }
    requires whole { length padded.old ≡ length row.now + 2 * count }
    ensures { padded.new ≡ extended count row.now }
{
    let (start, rest) = padded.split_at_mut(count);
    let (middle, end) = rest.split_at_mut(row.len());
    start.fill(row[0]);
    middle.copy_from_slice(row);
    end.fill(row[row.len() - 1]);
}
