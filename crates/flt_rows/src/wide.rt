// What is done to rows of samples of two bytes. Plain loops over slices, which the compiler turns into vector
// instructions.
ghost use Rattle.std.specs.Prelude.{◌≡◌, ◌+◌, ◌*◌, ◌/◌, ◌<◌, ◌≤◌, ℕ, EachIndex, length, slice_index, [], ◌∷◌};
ghost use Rattle.fv_plane.specs.Picture.{wide_samples};
ghost use Rattle.clip_term.specs.Soft.{near, softened};

use crate::mean::Mean;
use crate::sample::Sample;

// A sample that differs by more than the threshold counts as the middle one.
#[inline(always)]
fn near(threshold: u16, middle: u16, sample: u16) -> u16
    ensures { result ≡ near threshold middle sample }
{
    if middle.abs_diff(sample) <= threshold {
        sample
    } else {
        middle
    }
}

// The mean of three samples beside the second.
#[inline(always)]
fn mean_of_three(threshold: u16, a: u16, middle: u16, b: u16) -> u16
    requires { 0 < threshold }
    ensures { result ≡ softened 1 threshold middle (a ∷ middle ∷ b ∷ []) }
{
    let sum = near(threshold, middle, a) as u32
        + near(threshold, middle, middle) as u32
        + near(threshold, middle, b) as u32;
    ((sum + 1) / 3) as u16
}

// The mean of five samples beside the third.
#[inline(always)]
fn mean_of_five(threshold: u16, a: u16, b: u16, middle: u16, c: u16, d: u16) -> u16
    requires { 0 < threshold }
    ensures { result ≡ softened 2 threshold middle (a ∷ b ∷ middle ∷ c ∷ d ∷ []) }
{
    let sum = near(threshold, middle, a) as u32
        + near(threshold, middle, b) as u32
        + near(threshold, middle, middle) as u32
        + near(threshold, middle, c) as u32
        + near(threshold, middle, d) as u32;
    ((sum + 2) / 5) as u16
}

impl Mean for u16 {
    type Sum = u32;

    ghost totals = { λ sums. sums };

    fn soften_three(a: &[u8], row: &[u8], b: &[u8], threshold: u16, out: &mut [u16]) {
        for x in 0..out.len() {
            let middle = u16::read(row, x);
            out[x] = mean_of_three(threshold, u16::read(a, x), middle, u16::read(b, x));
        }
    }

    fn soften_five(
        a: &[u8],
        b: &[u8],
        row: &[u8],
        c: &[u8],
        d: &[u8],
        threshold: u16,
        out: &mut [u16],
    ) {
        for x in 0..out.len() {
            let middle = u16::read(row, x);
            out[x] = mean_of_five(
                threshold,
                u16::read(a, x),
                u16::read(b, x),
                middle,
                u16::read(c, x),
                u16::read(d, x),
            );
        }
    }

    fn clear(sums: &mut [u32]) {
        sums.fill(0);
    }

    fn add_near(row: &[u8], other: &[u8], threshold: u16, sums: &mut [u32]) {
        for x in 0..sums.len() {
            sums[x] += near(threshold, u16::read(row, x), u16::read(other, x)) as u32;
        }
    }

    #[inline(always)]
    fn mean(sums: &[u32], x: usize, count: u16) -> u16 {
        ((sums[x] + count as u32 / 2) / count as u32) as u16
    }
}
