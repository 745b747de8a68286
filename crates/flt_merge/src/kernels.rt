// Rows of samples: vectors of 32 samples, and plain loops, which the compiler turns into vector instructions.
ghost use Rattle.std.specs.Prelude.{◌≡◌, ◌*◌, length};
ghost use Rattle.std.specs.Simd.Lanes.{zip2};
ghost use Rattle.fv_plane.specs.Picture.{wide_samples};
ghost use Rattle.flt_merge.specs.Rows.{mean};

use fv_plane::wide_sample;
use std::simd::prelude::*;

/// The means of two rows of 8 bits, sample by sample. Halves are rounded up. The three rows have one length, which may be
/// any.
pub fn merge_row(a: &[u8], b: &[u8], out: &mut [u8])
    requires a { length a.now ≡ length out.old }
    requires b { length b.now ≡ length out.old }
    ensures { out.new ≡ zip2 mean a.now b.now }
{
    for k in 0..out.len() / 32 {
        let at = 32 * k;
        let first = u8x32::from_slice(&a[at..]).cast::<u16>();
        let second = u8x32::from_slice(&b[at..]).cast::<u16>();
        let sums = first.strict_add(second).strict_add(u16x32::splat(1));
        let means = sums >> u16x32::splat(1);
        means.cast::<u8>().copy_to_slice(&mut out[at..]);
    }
    for x in out.len() / 32 * 32..out.len() {
        out[x] = ((a[x] as u16 + b[x] as u16 + 1) / 2) as u8;
    }
}

#[inline(always)]
fn mean(a: u16, b: u16) -> u16
    ensures { result ≡ mean a b }
{
    ((a as u32 + b as u32 + 1) / 2) as u16
}

/// The means of the samples of two rows of bytes, where a sample has two, the low one first.
pub fn merge_wide_row(a: &[u8], b: &[u8], out: &mut [u16])
    requires a { length a.now ≡ length out.old * 2 }
    requires b { length b.now ≡ length out.old * 2 }
    ensures { out.new ≡ zip2 mean (wide_samples a.now) (wide_samples b.now) }
{
    for x in 0..out.len() {
        out[x] = mean(wide_sample(a, x), wide_sample(b, x));
    }
}
