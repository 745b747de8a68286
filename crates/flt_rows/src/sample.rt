// Samples of one byte and of two.
ghost use Rattle.std.specs.Prelude.{◌≡◌, ◌<◌, ◌≤◌, ℕ, List, length, set, slice_index, refl};
ghost use Rattle.std.proofs.Common.{rules};
ghost use Rattle.fv_plane.specs.Picture.{wide_samples};

use fv_plane::wide_sample;

/// A sample of one byte or of two, the low one first. What is done to rows sees each as a number.
pub trait Sample: Copy {
    // The largest number that it can be.
    ghost most: { ℕ };

    // The numbers of a row of samples.
    ghost numbers: { List Self → List ℕ };

    // The numbers of the bytes of a row.
    ghost of_bytes: { List ℕ → List ℕ };

    /// A sample of a row.
    fn at(row: &[Self], x: usize) -> u16
        requires { x < length row.now }
        ensures { result ≡ slice_index (numbers row.now) x };

    /// Puts a sample into a row.
    fn put(row: &mut [Self], x: usize, sample: u16)
        requires inside { x < length row.old }
        requires few { sample ≤ most }
        ensures { numbers row.new ≡ set (numbers row.old) x sample };

    /// A sample of a row of bytes.
    fn read(row: &[u8], x: usize) -> u16
        requires { x < length (of_bytes row.now) }
        ensures { result ≡ slice_index (of_bytes row.now) x };

    // A row has as many numbers as samples.
    ghost long: { (row : List Self) → length (numbers row) ≡ length row };

    // A sample has eight bits at least.
    ghost large: { 255 ≤ most };
}

impl Sample for u8 {
    ghost most = { 255 };

    ghost numbers = { λ row. row };

    ghost of_bytes = { λ row. row };

    ghost long = { λ row. refl };

    ghost large = { Prim.search rules };

    #[inline(always)]
    fn at(row: &[u8], x: usize) -> u16 {
        row[x] as u16
    }

    #[inline(always)]
    fn put(row: &mut [u8], x: usize, sample: u16) {
        row[x] = sample as u8;
    }

    #[inline(always)]
    fn read(row: &[u8], x: usize) -> u16 {
        row[x] as u16
    }
}

impl Sample for u16 {
    ghost most = { 65535 };

    ghost numbers = { λ row. row };

    ghost of_bytes = { wide_samples };

    ghost long = { λ row. refl };

    ghost large = { Prim.search rules };

    #[inline(always)]
    fn at(row: &[u16], x: usize) -> u16 {
        row[x]
    }

    #[inline(always)]
    fn put(row: &mut [u16], x: usize, sample: u16) {
        row[x] = sample;
    }

    #[inline(always)]
    fn read(row: &[u8], x: usize) -> u16 {
        wide_sample(row, x)
    }
}
