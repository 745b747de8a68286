// Means of rows that follow each other.
ghost use Rattle.std.specs.Prelude.{◌≡◌, ◌+◌, ◌*◌, ◌/◌, ◌<◌, ◌≤◌, ℕ, List, EachIndex, length, slice_index, [], ◌∷◌};
ghost use Rattle.clip_term.specs.Soft.{near, softened};

use crate::sample::Sample;

/// Means of the samples of rows of bytes. Each size of samples has its own, so that vectors have as many samples as may be.
pub trait Mean: Sample {
    /// The sum of samples of at most 15 rows.
    type Sum: Copy;

    // The numbers of a row of sums.
    ghost totals: { List Self.Sum → List ℕ };

    /// The means of three rows, beside the second.
    fn soften_three(a: &[u8], row: &[u8], b: &[u8], threshold: u16, out: &mut [Self])
        requires some { 0 < threshold }
        requires most { threshold ≤ Self.most }
        requires a { length (Self.of_bytes a.now) ≡ length out.old }
        requires row { length (Self.of_bytes row.now) ≡ length out.old }
        requires b { length (Self.of_bytes b.now) ≡ length out.old }
        ensures { EachIndex out.new (λ x. let at = λ (row : List ℕ). slice_index (Self.of_bytes row) x in
            slice_index (Self.numbers out.new) x
            ≡ softened 1 threshold (at row.now) (at a.now ∷ at row.now ∷ at b.now ∷ [])) };

    /// The means of five rows, beside the third.
    fn soften_five(
        a: &[u8],
        b: &[u8],
        row: &[u8],
        c: &[u8],
        d: &[u8],
        threshold: u16,
        out: &mut [Self],
    )
        requires some { 0 < threshold }
        requires most { threshold ≤ Self.most }
        requires a { length (Self.of_bytes a.now) ≡ length out.old }
        requires b { length (Self.of_bytes b.now) ≡ length out.old }
        requires row { length (Self.of_bytes row.now) ≡ length out.old }
        requires c { length (Self.of_bytes c.now) ≡ length out.old }
        requires d { length (Self.of_bytes d.now) ≡ length out.old }
        ensures { EachIndex out.new (λ x. let at = λ (row : List ℕ). slice_index (Self.of_bytes row) x in
            slice_index (Self.numbers out.new) x
            ≡ softened 2 threshold (at row.now) (at a.now ∷ at b.now ∷ at row.now ∷ at c.now ∷ at d.now ∷ [])) };

    /// Sums of no rows.
    fn clear(sums: &mut [Self::Sum])
        ensures { (x : ℕ) → slice_index (totals sums.new) x ≡ 0 };

    /// Adds a row to sums, each sample beside that of the middle row.
    fn add_near(row: &[u8], other: &[u8], threshold: u16, sums: &mut [Self::Sum])
        requires most { threshold ≤ Self.most }
        requires row { length (Self.of_bytes row.now) ≡ length sums.old }
        requires other { length (Self.of_bytes other.now) ≡ length sums.old }
        requires room { (x : ℕ) → slice_index (totals sums.old) x ≤ Self.most * (Self.most + 1) }
        ensures sums { (x : ℕ) → x < length sums.new → slice_index (totals sums.new) x
            ≡ slice_index (totals sums.old) x
            + near threshold (slice_index (Self.of_bytes row.now) x) (slice_index (Self.of_bytes other.now) x) }
        ensures few { (x : ℕ) → slice_index (totals sums.new) x ≤ slice_index (totals sums.old) x + Self.most };

    /// The mean of a sum of so many samples.
    fn mean(sums: &[Self::Sum], x: usize, count: u16) -> u16
        requires inside { x < length sums.now }
        requires some { 0 < count }
        requires few { count ≤ 255 }
        requires sums { slice_index (totals sums.now) x ≤ Self.most * count }
        ensures value { result ≡ (slice_index (totals sums.now) x + count / 2) / count }
        ensures most { result ≤ Self.most };
}

/// The means of the sums of so many rows.
pub fn mean_row<T: Mean, const COUNT: u16>(sums: &[T::Sum], out: &mut [T])
    requires same { length sums.now ≡ length out.old }
    requires some { 0 < COUNT }
    requires few { COUNT ≤ 255 }
    requires sums { (x : ℕ) → slice_index (T.totals sums.now) x ≤ T.most * COUNT }
    ensures { EachIndex out.new (λ x. slice_index (T.numbers out.new) x
        ≡ (slice_index (T.totals sums.now) x + COUNT / 2) / COUNT) }
{
    for x in 0..out.len() {
        T::put(out, x, T::mean(sums, x, COUNT));
    }
}
