// Squares of nine weights that are so small that 16 bits hold each sum, which has twice as many samples in a vector
// instruction as 32 bits have.
ghost use Rattle.std.specs.Prelude.{◌≡◌, ◌+◌, ◌*◌, ◌/◌, ◌^◌, ◌<◌, ◌≤◌, pos, ◌+ℤ◌, ◌-ℤ◌, ◌*ℤ◌, EachIndex, length, slice_index, unsigned_abs};
ghost use Rattle.clip_term.specs.Soft.{sample_from};
ghost use Rattle.flt_rows.specs.Squares.{size_of, size_of_square, weighed_at, weighed_square, weighed_around, shown, AreAtMost, IsEnding, IsNarrowReciprocal};

use crate::sample::Sample;

/// The weights of three samples side by side.
#[derive(Clone, Copy)]
pub struct Weights {
    pub left: i16,
    pub middle: i16,
    pub right: i16,
}

/// The weights of the samples around a place, row by row.
#[derive(Clone, Copy)]
pub struct Square {
    pub above: Weights,
    pub middle: Weights,
    pub below: Weights,
}

/// What a number is multiplied by, and how many bits past the lowest 15 are then left out, in place of a division.
#[derive(Clone, Copy)]
pub struct NarrowReciprocal {
    pub factor: u16,
    pub bits: u16,
}

/// What is done to a sum: it is divided, and then more is added and less is taken off. No sample is over the largest.
#[derive(Clone, Copy)]
pub struct Ending {
    pub divisor: i32,
    pub by: NarrowReciprocal,
    pub more: u16,
    pub less: u16,
    pub largest: u16,
}

// The reciprocal of a divisor beside a power of 2.
fn reciprocal_at(divisor: u16, bits: u16) -> NarrowReciprocal
    requires some { 0 < divisor }
    requires few { bits ≤ 7 }
    requires below { divisor ≤ 2 ^ bits }
    requires above { 2 ^ bits < 2 * divisor }
    ensures { IsNarrowReciprocal divisor result.factor result.bits }
{
    let factor = ((1u32 << (15 + bits)) + divisor as u32 - 1) / divisor as u32;
    NarrowReciprocal {
        factor: factor as u16,
        bits,
    }
}

/// The reciprocal of a divisor.
pub fn narrow_reciprocal_of(divisor: u16) -> NarrowReciprocal
    requires some { 0 < divisor }
    requires small { divisor ≤ 128 }
    ensures { IsNarrowReciprocal divisor result.factor result.bits }
{
    if divisor == 1 {
        reciprocal_at(divisor, 0)
    } else if divisor == 2 {
        reciprocal_at(divisor, 1)
    } else if divisor <= 4 {
        reciprocal_at(divisor, 2)
    } else if divisor <= 8 {
        reciprocal_at(divisor, 3)
    } else if divisor <= 16 {
        reciprocal_at(divisor, 4)
    } else if divisor <= 32 {
        reciprocal_at(divisor, 5)
    } else if divisor <= 64 {
        reciprocal_at(divisor, 6)
    } else {
        reciprocal_at(divisor, 7)
    }
}

// A sample times its weight.
fn times(weight: i16, sample: u16, largest: u16) -> i16
    requires few { sample ≤ largest }
    requires largest { largest < 2 ^ 15 }
    requires light { unsigned_abs weight * largest < 2 ^ 15 }
    ensures value { result ≡ weight *ℤ pos sample }
    ensures size { unsigned_abs result ≤ unsigned_abs weight * largest }
{
    weight * sample as i16
}

/// The sum of two numbers whose sizes leave room for it.
pub fn add(a: i16, b: i16) -> i16
    requires { unsigned_abs a + unsigned_abs b < 2 ^ 15 }
    ensures value { result ≡ a +ℤ b }
    ensures size { unsigned_abs result ≤ unsigned_abs a + unsigned_abs b }
{
    a + b
}

// Three samples of a row, each times its weight.
fn weigh<T: Sample>(
    weights: Weights,
    largest: u16,
    row: &[u8],
    left: usize,
    x: usize,
    right: usize,
) -> i16
    requires left { left < length (T.of_bytes row.now) }
    requires inside { x < length (T.of_bytes row.now) }
    requires right { right < length (T.of_bytes row.now) }
    requires few { AreAtMost largest (T.of_bytes row.now) }
    requires largest { largest < 2 ^ 15 }
    requires light { size_of weights * largest < 2 ^ 15 }
    ensures value { result ≡ weighed_at weights (T.of_bytes row.now) left x right }
    ensures size { unsigned_abs result ≤ size_of weights * largest }
{
    let two = add(
        times(weights.left, T::read(row, left), largest),
        times(weights.middle, T::read(row, x), largest),
    );
    add(two, times(weights.right, T::read(row, right), largest))
}

// Three samples of each of three rows, each times its weight.
fn weigh_square<T: Sample>(
    square: Square,
    largest: u16,
    above: &[u8],
    row: &[u8],
    below: &[u8],
    left: usize,
    x: usize,
    right: usize,
) -> i16
    requires left { left < length (T.of_bytes row.now) }
    requires inside { x < length (T.of_bytes row.now) }
    requires right { right < length (T.of_bytes row.now) }
    requires above { length (T.of_bytes above.now) ≡ length (T.of_bytes row.now) }
    requires below { length (T.of_bytes below.now) ≡ length (T.of_bytes row.now) }
    requires few_above { AreAtMost largest (T.of_bytes above.now) }
    requires few { AreAtMost largest (T.of_bytes row.now) }
    requires few_below { AreAtMost largest (T.of_bytes below.now) }
    requires largest { largest < 2 ^ 15 }
    requires light { size_of_square square * largest < 2 ^ 15 }
    ensures value { result ≡ weighed_square square (T.of_bytes above.now) (T.of_bytes row.now)
        (T.of_bytes below.now) left x right }
    ensures size { unsigned_abs result < 2 ^ 15 }
{
    let two = add(
        weigh::<T>(square.above, largest, above, left, x, right),
        weigh::<T>(square.middle, largest, row, left, x, right),
    );
    add(
        two,
        weigh::<T>(square.below, largest, below, left, x, right),
    )
}

/// A quotient, by the upper half of a product of 16 bits.
pub fn divide(n: u16, divisor: u16, by: NarrowReciprocal) -> u16
    requires by { IsNarrowReciprocal divisor by.factor by.bits }
    requires small { n < 2 ^ 15 }
    ensures { result ≡ n / divisor }
{
    let upper = (((2 * n) as u32 * by.factor as u32) >> 16) as u16;
    upper >> by.bits
}

// The sample nearest to the difference of two numbers.
fn sample_between(more: u16, less: u16, largest: u16) -> u16
    ensures value { result ≡ sample_from largest (pos more -ℤ pos less) }
    ensures few { result ≤ largest }
{
    more.saturating_sub(less).min(largest)
}

/// A sum, divided and raised, brought into the values of a sample.
pub fn show(sum: i16, ending: Ending) -> u16
    requires ending { IsEnding ending }
    requires size { unsigned_abs sum < 2 ^ 15 }
    ensures value { result ≡ shown ending sum }
    ensures few { result ≤ ending.largest }
{
    let size = divide(
        sum.unsigned_abs(),
        ending.divisor.unsigned_abs() as u16,
        ending.by,
    );
    if (sum < 0) == (ending.divisor < 0) {
        sample_between(size + ending.more, ending.less, ending.largest)
    } else {
        sample_between(ending.more, size + ending.less, ending.largest)
    }
}

// The sample at a place, from those around it.
fn show_square<T: Sample>(
    square: Square,
    ending: Ending,
    most: u16,
    above: &[u8],
    row: &[u8],
    below: &[u8],
    left: usize,
    x: usize,
    right: usize,
) -> u16
    requires left { left < length (T.of_bytes row.now) }
    requires inside { x < length (T.of_bytes row.now) }
    requires right { right < length (T.of_bytes row.now) }
    requires above { length (T.of_bytes above.now) ≡ length (T.of_bytes row.now) }
    requires below { length (T.of_bytes below.now) ≡ length (T.of_bytes row.now) }
    requires few_above { AreAtMost most (T.of_bytes above.now) }
    requires few { AreAtMost most (T.of_bytes row.now) }
    requires few_below { AreAtMost most (T.of_bytes below.now) }
    requires small { most < 2 ^ 15 }
    requires light { size_of_square square * most < 2 ^ 15 }
    requires ending { IsEnding ending }
    ensures value { result ≡ shown ending (weighed_square square (T.of_bytes above.now) (T.of_bytes row.now)
        (T.of_bytes below.now) left x right) }
    ensures few { result ≤ ending.largest }
{
    show(
        weigh_square::<T>(square, most, above, row, below, left, x, right),
        ending,
    )
}

/// The samples of rows of bytes, none over `most`, each from the samples around it. The first and the last are apart, so that no
/// place between them is brought into the row.
pub fn convolve_row<T: Sample>(
    square: Square,
    ending: Ending,
    most: u16,
    above: &[u8],
    row: &[u8],
    below: &[u8],
    out: &mut [T],
)
    requires some { 0 < length out.old }
    requires wide { length out.old ≤ 65535 }
    requires above { length (T.of_bytes above.now) ≡ length out.old }
    requires row { length (T.of_bytes row.now) ≡ length out.old }
    requires below { length (T.of_bytes below.now) ≡ length out.old }
    requires few_above { AreAtMost most (T.of_bytes above.now) }
    requires few { AreAtMost most (T.of_bytes row.now) }
    requires few_below { AreAtMost most (T.of_bytes below.now) }
    requires small { most < 2 ^ 15 }
    requires light { size_of_square square * most < 2 ^ 15 }
    requires ending { IsEnding ending }
    requires largest { ending.largest ≤ T.most }
    ensures { EachIndex out.new (λ x. slice_index (T.numbers out.new) x ≡ shown ending
        (weighed_around square (T.of_bytes above.now) (T.of_bytes row.now) (T.of_bytes below.now) x)) }
{
    let last = out.len() - 1;
    let first = show_square::<T>(square, ending, most, above, row, below, 0, 0, last.min(1));
    T::put(out, 0, first);
    for x in 1..last {
        let sample = show_square::<T>(square, ending, most, above, row, below, x - 1, x, x + 1);
        T::put(out, x, sample);
    }
    let before = last.saturating_sub(1);
    let end = show_square::<T>(square, ending, most, above, row, below, before, last, last);
    T::put(out, last, end);
}
