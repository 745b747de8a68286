// Sums of samples, each times its weight. Plain loops over slices, which the compiler turns into vector instructions. 32 bits
// hold 25 products: 25 * 1,024 * 65,535 is 1,677,696,000.
ghost use Rattle.std.specs.Prelude.{◌≡◌, ◌+◌, ◌<◌, ◌≤◌, ◌^◌, ℕ, pos, ◌+ℤ◌, ◌*ℤ◌, EachIndex, length, slice_index, slice_index_or, int_div, unsigned_abs};
ghost use Rattle.clip_term.specs.Soft.{sample_from};
ghost use Rattle.flt_rows.specs.Rows.{weighed_three, weighed_five, IsWeight, IsWithin, AreWithin, IsReciprocal};

use crate::reciprocal::{Reciprocal, divide_signed};
use crate::sample::Sample;

// A sample times its weight.
fn times(weight: i16, sample: u16) -> i32
    requires { IsWeight weight }
    ensures value { result ≡ weight *ℤ pos sample }
    ensures size { unsigned_abs result ≤ 67107840 }
{
    weight as i32 * sample as i32
}

// The sum of two numbers whose sizes leave room for it.
fn add(a: i32, b: i32) -> i32
    requires { unsigned_abs a + unsigned_abs b < 2 ^ 31 }
    ensures value { result ≡ a +ℤ b }
    ensures size { unsigned_abs result ≤ unsigned_abs a + unsigned_abs b }
{
    a + b
}

// Three samples from a place on, each times its weight.
fn weigh_three<T: Sample>(row: &[T], x: usize, a: i16, b: i16, c: i16) -> i32
    requires inside { x + 2 < length row.now }
    requires wide { length row.now < 2 ^ 32 }
    requires a { IsWeight a }
    requires b { IsWeight b }
    requires c { IsWeight c }
    ensures value { result ≡ weighed_three a b c (T.numbers row.now) x }
    ensures size { unsigned_abs result ≤ 201323520 }
{
    let two = add(times(a, T::at(row, x)), times(b, T::at(row, x + 1)));
    add(two, times(c, T::at(row, x + 2)))
}

/// Adds to each sum three samples of a row from that place on, each times its weight.
pub fn add_three<T: Sample>(row: &[T], a: i16, b: i16, c: i16, sums: &mut [i32])
    requires row { length row.now ≡ length sums.old + 2 }
    requires wide { length row.now < 2 ^ 32 }
    requires a { IsWeight a }
    requires b { IsWeight b }
    requires c { IsWeight c }
    requires room { AreWithin 1342156800 sums.old }
    ensures { (x : ℕ) → x < length sums.new → slice_index_or sums.new x (pos 0)
        ≡ slice_index_or sums.old x (pos 0) +ℤ weighed_three a b c (T.numbers row.now) x }
{
    for x in 0..sums.len() {
        sums[x] = add(sums[x], weigh_three(row, x, a, b, c));
    }
}

// Five samples from a place on, each times its weight.
fn weigh_five<T: Sample>(row: &[T], x: usize, a: i16, b: i16, c: i16, d: i16, e: i16) -> i32
    requires inside { x + 4 < length row.now }
    requires wide { length row.now < 2 ^ 32 }
    requires a { IsWeight a }
    requires b { IsWeight b }
    requires c { IsWeight c }
    requires d { IsWeight d }
    requires e { IsWeight e }
    ensures value { result ≡ weighed_five a b c d e (T.numbers row.now) x }
    ensures size { unsigned_abs result ≤ 335539200 }
{
    let three = weigh_three(row, x, a, b, c);
    let two = add(times(d, T::at(row, x + 3)), times(e, T::at(row, x + 4)));
    add(three, two)
}

/// Adds to each sum five samples of a row from that place on, each times its weight.
pub fn add_five<T: Sample>(row: &[T], a: i16, b: i16, c: i16, d: i16, e: i16, sums: &mut [i32])
    requires row { length row.now ≡ length sums.old + 4 }
    requires wide { length row.now < 2 ^ 32 }
    requires a { IsWeight a }
    requires b { IsWeight b }
    requires c { IsWeight c }
    requires d { IsWeight d }
    requires e { IsWeight e }
    requires room { AreWithin 1342156800 sums.old }
    ensures { (x : ℕ) → x < length sums.new → slice_index_or sums.new x (pos 0)
        ≡ slice_index_or sums.old x (pos 0) +ℤ weighed_five a b c d e (T.numbers row.now) x }
{
    for x in 0..sums.len() {
        sums[x] = add(sums[x], weigh_five(row, x, a, b, c, d, e));
    }
}

// The sample nearest to a number.
fn sample_from(number: i32, largest: u16) -> u16
    ensures value { result ≡ sample_from largest number }
    ensures few { result ≤ largest }
{
    if number < 0 {
        0
    } else {
        number.unsigned_abs().min(largest as u32) as u16
    }
}

// A sum, divided and raised, brought into the values of a sample.
fn show(sum: i32, divisor: i32, by: Reciprocal, bias: i32, largest: u16) -> u16
    requires by { IsReciprocal (unsigned_abs divisor) by.factor by.bits }
    requires sum { IsWithin 1677696000 sum }
    requires bias { unsigned_abs bias < 2 ^ 23 }
    ensures value { result ≡ sample_from largest (int_div sum divisor +ℤ bias) }
    ensures few { result ≤ largest }
{
    sample_from(add(divide_signed(sum, divisor, by), bias), largest)
}

/// The samples of sums, each divided and raised.
pub fn show_row<T: Sample>(
    sums: &[i32],
    divisor: i32,
    by: Reciprocal,
    bias: i32,
    largest: u16,
    out: &mut [T],
)
    requires same { length sums.now ≡ length out.old }
    requires by { IsReciprocal (unsigned_abs divisor) by.factor by.bits }
    requires sums { AreWithin 1677696000 sums.now }
    requires bias { unsigned_abs bias < 2 ^ 23 }
    requires largest { largest ≤ T.most }
    ensures { EachIndex out.new (λ x. slice_index (T.numbers out.new) x
        ≡ sample_from largest (int_div (slice_index_or sums.now x (pos 0)) divisor +ℤ bias)) }
{
    for x in 0..out.len() {
        T::put(out, x, show(sums[x], divisor, by, bias, largest));
    }
}
