// How often each value is among samples, and the median that the counts give.
//
// The samples are counted in four tables in turn. Neighbours are often equal, and a processor has to wait before it can
// add to a count that it has just written.
ghost use Rattle.std.specs.Prelude.{◌≡◌, ℕ, ◌+◌, ◌*◌, ◌/◌, ◌%◌, ◌^◌, ◌<◌, ◌≤◌, List, [], ◌∷◌, length, slice_index};
ghost use Rattle.fv_plane.specs.Picture.{row_of_bytes, wide_samples, FitsRow};
ghost use Rattle.fv_plane.specs.Format.{largest_sample, sample_bytes, IsLegal};
ghost use Rattle.flt_choice.specs.Counts.{counted, AreCounts, AreTables, HasRoom, AddsCounts, middle_of};

use fv_plane::{Shape, wide_sample};

// The size of a table for samples of one byte.
const BYTE_VALUES: usize = 256;

// The size of a table for the samples of a shape. Counts that are a multiple of 4,096 bytes apart hinder each other, so
// larger tables have 64 bytes more than they need.
pub(crate) fn table_size(shape: Shape) -> usize
    requires { IsLegal shape }
    ensures values { largest_sample shape < result }
    ensures narrow { shape.bits ≡ 8 → result ≡ 256 }
    ensures few { result ≤ 65552 }
{
    if shape.bits == 8 {
        return BYTE_VALUES;
    }
    shape.largest_sample() as usize + 17
}

// Counts a sample in one of the tables.
#[inline(always)]
fn count(counts: &mut [u32], size: usize, table: usize, sample: usize)
    requires long { length counts.old ≡ 4 * size }
    requires few { size ≤ 65552 }
    requires table { table < 4 }
    requires sample { sample < size }
    requires room { HasRoom size counts.old 1 }
    ensures { AddsCounts size counts.old (sample ∷ []) counts.new }
{
    counts[table * size + sample] += 1;
}

// Counts four samples, each in a table of its own.
#[inline(always)]
fn count_four(counts: &mut [u32], size: usize, a: usize, b: usize, c: usize, d: usize)
    requires long { length counts.old ≡ 4 * size }
    requires few { size ≤ 65552 }
    requires first { a < size }
    requires second { b < size }
    requires third { c < size }
    requires fourth { d < size }
    requires room { HasRoom size counts.old 4 }
    ensures { AddsCounts size counts.old (a ∷ b ∷ c ∷ d ∷ []) counts.new }
{
    count(counts, size, 0, a);
    count(counts, size, 1, b);
    count(counts, size, 2, c);
    count(counts, size, 3, d);
}

// Counts samples of one byte. Eight are read before any is counted, since a write to a count may delay a later read.
fn count_bytes(bytes: &[u8], counts: &mut [u32])
    requires long { length counts.old ≡ 4 * 256 }
    requires room { HasRoom 256 counts.old (length bytes.now) }
    ensures { AddsCounts 256 counts.old bytes.now counts.new }
{
    let eights = bytes.len() / 8;
    for i in 0..eights {
        let x = 8 * i;
        let a = bytes[x] as usize;
        let b = bytes[x + 1] as usize;
        let c = bytes[x + 2] as usize;
        let d = bytes[x + 3] as usize;
        let e = bytes[x + 4] as usize;
        let f = bytes[x + 5] as usize;
        let g = bytes[x + 6] as usize;
        let h = bytes[x + 7] as usize;
        count_four(counts, BYTE_VALUES, a, b, c, d);
        count_four(counts, BYTE_VALUES, e, f, g, h);
    }
    for x in 8 * eights..bytes.len() {
        count(counts, BYTE_VALUES, 0, bytes[x] as usize);
    }
}

// The sample of two bytes at `x`.
#[inline(always)]
fn wide_at(bytes: &[u8], x: usize) -> usize
    requires whole { length bytes.now % 2 ≡ 0 }
    requires inside { x < length bytes.now / 2 }
    ensures { result ≡ slice_index (wide_samples bytes.now) x }
{
    wide_sample(bytes, x) as usize
}

// Counts samples of two bytes.
fn count_wide(bytes: &[u8], counts: &mut [u32], size: usize)
    requires whole { length bytes.now % 2 ≡ 0 }
    requires inside { (x : ℕ) → slice_index (wide_samples bytes.now) x < size }
    requires long { length counts.old ≡ 4 * size }
    requires few { size ≤ 65552 }
    requires room { HasRoom size counts.old (length bytes.now) }
    ensures { AddsCounts size counts.old (wide_samples bytes.now) counts.new }
{
    let samples = bytes.len() / 2;
    let fours = samples / 4;
    for i in 0..fours {
        let x = 4 * i;
        let a = wide_at(bytes, x);
        let b = wide_at(bytes, x + 1);
        let c = wide_at(bytes, x + 2);
        let d = wide_at(bytes, x + 3);
        count_four(counts, size, a, b, c, d);
    }
    for x in 4 * fours..samples {
        count(counts, size, 0, wide_at(bytes, x));
    }
}

/// Counts the samples of a shape in four tables of this size.
pub(crate) fn count_in(shape: Shape, bytes: &[u8], counts: &mut [u32], size: usize)
    requires legal { IsLegal shape }
    requires whole { length bytes.now % sample_bytes shape ≡ 0 }
    requires fits { FitsRow shape (row_of_bytes shape bytes.now) }
    requires tables { AreTables shape size counts.old }
    requires room { HasRoom size counts.old (length bytes.now) }
    ensures { AddsCounts size counts.old (row_of_bytes shape bytes.now) counts.new }
{
    if shape.bits == 8 {
        count_bytes(bytes, counts);
    } else {
        count_wide(bytes, counts, size);
    }
}

// How often a value was counted.
fn counted(counts: &[u32], size: usize, v: usize) -> u64
    requires long { length counts.now ≡ 4 * size }
    requires few { size ≤ 65552 }
    requires value { v < size }
    ensures sum { result ≡ counted size counts.now v }
    ensures few { result < 2 ^ 34 }
{
    let first = counts[v] as u64;
    let second = counts[size + v] as u64;
    let third = counts[2 * size + v] as u64;
    let fourth = counts[3 * size + v] as u64;
    first + second + third + fourth
}

/// The least value such that at least half of the samples that were counted are no greater.
pub(crate) fn middle(counts: &[u32], size: usize, values: usize, total: u64) -> u16
    requires long { length counts.now ≡ 4 * size }
    requires few { size ≤ 65552 }
    requires values { values ≤ size }
    requires wide { values ≤ 65536 }
    ensures { (samples : List ℕ) → AreCounts size counts.now samples → length samples ≡ total
        → result ≡ middle_of values samples }
{
    let mut up_to = 0u64;
    for v in 0..values {
        up_to += counted(counts, size, v);
        if 2 * up_to >= total {
            return v as u16;
        }
    }
    0
}
