// Samples of two bytes, the low one first.
ghost use Rattle.std.specs.Prelude.{◌≡◌, ℕ, ◌+◌, ◌*◌, ◌%◌, ◌<◌, ◌≤◌, IsTrue, min, map, length, slice_index, take, drop};
ghost use Rattle.fv_plane.specs.Picture.{in_range, wide_bytes, wide_samples};
ghost use Rattle.fv_plane.specs.Format.{IsLegal, sample_bytes};

use crate::Shape;

// The sample of these bytes.
#[inline(always)]
fn joined(low: u8, high: u8) -> u16
    ensures { result ≡ low + 256 * high }
{
    low as u16 + 256 * high as u16
}

/// The sample in column `x` of the bytes of a row.
pub fn wide_sample(bytes: &[u8], x: usize) -> u16
    requires { 2 * x + 1 < length bytes.now }
    ensures { result ≡ slice_index bytes.now (2 * x) + 256 * slice_index bytes.now (2 * x + 1) }
{
    joined(bytes[2 * x], bytes[2 * x + 1])
}

/// Reads the samples of a row's bytes.
pub fn read_samples(bytes: &[u8], samples: &mut [u16])
    requires { length bytes.now ≡ length samples.old * 2 }
    ensures { samples.new ≡ wide_samples bytes.now }
{
    for x in 0..samples.len() {
        samples[x] = joined(bytes[2 * x], bytes[2 * x + 1]);
    }
}

/// Writes the bytes of a row's samples.
pub fn write_samples(samples: &[u16], bytes: &mut [u8])
    requires { length bytes.old ≡ length samples.now * 2 }
    ensures { bytes.new ≡ wide_bytes samples.now }
{
    for x in 0..samples.len() {
        let sample = samples[x];
        bytes[2 * x] = (sample % 256) as u8;
        bytes[2 * x + 1] = (sample / 256) as u8;
    }
}

// Whether no sample is over the largest one, as in most streams. A pass that only reads is faster than one that writes.
fn are_in_range(bytes: &[u8], largest: u16) -> bool
    requires { length bytes.now % 2 ≡ 0 }
    ensures { IsTrue result → bytes.now ≡ wide_bytes (map (λ s. min s largest) (wide_samples bytes.now)) }
{
    let mut highest = 0;
    for x in 0..bytes.len() / 2 {
        highest = joined(bytes[2 * x], bytes[2 * x + 1]).max(highest);
    }
    highest <= largest
}

// Makes the samples over the largest one the largest.
fn limit_samples(bytes: &mut [u8], largest: u16)
    requires { length bytes.old % 2 ≡ 0 }
    ensures { bytes.new ≡ wide_bytes (map (λ s. min s largest) (wide_samples bytes.old)) }
{
    if are_in_range(bytes, largest) {
        return;
    }
    for x in 0..bytes.len() / 2 {
        let sample = joined(bytes[2 * x], bytes[2 * x + 1]).min(largest);
        bytes[2 * x] = (sample % 256) as u8;
        bytes[2 * x + 1] = (sample / 256) as u8;
    }
}

/// Makes the samples over the largest one of a shape the largest, in the bytes of whole samples.
pub fn bring_in_range(shape: Shape, bytes: &mut [u8])
    requires legal { IsLegal shape }
    requires whole { length bytes.old % sample_bytes shape ≡ 0 }
    ensures { bytes.new ≡ in_range shape bytes.old }
{
    if shape.bits == 8 || shape.bits == 16 {
        return;
    }
    limit_samples(bytes, shape.largest_sample());
}

/// Makes them so in a part of some bytes.
pub fn bring_part_in_range(shape: Shape, bytes: &mut [u8], offset: usize, size: usize)
    requires legal { IsLegal shape }
    requires inside { offset + size ≤ length bytes.old }
    requires whole { size % sample_bytes shape ≡ 0 }
    ensures part { take size (drop offset bytes.new) ≡ in_range shape (take size (drop offset bytes.old)) }
    ensures long { length bytes.new ≡ length bytes.old }
{
    bring_in_range(shape, &mut bytes[offset..offset + size]);
}
