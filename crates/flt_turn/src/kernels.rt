// What is done to the samples of a block, by vectors of sixteen.
ghost use Rattle.std.specs.Prelude.{◌≡◌, ◌+◌, ◌*◌, ◌<◌, ◌++◌, ℕ, length, slice_index};

use std::simd::prelude::*;

/// Copies sixteen samples, as one vector: whether the two overlap isn't asked when it runs, as it is where slices are copied.
pub fn copy_16(samples: &[u8], out: &mut [u8])
    requires samples { length samples.now ≡ 16 }
    requires out { length out.old ≡ 16 }
    ensures { out.new ≡ samples.now }
{
    u8x16::from_slice(samples).copy_to_slice(out);
}

/// Sixteen samples and sixteen others, sample by sample in turn.
pub fn weave(front: &[u8], back: &[u8], out: &mut [u8])
    requires front { length front.now ≡ 16 }
    requires back { length back.now ≡ 16 }
    requires whole { length out.old ≡ 32 }
    ensures whole { length out.new ≡ 32 }
    ensures even { (k : ℕ) → k < 16 → slice_index out.new (2 * k) ≡ slice_index front.now k }
    ensures odd { (k : ℕ) → k < 16 → slice_index out.new (2 * k + 1) ≡ slice_index back.now k }
{
    let (low, high) = u8x16::from_slice(front).interleave(u8x16::from_slice(back));
    let (start, end) = out.split_at_mut(16);
    low.copy_to_slice(start);
    high.copy_to_slice(end);
}

/// Of sixteen bytes and sixteen more, those in even places, and those in odd places.
pub fn unweave(front: &[u8], back: &[u8], even: &mut [u8], odd: &mut [u8])
    requires front { length front.now ≡ 16 }
    requires back { length back.now ≡ 16 }
    requires even { length even.old ≡ 16 }
    requires odd { length odd.old ≡ 16 }
    ensures even_whole { length even.new ≡ 16 }
    ensures odd_whole { length odd.new ≡ 16 }
    ensures even { (k : ℕ) → k < 16 → slice_index even.new k ≡ slice_index (front.now ++ back.now) (2 * k) }
    ensures odd { (k : ℕ) → k < 16 → slice_index odd.new k ≡ slice_index (front.now ++ back.now) (2 * k + 1) }
{
    let (first, second) = u8x16::from_slice(front).deinterleave(u8x16::from_slice(back));
    first.copy_to_slice(even);
    second.copy_to_slice(odd);
}

// The halves of a block, sample by sample in turn. By vectors, so that a block stays in registers from step to step.
fn interleave(block: &[u8; 256], out: &mut [u8; 256])
    ensures even { (k : ℕ) → k < 128 → slice_index out.new (2 * k) ≡ slice_index block.now k }
    ensures odd { (k : ℕ) → k < 128 → slice_index out.new (2 * k + 1) ≡ slice_index block.now (k + 128) }
{
    let (front, back) = block.split_at(128);
    for k in 0..8 {
        let at = 16 * k;
        weave(
            &front[at..at + 16],
            &back[at..at + 16],
            &mut out[2 * at..2 * at + 32],
        );
    }
}

/// The rows of a block of 16 rows of 16 samples become its columns. Each of the four steps takes a bit of a sample's place
/// from its front to its end.
pub fn transpose(block: &mut [u8; 256])
    ensures { (k i : ℕ) → k < 16 → i < 16 → slice_index block.new (16 * k + i) ≡ slice_index block.old (16 * i + k) }
{
    let mut other = [0; 256];
    interleave(block, &mut other);
    interleave(&other, block);
    interleave(block, &mut other);
    interleave(&other, block);
}
