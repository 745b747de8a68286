// Rows by themselves, sample by sample, at lengths around those of the lanes.
ghost use Rattle.std.specs.Prelude.{◌≡◌, IfOk, length};

use flt_merge::merge_row;
use flt_space::{invert_row, limit_row};
use std::alloc::{AllocError, Global};
use std::test::Fail;

// Samples that run through all values.
fn samples(alloc: Global, count: usize, first: u8) -> Result<Vec<u8>, AllocError>
    ensures { IfOk result (λ row. length row.items ≡ count) }
{
    let mut row = vec![in alloc; first; count]?;
    let mut sample = first;
    for x in 0..row.len() {
        row[x] = sample;
        sample = sample.wrapping_mul(5).wrapping_add(71);
    }
    Ok(row)
}

fn limited(sample: u8, low: u8, high: u8) -> u8 {
    if sample < low {
        low
    } else if sample > high {
        high
    } else {
        sample
    }
}

#[test]
fn changes_each_sample_of_a_row(rt: HostRuntime) -> Result<(), Fail> {
    let alloc = rt.alloc();
    for count in [0, 1, 31, 32, 33, 4096] {
        let a = samples(alloc, count, 3)?;
        let b = samples(alloc, count, 200)?;
        let mut merged = samples(alloc, count, 0)?;
        merge_row(&a, &b, merged.as_mut_slice());
        let mut inverted = a.clone()?;
        invert_row(inverted.as_mut_slice());
        let mut bounded = a.clone()?;
        limit_row(bounded.as_mut_slice(), 16, 235);
        for x in 0..a.len() {
            let mean = (a[x] as u32 + b[x] as u32).div_ceil(2);
            assert_eq!(rt; merged[x] as u32, mean);
            assert_eq!(rt; inverted[x], !a[x]);
            assert_eq!(rt; bounded[x], limited(a[x], 16, 235));
        }
    }
    Ok(())
}
