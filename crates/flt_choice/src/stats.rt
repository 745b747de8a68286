// The statistics of the samples of a plane, each in one pass over its rows.
ghost use Rattle.std.specs.Prelude.{◌≡◌, ◌<◌, min, max, IfOk};
ghost use Rattle.std.specs.List.{fold};
ghost use Rattle.fv_plane.specs.Format.{planes, largest_sample};
ghost use Rattle.clip_term.specs.Expression.{stat_in};
ghost use Rattle.flt_choice.specs.Table.{plane_samples};
ghost use Rattle.flt_choice.specs.Counts.{AreNone, AreTables, AddsCounts};

use crate::counts::{count_in, middle, table_size};
use crate::samples::{greatest_in, least_in};
use clip_term::PlaneStat;
use fv_plane::Frame;
use std::alloc::{AllocError, Global};

/// The least sample of a plane.
pub(crate) fn least(frame: &Frame, plane: u32) -> u16
    requires { plane < planes frame.now.shape.kind }
    ensures { result ≡ fold min (largest_sample frame.now.shape) (plane_samples frame.now plane) }
{
    let shape = frame.shape();
    let mut least = shape.largest_sample();
    let mut y = 0;
    while y < shape.plane_height(plane) {
        let (bytes, count) = frame.rows_from(plane, y);
        least = least_in(shape, bytes, least);
        y += count;
    }
    least
}

/// The greatest sample of a plane.
pub(crate) fn greatest(frame: &Frame, plane: u32) -> u16
    requires { plane < planes frame.now.shape.kind }
    ensures { result ≡ fold max 0 (plane_samples frame.now plane) }
{
    let shape = frame.shape();
    let mut greatest = 0;
    let mut y = 0;
    while y < shape.plane_height(plane) {
        let (bytes, count) = frame.rows_from(plane, y);
        greatest = greatest_in(shape, bytes, greatest);
        y += count;
    }
    greatest
}

// Counts the samples of a plane.
fn count_plane(frame: &Frame, plane: u32, counts: &mut [u32], size: usize)
    requires plane { plane < planes frame.now.shape.kind }
    requires tables { AreTables frame.now.shape size counts.old }
    requires none { AreNone counts.old }
    ensures { AddsCounts size counts.old (plane_samples frame.now plane) counts.new }
{
    let shape = frame.shape();
    let mut y = 0;
    while y < shape.plane_height(plane) {
        let (bytes, rows) = frame.rows_from(plane, y);
        count_in(shape, bytes, counts, size);
        y += rows;
    }
}

// The median of the samples of a plane, which are counted in `counts`.
fn median_by(frame: &Frame, plane: u32, counts: &mut [u32], size: usize) -> u16
    requires plane { plane < planes frame.now.shape.kind }
    requires tables { AreTables frame.now.shape size counts.old }
    requires none { AreNone counts.old }
    ensures { result ≡ stat_in (largest_sample frame.now.shape) PlaneStat.Median (plane_samples frame.now plane) }
{
    let shape = frame.shape();
    count_plane(frame, plane, counts, size);
    let values = shape.largest_sample() as usize + 1;
    let total = shape.plane_width(plane) as u64 * shape.plane_height(plane) as u64;
    middle(counts, size, values, total)
}

// The median of the samples of a plane, in one pass over them and one over the counts. An `Err` is out of memory.
fn median(alloc: Global, frame: &Frame, plane: u32) -> Result<u16, AllocError>
    requires { plane < planes frame.now.shape.kind }
    ensures { IfOk result
        (λ v. v ≡ stat_in (largest_sample frame.now.shape) PlaneStat.Median (plane_samples frame.now plane)) }
{
    let size = table_size(frame.shape());
    let mut counts = vec![in alloc; 0u32; 4 * size]?;
    Ok(median_by(frame, plane, counts.as_mut_slice(), size))
}

/// A statistic of a plane. An `Err` is out of memory.
pub(crate) fn statistic(
    alloc: Global,
    frame: &Frame,
    plane: u32,
    stat: PlaneStat,
) -> Result<u16, AllocError>
    requires { plane < planes frame.now.shape.kind }
    ensures { IfOk result (λ v. v ≡ stat_in (largest_sample frame.now.shape) stat (plane_samples frame.now plane)) }
{
    match stat {
        PlaneStat::Least => Ok(least(frame, plane)),
        PlaneStat::Greatest => Ok(greatest(frame, plane)),
        PlaneStat::Median => median(alloc, frame, plane),
    }
}
