// The checks of the group Time.
ghost use Rattle.std.specs.Prelude.{◌≡◌, List, length, IfOk};
ghost use Rattle.fv_plane.specs.declared.format.Info.{Info};
ghost use Rattle.fv_plane.specs.Info.{IsLawful};
ghost use Rattle.fv_plane.specs.Refusals.{first_fault};
ghost use Rattle.clip_term.specs.Time.{time_refusals, time_length, time_rate, check_time};
ghost use Rattle.clip_term.specs.Terms.{time, IsSound, AreLawful};
ghost use Rattle.clip_check.specs.Numbers.{rate_in};
ghost use Rattle.clip_check.specs.Summaries.{Tells, TellsAll};

use crate::limits::{FrameRate, limits, rate_of, sides_of};
use crate::shared::{bad_range, disagreement};
use crate::summary::Summary;
use crate::time_rows::{
    any_outside, any_past, bad_every, bad_freeze, bad_loop, bad_part, bad_rate, bad_trim,
    different, every_fault, every_length, loop_length, scaled_length, trim_length,
};
use clip_term::{FilterFault, TimeOp};
use fv_plane::Info;

// What the row refuses.
fn time_fault(op: &TimeOp, summary: &Summary) -> Option<FilterFault>
    ensures { (infos : List Info) → Tells summary.now infos →
        result ≡ first_fault (time_refusals op.now summary.now.first infos) }
{
    let frames = summary.first.frames;
    match op {
        TimeOp::Trim { first, bound } => bad_range(bad_trim(*first, *bound, frames)),
        TimeOp::FreezeFrame {
            first,
            last,
            source,
        } => bad_range(bad_freeze(*first, *last, *source, frames)),
        TimeOp::SelectEvery { step, offsets } => {
            let offsets = offsets.as_slice();
            every_fault(bad_every(*step, offsets), any_past(offsets, frames))
        }
        TimeOp::Interleave | TimeOp::UnalignedSplice | TimeOp::AlignedSplice => {
            disagreement(summary.same_formats, summary.same_sizes)
        }
        TimeOp::Loop { times, start, end } => bad_range(bad_loop(*times, *start, *end, frames)),
        TimeOp::DuplicateFrame { frames: named } | TimeOp::DeleteFrame { frames: named } => {
            bad_range(any_outside(named.as_slice(), frames))
        }
        TimeOp::AssumeFPS { num, denominator } | TimeOp::ChangeFPS { num, denominator } => {
            bad_range(bad_rate(*num, *denominator))
        }
        TimeOp::ApplyRange { first, last } => {
            if bad_part(*first, *last, frames) {
                Some(FilterFault::BadRange)
            } else {
                disagreement(summary.same_formats, summary.same_sizes)
            }
        }
        TimeOp::Reverse | TimeOp::SelectEven | TimeOp::SelectOdd => None,
    }
}

// The length of the row.
fn time_length(op: &TimeOp, summary: &Summary) -> u128
    ensures { (infos : List Info) → TellsAll summary.now infos → result ≡ time_length op.now summary.now.first infos }
{
    let c = summary.first;
    let frames = c.frames as u128;
    match op {
        TimeOp::Trim { first, bound } => trim_length(*first, *bound, c.frames) as u128,
        TimeOp::SelectEven => (frames + 1) / 2,
        TimeOp::SelectOdd => frames / 2,
        TimeOp::SelectEvery { step, offsets } => {
            every_length(c.frames, step.unsigned_abs(), offsets.as_slice())
        }
        TimeOp::Interleave => summary.woven,
        TimeOp::UnalignedSplice | TimeOp::AlignedSplice => summary.all_frames,
        TimeOp::Loop { times, start, end } => loop_length(c.frames, *times, *start, *end),
        TimeOp::DuplicateFrame { frames: named } => frames + named.as_slice().len() as u128,
        TimeOp::DeleteFrame { frames: named } => {
            frames.saturating_sub(different(named.as_slice()) as u128)
        }
        TimeOp::ChangeFPS { num, denominator } => scaled_length(
            c.frames,
            c.num as u64 * denominator.unsigned_abs() as u64,
            c.den as u64 * num.unsigned_abs() as u64,
        ),
        TimeOp::Reverse
        | TimeOp::FreezeFrame { .. }
        | TimeOp::AssumeFPS { .. }
        | TimeOp::ApplyRange { .. } => frames,
    }
}

// The rate of the row.
fn time_rate(op: &TimeOp, summary: &Summary) -> FrameRate
    ensures { (infos : List Info) → Tells summary.now infos →
        rate_in result ≡ time_rate op.now summary.now.first infos }
{
    let c = summary.first;
    let num = c.num as u128;
    let den = c.den as u128;
    match op {
        TimeOp::SelectEven | TimeOp::SelectOdd => FrameRate { num, den: den * 2 },
        TimeOp::SelectEvery { step, offsets } => FrameRate {
            num: num * offsets.as_slice().len() as u128,
            den: den * step.unsigned_abs() as u128,
        },
        TimeOp::Interleave => FrameRate {
            num: num * summary.count as u128,
            den,
        },
        TimeOp::AssumeFPS { num, denominator } | TimeOp::ChangeFPS { num, denominator } => {
            FrameRate {
                num: num.unsigned_abs() as u128,
                den: denominator.unsigned_abs() as u128,
            }
        }
        _ => rate_of(c),
    }
}

/// The check of an op of the group Time over the summary of its clips.
pub fn time_info(op: &TimeOp, summary: &Summary) -> Result<Info, FilterFault>
    ensures { (infos : List Info) → TellsAll summary.now infos → result ≡ check_time op.now infos }
{
    match time_fault(op, summary) {
        Some(fault) => Err(fault),
        None => limits(
            summary.first,
            time_length(op, summary),
            time_rate(op, summary),
            sides_of(summary.first.shape),
        ),
    }
}

/// The info of a clip of the group Time over clips of these infos, or the first refusal.
pub fn check_time(op: &TimeOp, infos: &[Info]) -> Result<Info, FilterFault>
    ensures exact { result ≡ check_time op.now infos.now }
    ensures lawful { IsSound (time op.now) (length infos.now) → AreLawful infos.now →
        IfOk result (λ info. IsLawful info) }
{
    time_info(op, &Summary::of(infos))
}
