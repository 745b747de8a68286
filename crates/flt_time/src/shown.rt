// Which frame of which input is shown.
ghost use Rattle.std.specs.Prelude.{◌≡◌, ◌<◌, length, IsOkAnd};
ghost use Rattle.fv_plane.specs.declared.format.Info.{Info};
ghost use Rattle.clip_term.specs.Terms.{time, AreLawful, IsAsked, IsSound};
ghost use Rattle.clip_term.specs.Refusals.{info_at};
ghost use Rattle.clip_term.specs.Time.{check_time, frame_at, from_input, source_number};

use crate::named::{duplicated_number, kept_number};
use crate::rows::{
    changed_number, every_number, frozen_number, is_between, looped, spliced, trim_number,
};
use clip_term::{Origin, TimeOp};
use fv_plane::Info;

// The input and the number of its frame, which may still lie past the input's last one.
fn frame_at(op: &TimeOp, c: &Info, infos: &[Info], n: u32) -> (u32, u128)
    requires first { c.now ≡ info_at infos.now 0 }
    requires sound { IsSound (time op.now) (length infos.now) }
    requires lawful { AreLawful infos.now }
    requires shown { IsOkAnd (check_time op.now infos.now) (λ (info : Info). n < info.frames) }
    ensures { from_input result.0 result.1 ≡ frame_at op.now c.now infos.now n }
{
    match op {
        TimeOp::Trim { first, bound: _ } => (0, trim_number(*first, n) as u128),
        TimeOp::Reverse => (0, c.frames.saturating_sub(1).saturating_sub(n) as u128),
        TimeOp::FreezeFrame {
            first,
            last,
            source,
        } => (0, frozen_number(*first, *last, *source, n) as u128),
        TimeOp::SelectEven => (0, 2 * n as u128),
        TimeOp::SelectOdd => (0, 2 * n as u128 + 1),
        TimeOp::SelectEvery { step, offsets } => (
            0,
            every_number(c.frames, *step, offsets.as_slice(), n) as u128,
        ),
        TimeOp::Interleave => {
            let count = infos.len() as u64;
            ((n as u64 % count) as u32, (n as u64 / count) as u128)
        }
        TimeOp::UnalignedSplice | TimeOp::AlignedSplice => {
            let origin = spliced(infos, n);
            (origin.input, origin.number as u128)
        }
        TimeOp::Loop { times, start, end } => (0, looped(*times, *start, *end, n) as u128),
        TimeOp::DuplicateFrame { frames } => (
            0,
            duplicated_number(frames.as_slice(), c.frames, n) as u128,
        ),
        TimeOp::DeleteFrame { frames } => (0, kept_number(frames.as_slice(), c.frames, n) as u128),
        TimeOp::AssumeFPS {
            num: _,
            denominator: _,
        } => (0, n as u128),
        TimeOp::ChangeFPS { num, denominator } => (0, changed_number(c, *num, *denominator, n)),
        TimeOp::ApplyRange { first, last } => (is_between(*first, *last, n) as u32, n as u128),
    }
}

/// The frame of an input that a filter shows as its frame `n`.
///
/// `infos` are those of the filter's clips, in order. The filter's check has accepted them, and `n` is below the number
/// of frames that it told.
pub fn source_number(op: &TimeOp, infos: &[Info], n: u32) -> Origin
    requires sound { IsSound (time op.now) (length infos.now) }
    requires lawful { AreLawful infos.now }
    requires shown { IsOkAnd (check_time op.now infos.now) (λ (info : Info). n < info.frames) }
    ensures number { result ≡ source_number op.now infos.now n }
    ensures asked { IsAsked infos.now result }
{
    let (input, number) = frame_at(op, info_at(infos, 0), infos, n);
    let last = info_at(infos, input).frames - 1;
    Origin {
        input,
        number: number.min(last as u128) as u32,
    }
}

fn info_at(infos: &[Info], i: u32) -> &Info
    requires { i < length infos.now }
    ensures { result.now ≡ info_at infos.now i }
{
    &infos[i as usize]
}
