// What each filter takes, and what its arguments become. Each filter that has more than clips stands here with both.
ghost use Rattle.std.specs.Prelude.{◌≡◌, ◌≤◌, IsTrue, pos, ◌-ℤ◌, codes, map, IfOk};
ghost use Rattle.std.specs.Option.{unwrap_or};
ghost use Rattle.avs_values.specs.Views.{bound_view, signature_view};
ghost use Rattle.avs_meaning.specs.Arguments as a;
ghost use Rattle.avs_meaning.specs.Table as r;
ghost use Rattle.avs_parse.specs.Load.{script_of};
ghost use Rattle.clip_term.specs.Blank.{default_colour};
ghost use Rattle.clip_term.specs.Filters.{channels_named};
ghost use Rattle.avs_calls.specs.Arguments.{MayRead, Reads};

use crate::arguments::{number, number_at, numbers_among, or_number, text_at};
use crate::choice::{choose, decide};
use crate::forms::{
    alone, blank_options, clips, decide_takes, listed, numbered, one, only, select_takes,
    three_clips, two_clips,
};
use crate::refused::Refused;
use avs_meaning::ScriptKind;
use avs_values::{Bound, Kind, Param, Signature, Value};
use clip_term::{
    BLACK, Channels, FieldOp, Filter, FilterFault, JoinOp, MatrixFault, Op, SoftOp, SpaceOp,
    TimeOp, TrimBound, is_bias, read_matrix,
};
use fv_plane::Info;
use std::alloc::{AllocError, Global};

/// What a filter takes. The first signature that fits counts. An `Err` is out of memory.
pub(crate) fn filter_signatures(alloc: Global, filter: Filter) -> Result<Vec<Signature>, AllocError>
    ensures { IfOk result (λ made. map signature_view made.items ≡ r.filter_signatures filter) }
{
    match filter {
        Filter::BlankClip => blank_takes(alloc),
        Filter::Y4MSource => alone(alloc, one(alloc, Kind::Text)?),
        Filter::Trim => alone(alloc, numbered(alloc, 1, &["last", "length", "end"])?),
        Filter::FreezeFrame | Filter::TemporalSoften => alone(alloc, numbered(alloc, 3, &[])?),
        Filter::GeneralConvolution => convolve_takes(alloc),
        Filter::SelectEvery => alone(alloc, listed(alloc, 1)?),
        Filter::Loop => alone(alloc, numbered(alloc, 1, &["start", "end"])?),
        Filter::DuplicateFrame | Filter::DeleteFrame => alone(alloc, listed(alloc, 0)?),
        Filter::AssumeFPS | Filter::ChangeFPS => alone(
            alloc,
            numbered(alloc, 1, &["denominator"])?,
        ),
        Filter::Crop => crop_takes(alloc),
        Filter::CropBottom | Filter::ConvertBits => alone(alloc, numbered(alloc, 1, &[])?),
        Filter::AddBorders => alone(alloc, numbered(alloc, 4, &["color_yuv"])?),
        Filter::LetterBox => alone(alloc, numbered(alloc, 2, &["x1", "x2", "color_yuv"])?),
        Filter::Invert => invert_takes(alloc),
        Filter::Limiter => limiter_takes(alloc),
        Filter::Interleave
        | Filter::UnalignedSplice
        | Filter::AlignedSplice
        | Filter::StackHorizontal
        | Filter::StackVertical => alone(alloc, clips(alloc)?),
        Filter::Merge | Filter::MergeLuma | Filter::MergeChroma => alone(alloc, two_clips(alloc)?),
        Filter::YToUV => alone(alloc, three_clips(alloc)?),
        Filter::ConditionalSelect => alone(alloc, select_takes(alloc)?),
        Filter::ConditionalFilter => alone(alloc, decide_takes(alloc)?),
        _ => alone(alloc, one(alloc, Kind::Clip)?),
    }
}

/// What a filter makes of its arguments, where its first clip has this info. Filters take each number among them. Memory runs
/// out only where they can be read, but for expressions.
#[tactic(auto, using(crate::proofs::ReadLemmas::may_read))]
pub(crate) fn op_of(
    alloc: Global,
    given: &Bound,
    clip: &Info,
    filter: Filter,
) -> Result<Op, Refused>
    requires few { clip.now.frames ≤ 1000000 }
    requires values { IsTrue (a.all_fit_filters given.now.values.items) }
    requires rest { IsTrue (a.all_fit_filters given.now.rest.items) }
    ensures told { MayRead (r.read (r.args_of script_of (bound_view given.now) clip.now) filter) result }
    ensures reads { (filter ≡ Filter.ConditionalSelect → ⊥) → (filter ≡ Filter.ConditionalFilter → ⊥)
        → Reads (r.read (r.args_of script_of (bound_view given.now) clip.now) filter) result }
{
    let values = given.values.as_slice();
    match filter {
        Filter::Y4MSource | Filter::BlankClip | Filter::ApplyRange => Err(Refused::Fault(
            ScriptKind::NoMatch,
        )),
        Filter::Trim => trim(values),
        Filter::Reverse => Ok(Op::Time(TimeOp::Reverse)),
        Filter::FreezeFrame => Ok(Op::Time(freeze_frame(values))),
        Filter::SelectEven => Ok(Op::Time(TimeOp::SelectEven)),
        Filter::SelectOdd => Ok(Op::Time(TimeOp::SelectOdd)),
        Filter::SelectEvery => Ok(Op::Time(select_every(alloc, given)?)),
        Filter::Interleave => Ok(Op::Time(TimeOp::Interleave)),
        Filter::UnalignedSplice => Ok(Op::Time(TimeOp::UnalignedSplice)),
        Filter::AlignedSplice => Ok(Op::Time(TimeOp::AlignedSplice)),
        Filter::Loop => Ok(Op::Time(repeat(values, clip.frames))),
        Filter::DuplicateFrame => Ok(Op::Time(TimeOp::DuplicateFrame {
            frames: numbers_among(alloc, &given.rest)?,
        })),
        Filter::DeleteFrame => Ok(Op::Time(TimeOp::DeleteFrame {
            frames: numbers_among(alloc, &given.rest)?,
        })),
        Filter::AssumeFPS => Ok(Op::Time(assume_rate(values))),
        Filter::ChangeFPS => Ok(Op::Time(change_rate(values))),
        Filter::Crop => Ok(Op::Space(crop(values))),
        Filter::CropBottom => Ok(Op::Space(SpaceOp::CropBottom {
            n: number(values, 1),
        })),
        Filter::AddBorders => Ok(Op::Space(add_borders(values))),
        Filter::LetterBox => Ok(Op::Space(letter_box(values))),
        Filter::FlipHorizontal => Ok(Op::Space(SpaceOp::FlipHorizontal)),
        Filter::FlipVertical => Ok(Op::Space(SpaceOp::FlipVertical)),
        Filter::Turn180 => Ok(Op::Space(SpaceOp::Turn180)),
        Filter::TurnLeft => Ok(Op::Space(SpaceOp::TurnLeft)),
        Filter::TurnRight => Ok(Op::Space(SpaceOp::TurnRight)),
        Filter::Greyscale => Ok(Op::Space(SpaceOp::Greyscale)),
        Filter::Invert => invert(values),
        Filter::Limiter => Ok(Op::Space(limiter(values))),
        Filter::SwapUV => Ok(Op::Space(SpaceOp::SwapUV)),
        Filter::UToY8 => Ok(Op::Space(SpaceOp::UToY8)),
        Filter::VToY8 => Ok(Op::Space(SpaceOp::VToY8)),
        Filter::ConvertToY8 => Ok(Op::Space(SpaceOp::ConvertToY8)),
        Filter::ConvertBits => Ok(Op::Space(SpaceOp::ConvertBits {
            bits: number(values, 1),
        })),
        Filter::StackHorizontal => Ok(Op::Join(JoinOp::StackHorizontal)),
        Filter::StackVertical => Ok(Op::Join(JoinOp::StackVertical)),
        Filter::Merge => Ok(Op::Join(JoinOp::Merge)),
        Filter::MergeLuma => Ok(Op::Join(JoinOp::MergeLuma)),
        Filter::MergeChroma => Ok(Op::Join(JoinOp::MergeChroma)),
        Filter::YToUV => Ok(Op::Join(JoinOp::YToUV)),
        Filter::TemporalSoften => Ok(Op::Soft(soften(values))),
        Filter::GeneralConvolution => convolve(alloc, values),
        Filter::SeparateFields => Ok(Op::Field(FieldOp::SeparateFields)),
        Filter::Weave => Ok(Op::Field(FieldOp::Weave)),
        Filter::SwapFields => Ok(Op::Field(FieldOp::SwapFields)),
        Filter::AssumeTFF => Ok(Op::Field(FieldOp::AssumeTFF)),
        Filter::AssumeBFF => Ok(Op::Field(FieldOp::AssumeBFF)),
        Filter::ComplementParity => Ok(Op::Field(FieldOp::ComplementParity)),
        Filter::ConditionalSelect => choose(alloc, values, clip),
        Filter::ConditionalFilter => decide(alloc, values, clip),
    }
}

// ---- sources

// `BlankClip`, with its clip last, or first.
fn blank_takes(alloc: Global) -> Result<Vec<Signature>, AllocError>
    ensures { IfOk result (λ made. map signature_view made.items ≡ r.filter_signatures Filter.BlankClip) }
{
    let mut last = blank_options(alloc)?;
    last.push(Param::optional(alloc, Kind::Clip, "clip")?)?;
    let mut first = blank_options(alloc)?;
    first.insert(0, Param::required(alloc, Kind::Clip)?)?;
    let mut made = Vec::new(alloc);
    made.push(only(last))?;
    made.push(only(first))?;
    Ok(made)
}

// ---- frames

// Where `Trim` ends: exactly one of `last`, `length` and `end` is given.
fn trim_bound(last: Option<i32>, size: Option<i32>, end: Option<i32>) -> Option<TrimBound>
    ensures { result ≡ a.trim_bound last size end }
{
    match (last, size, end) {
        (Some(n), None, None) => Some(TrimBound::Last(n)),
        (None, Some(n), None) => Some(TrimBound::Length(n)),
        (None, None, Some(n)) => Some(TrimBound::End(n)),
        _ => None,
    }
}

fn trim(values: &[Value]) -> Result<Op, Refused>
    requires fit { IsTrue (a.all_fit_filters values.now) }
    ensures { Reads (a.trims (a.number values.now 1) (a.trim_bound (a.number_at values.now 2) (a.number_at values.now 3)
        (a.number_at values.now 4))) result }
{
    let last = number_at(values, 2);
    let size = number_at(values, 3);
    let end = number_at(values, 4);
    match trim_bound(last, size, end) {
        Some(bound) => Ok(Op::Time(TimeOp::Trim {
            first: number(values, 1),
            bound,
        })),
        None => Err(Refused::Fault(ScriptKind::NoMatch)),
    }
}

fn freeze_frame(values: &[Value]) -> TimeOp
    requires fit { IsTrue (a.all_fit_filters values.now) }
    ensures { result ≡ TimeOp.FreezeFrame (a.number values.now 1) (a.number values.now 2) (a.number values.now 3) }
{
    TimeOp::FreezeFrame {
        first: number(values, 1),
        last: number(values, 2),
        source: number(values, 3),
    }
}

// What is shown in a loop where the clip has so many frames.
fn repeat(values: &[Value], frames: u32) -> TimeOp
    requires few { frames ≤ 1000000 }
    requires fit { IsTrue (a.all_fit_filters values.now) }
    ensures { result ≡ TimeOp.Loop (a.number values.now 1) (a.number values.now 2)
        (a.or_number values.now 3 (pos frames -ℤ pos 1)) }
{
    TimeOp::Loop {
        times: number(values, 1),
        start: number(values, 2),
        end: or_number(values, 3, frames as i32 - 1),
    }
}

fn select_every(alloc: Global, given: &Bound) -> Result<TimeOp, AllocError>
    requires values { IsTrue (a.all_fit_filters given.now.values.items) }
    requires rest { IsTrue (a.all_fit_filters given.now.rest.items) }
    ensures { IfOk result (λ op. op
        ≡ TimeOp.SelectEvery (a.number given.now.values.items 1) (a.numbers_among given.now.rest.items)) }
{
    Ok(TimeOp::SelectEvery {
        step: number(&given.values, 1),
        offsets: numbers_among(alloc, &given.rest)?,
    })
}

fn assume_rate(values: &[Value]) -> TimeOp
    requires fit { IsTrue (a.all_fit_filters values.now) }
    ensures { result ≡ TimeOp.AssumeFPS (a.number values.now 1) (a.or_number values.now 2 (pos 1)) }
{
    TimeOp::AssumeFPS {
        num: number(values, 1),
        denominator: or_number(values, 2, 1),
    }
}

fn change_rate(values: &[Value]) -> TimeOp
    requires fit { IsTrue (a.all_fit_filters values.now) }
    ensures { result ≡ TimeOp.ChangeFPS (a.number values.now 1) (a.or_number values.now 2 (pos 1)) }
{
    TimeOp::ChangeFPS {
        num: number(values, 1),
        denominator: or_number(values, 2, 1),
    }
}

// ---- pictures

fn crop_takes(alloc: Global) -> Result<Vec<Signature>, AllocError>
    ensures { IfOk result (λ made. map signature_view made.items ≡ r.filter_signatures Filter.Crop) }
{
    let mut taken = numbered(alloc, 4, &[])?;
    let align = Param::optional(alloc, Kind::Bool, "align")?;
    taken.params.push(align)?;
    alone(alloc, taken)
}

fn crop(values: &[Value]) -> SpaceOp
    requires fit { IsTrue (a.all_fit_filters values.now) }
    ensures { result ≡ SpaceOp.Crop (a.number values.now 1) (a.number values.now 2) (a.number values.now 3)
        (a.number values.now 4) }
{
    SpaceOp::Crop {
        left: number(values, 1),
        top: number(values, 2),
        width: number(values, 3),
        height: number(values, 4),
    }
}

fn add_borders(values: &[Value]) -> SpaceOp
    requires fit { IsTrue (a.all_fit_filters values.now) }
    ensures { result ≡ SpaceOp.AddBorders (a.number values.now 1) (a.number values.now 2) (a.number values.now 3)
        (a.number values.now 4) (a.or_number values.now 5 default_colour) }
{
    SpaceOp::AddBorders {
        left: number(values, 1),
        top: number(values, 2),
        right: number(values, 3),
        bottom: number(values, 4),
        color_yuv: or_number(values, 5, BLACK),
    }
}

fn letter_box(values: &[Value]) -> SpaceOp
    requires fit { IsTrue (a.all_fit_filters values.now) }
    ensures { result ≡ SpaceOp.LetterBox (a.number values.now 1) (a.number values.now 2) (a.number values.now 3)
        (a.number values.now 4) (a.or_number values.now 5 default_colour) }
{
    SpaceOp::LetterBox {
        top: number(values, 1),
        bottom: number(values, 2),
        x1: number(values, 3),
        x2: number(values, 4),
        color_yuv: or_number(values, 5, BLACK),
    }
}

fn invert_takes(alloc: Global) -> Result<Vec<Signature>, AllocError>
    ensures { IfOk result (λ made. map signature_view made.items ≡ r.filter_signatures Filter.Invert) }
{
    let mut taken = one(alloc, Kind::Clip)?;
    let channels = Param::optional(alloc, Kind::Text, "channels")?;
    taken.params.push(channels)?;
    alone(alloc, taken)
}

// What `Invert` does with the planes that are named, all of them where none are given.
fn invert(values: &[Value]) -> Result<Op, Refused>
    ensures { Reads (a.inverts (channels_named (unwrap_or (a.text_at values.now 1) (codes "YUV")))) result }
{
    let named = text_at(values, 1).unwrap_or("YUV");
    match Channels::named(named) {
        Ok(channels) => Ok(Op::Space(SpaceOp::Invert { channels })),
        Err(refusal) => Err(Refused::Fault(ScriptKind::Filter(refusal))),
    }
}

fn limiter_takes(alloc: Global) -> Result<Vec<Signature>, AllocError>
    ensures { IfOk result (λ made. map signature_view made.items ≡ r.filter_signatures Filter.Limiter) }
{
    let names = ["min_luma", "max_luma", "min_chroma", "max_chroma"];
    alone(alloc, numbered(alloc, 0, &names)?)
}

fn limiter(values: &[Value]) -> SpaceOp
    requires fit { IsTrue (a.all_fit_filters values.now) }
    ensures { result ≡ SpaceOp.Limiter (a.or_number values.now 1 (pos 16)) (a.or_number values.now 2 (pos 235))
        (a.or_number values.now 3 (pos 16)) (a.or_number values.now 4 (pos 240)) }
{
    SpaceOp::Limiter {
        min_luma: or_number(values, 1, 16),
        max_luma: or_number(values, 2, 235),
        min_chroma: or_number(values, 3, 16),
        max_chroma: or_number(values, 4, 240),
    }
}

fn soften(values: &[Value]) -> SoftOp
    requires fit { IsTrue (a.all_fit_filters values.now) }
    ensures { result ≡ SoftOp.TemporalSoften (a.number values.now 1) (a.number values.now 2) (a.number values.now 3) }
{
    SoftOp::TemporalSoften {
        radius: number(values, 1),
        luma: number(values, 2),
        chroma: number(values, 3),
    }
}

// ---- neighbours

// The matrix that keeps each sample.
const MIDDLE_ALONE: &str = "0 0 0 0 1 0 0 0 0";

fn convolve_takes(alloc: Global) -> Result<Vec<Signature>, AllocError>
    ensures { IfOk result (λ made. map signature_view made.items ≡ r.filter_signatures Filter.GeneralConvolution) }
{
    let mut taken = one(alloc, Kind::Clip)?;
    let bias = Param::optional(alloc, Kind::Int, "bias")?;
    taken.params.push(bias)?;
    let matrix = Param::optional(alloc, Kind::Text, "matrix")?;
    taken.params.push(matrix)?;
    alone(alloc, taken)
}

// What `GeneralConvolution` does with its bias and the text of its matrix.
fn convolve(alloc: Global, values: &[Value]) -> Result<Op, Refused>
    requires fit { IsTrue (a.all_fit_filters values.now) }
    ensures { Reads (a.convolves (a.number values.now 1) (unwrap_or (a.text_at values.now 2) a.middle_alone)) result }
{
    let bias = number(values, 1);
    if !is_bias(bias) {
        return Err(Refused::Fault(ScriptKind::Filter(FilterFault::BadRange)));
    }
    let matrix = text_at(values, 2).unwrap_or(MIDDLE_ALONE);
    match read_matrix(alloc, matrix) {
        Ok(matrix) => Ok(Op::Soft(SoftOp::GeneralConvolution { bias, matrix })),
        Err(MatrixFault::BadText) => {
            Err(Refused::Fault(ScriptKind::Filter(FilterFault::BadText)))
        }
        Err(MatrixFault::Memory) => Err(Refused::Memory),
    }
}
