// The checks of the group Join.
ghost use Rattle.std.specs.Prelude.{◌≡◌, ◌∷◌, [], List, length, IfOk};
ghost use Rattle.fv_plane.specs.declared.format.Info.{Info};
ghost use Rattle.fv_plane.specs.Info.{IsLawful};
ghost use Rattle.fv_plane.specs.Refusals.{first_fault};
ghost use Rattle.std.specs.Option.{unwrap_or};
ghost use Rattle.fv_plane.specs.declared.format.PixelType.TheVariants.{Y8};
ghost use Rattle.clip_term.specs.Join.{has_sizes, kind_of, chroma_refusals, join_refusals, join_length, join_shape, check_join};
ghost use Rattle.clip_term.specs.Terms.{joined, IsSound, AreLawful};
ghost use Rattle.clip_check.specs.Numbers.{shape_in};
ghost use Rattle.clip_check.specs.Summaries.{Tells, TellsAll};

use crate::limits::{Sides, limits, rate_of, sides_of};
use crate::shared::{disagreement, same_size};
use crate::summary::Summary;
use clip_term::{FilterFault, JoinOp};
use fv_plane::{Info, PixelType, Shape};

// Whether luma of the size of `y` has chroma of the size of `u` in this format.
fn has_sizes(u: Shape, y: Shape, kind: PixelType) -> bool
    ensures { result ≡ has_sizes u y kind }
{
    y.width as u64 == u.width as u64 * kind.sub_w() as u64
        && y.height as u64 == u.height as u64 * kind.sub_h() as u64
}

// The format in which luma of the size of `y` has chroma of the size of `u`.
fn kind_of(u: Shape, y: Shape) -> Option<PixelType>
    ensures { result ≡ kind_of u y }
{
    if has_sizes(u, y, PixelType::YV24) {
        Some(PixelType::YV24)
    } else if has_sizes(u, y, PixelType::YV16) {
        Some(PixelType::YV16)
    } else if has_sizes(u, y, PixelType::YV12) {
        Some(PixelType::YV12)
    } else if has_sizes(u, y, PixelType::YV411) {
        Some(PixelType::YV411)
    } else {
        None
    }
}

fn chroma_fault(same_bits: bool, u: Shape, v: Shape, y: Shape) -> Option<FilterFault>
    ensures { result ≡ first_fault (chroma_refusals same_bits u v y) }
{
    if !same_bits {
        return Some(FilterFault::FormatDiffers);
    }
    if !same_size(u, v) || kind_of(u, y).is_none() {
        return Some(FilterFault::SizeDiffers);
    }
    if joined_kind(u, y).has_depth(u.bits) {
        None
    } else {
        Some(FilterFault::DepthRefused)
    }
}

// The format that chroma of the size of `u` makes with luma of the size of `y`.
fn joined_kind(u: Shape, y: Shape) -> PixelType
    ensures { result ≡ unwrap_or (kind_of u y) Y8 }
{
    kind_of(u, y).unwrap_or(PixelType::Y8)
}

// What the row refuses.
fn join_fault(op: &JoinOp, summary: &Summary) -> Option<FilterFault>
    ensures { (infos : List Info) → Tells summary.now infos →
        result ≡ first_fault (join_refusals op.now summary.now.first infos) }
{
    match op {
        JoinOp::StackHorizontal => disagreement(summary.same_formats, summary.same_heights),
        JoinOp::StackVertical => disagreement(summary.same_formats, summary.same_widths),
        JoinOp::Merge | JoinOp::MergeLuma | JoinOp::MergeChroma => disagreement(
            summary.same_formats,
            summary.same_sizes,
        ),
        JoinOp::YToUV => chroma_fault(
            summary.same_bits,
            summary.first.shape,
            summary.second.shape,
            summary.third.shape,
        ),
    }
}

// The length of the row.
fn join_length(op: &JoinOp, summary: &Summary) -> u32
    ensures { (infos : List Info) → Tells summary.now infos → result ≡ join_length op.now summary.now.first infos }
{
    match op {
        JoinOp::StackHorizontal | JoinOp::StackVertical => summary.most_frames,
        _ => summary.first.frames,
    }
}

// The size of the row.
fn join_sides(op: &JoinOp, summary: &Summary) -> Sides
    ensures { (infos : List Info) → Tells summary.now infos →
        shape_in result ≡ join_shape op.now summary.now.first infos }
{
    let first = summary.first.shape;
    match op {
        JoinOp::StackHorizontal => Sides {
            width: summary.all_widths,
            ..sides_of(first)
        },
        JoinOp::StackVertical => Sides {
            height: summary.all_heights,
            ..sides_of(first)
        },
        JoinOp::YToUV => {
            let y = summary.third.shape;
            Sides {
                kind: joined_kind(first, y),
                bits: first.bits,
                ..sides_of(y)
            }
        }
        _ => sides_of(first),
    }
}

/// The check of an op of the group Join over the summary of its clips.
pub fn join_info(op: &JoinOp, summary: &Summary) -> Result<Info, FilterFault>
    ensures { (infos : List Info) → TellsAll summary.now infos → result ≡ check_join op.now infos }
{
    match join_fault(op, summary) {
        Some(fault) => Err(fault),
        None => limits(
            summary.first,
            join_length(op, summary) as u128,
            rate_of(summary.first),
            join_sides(op, summary),
        ),
    }
}

/// The info of a clip of the group Join over clips of these infos, or the first refusal.
pub fn check_join(op: &JoinOp, infos: &[Info]) -> Result<Info, FilterFault>
    ensures exact { result ≡ check_join op.now infos.now }
    ensures lawful { IsSound (joined op.now) (length infos.now) → AreLawful infos.now →
        IfOk result (λ info. IsLawful info) }
{
    join_info(op, &Summary::of(infos))
}
