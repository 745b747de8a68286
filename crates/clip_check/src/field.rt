// The checks of the filters on fields.
ghost use Rattle.std.specs.Prelude.{◌≡◌, List, length, IfOk};
ghost use Rattle.fv_plane.specs.declared.format.Info.{Info};
ghost use Rattle.fv_plane.specs.Info.{IsLawful};
ghost use Rattle.fv_plane.specs.Refusals.{first_fault};
ghost use Rattle.clip_term.specs.Time as f;
ghost use Rattle.clip_term.specs.Terms.{fields, IsSound, AreLawful};
ghost use Rattle.clip_check.specs.Numbers.{rate_in, shape_in};
ghost use Rattle.clip_check.specs.Summaries.{TellsAll};

use crate::limits::{FrameRate, Sides, limits, rate_of, sides_of};
use crate::summary::Summary;
use clip_term::{FieldOp, FilterFault};
use fv_plane::{Field, Info, Shape};

// Whether the rows of a frame are two fields of whole chroma rows.
fn has_fields(shape: Shape) -> bool
    ensures { result ≡ f.has_fields shape }
{
    shape.height % (2 * shape.kind.sub_h()) == 0
}

fn field_fault(op: FieldOp, shape: Shape) -> Option<FilterFault>
    ensures { result ≡ first_fault (f.field_refusals op shape) }
{
    match op {
        FieldOp::SeparateFields | FieldOp::SwapFields if !has_fields(shape) => {
            Some(FilterFault::NotWholeChroma)
        }
        _ => None,
    }
}

// The size of the row.
fn field_sides(op: FieldOp, shape: Shape) -> Sides
    ensures { shape_in result ≡ f.field_shape op shape }
{
    let sides = sides_of(shape);
    match op {
        FieldOp::SeparateFields => Sides {
            height: sides.height / 2,
            ..sides
        },
        FieldOp::Weave => Sides {
            height: 2 * shape.height as u128,
            ..sides
        },
        _ => sides,
    }
}

// The length of the row.
fn field_length(op: FieldOp, frames: u32) -> u128
    ensures { result ≡ f.field_length op frames }
{
    match op {
        FieldOp::SeparateFields => 2 * frames as u128,
        FieldOp::Weave => frames as u128 / 2,
        _ => frames as u128,
    }
}

// The rate of the row.
fn field_rate(op: FieldOp, c: Info) -> FrameRate
    ensures { rate_in result ≡ f.field_rate op c }
{
    match op {
        FieldOp::SeparateFields => FrameRate {
            num: c.num as u128 * 2,
            den: c.den as u128,
        },
        FieldOp::Weave => FrameRate {
            num: c.num as u128,
            den: c.den as u128 * 2,
        },
        _ => rate_of(c),
    }
}

// The order of fields of the row.
fn field_order(op: FieldOp, field: Field) -> Field
    ensures { result ≡ f.field_order op field }
{
    match (op, field) {
        (FieldOp::AssumeTFF, _) => Field::Top,
        (FieldOp::AssumeBFF, _) => Field::Bottom,
        (FieldOp::ComplementParity, Field::Top) => Field::Bottom,
        (FieldOp::ComplementParity, Field::Bottom) => Field::Top,
        _ => field,
    }
}

/// The check of a filter on fields over the summary of its clips.
pub fn field_info(op: &FieldOp, summary: &Summary) -> Result<Info, FilterFault>
    ensures { (infos : List Info) → TellsAll summary.now infos → result ≡ f.check_field op.now infos }
{
    let c = summary.first;
    match field_fault(*op, c.shape) {
        Some(fault) => Err(fault),
        None => limits(
            Info {
                field: field_order(*op, c.field),
                ..c
            },
            field_length(*op, c.frames),
            field_rate(*op, c),
            field_sides(*op, c.shape),
        ),
    }
}

/// The info of a clip of a filter on fields over clips of these infos, or the first refusal.
pub fn check_field(op: &FieldOp, infos: &[Info]) -> Result<Info, FilterFault>
    ensures exact { result ≡ f.check_field op.now infos.now }
    ensures lawful { IsSound (fields op.now) (length infos.now) → AreLawful infos.now →
        IfOk result (λ info. IsLawful info) }
{
    field_info(op, &Summary::of(infos))
}
