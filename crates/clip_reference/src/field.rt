// The samples of what becomes of fields.
ghost use Rattle.std.specs.Prelude.{◌≡◌, ◌<◌, ◌+◌, ◌*◌, map, if◌then◌else◌};
ghost use Rattle.fv_plane.specs.declared.format.Info.{Info};
ghost use Rattle.fv_plane.specs.Picture.{look_in};
ghost use Rattle.clip_term.specs.Time as f;

use crate::place::look_at;
use clip_term::FieldOp;
use fv_plane::{Field, Frame};

/// A sample of frame `n` of what the op makes of frames of a clip with this order of fields.
pub fn field_sample(
    op: &FieldOp,
    field: Field,
    n: u32,
    frames: &[Frame],
    plane: u32,
    x: u32,
    y: u32,
) -> u16
    ensures { (c : Info) → c.field ≡ field → result ≡ f.field_at op.now c n (map look_in frames.now) plane x y }
{
    let x = x as u64;
    let row = y as u64;
    match op {
        FieldOp::SeparateFields => {
            let first = if is_upper(field, n) { 0 } else { 1 };
            look_at(frames, 0, plane, x, 2 * row + first)
        }
        FieldOp::Weave => {
            let from = if is_upper(field, y) { 0 } else { 1 };
            look_at(frames, from, plane, x, row / 2)
        }
        FieldOp::SwapFields => look_at(frames, 0, plane, x, other_row(row)),
        FieldOp::AssumeTFF | FieldOp::AssumeBFF | FieldOp::ComplementParity => {
            look_at(frames, 0, plane, x, row)
        }
    }
}

// Whether the field of this number, or the row, is one of the field of even rows.
fn is_upper(field: Field, n: u32) -> bool
    ensures { result ≡ f.is_upper field n }
{
    (n % 2 == 0) == (field != Field::Bottom)
}

// The row beside it, in the other field.
fn other_row(y: u64) -> u64
    requires { y < 4294967296 }
    ensures { result ≡ f.other_row y }
{
    if y % 2 == 0 { y + 1 } else { y - 1 }
}
