// Pictures that are written row by row: those of `Weave` and `SwapFields`.
ghost use Rattle.std.specs.Prelude.{◌≡◌, ◌<◌, ℕ, IfOk, true};
ghost use Rattle.fv_plane.specs.Format.{IsLegal, planes, plane_height};
ghost use Rattle.fv_plane.specs.Picture.{IsPicture, row_of, with_row};
ghost use Rattle.clip_term.specs.Time as f;
ghost use Rattle.flt_field.specs.Made.{CanMake, field_picture, shape_made, shape_of, takes_memory};
ghost use Rattle.flt_field.specs.Made.{picture_for, row_for};

use clip_term::FieldOp;
use fv_plane::{Field, Frame, FrameBuilder, FrameMemory, Shape};
use std::alloc::{AllocError, Global};

fn is_even(n: u32) -> bool
    ensures { result ≡ f.is_even n }
{
    n % 2 == 0
}

fn is_top_first(field: Field) -> bool
    ensures { result ≡ f.is_top_first field }
{
    field != Field::Bottom
}

/// 0 where `n` is even and the top field is first, or `n` is odd and it isn't; else 1. Frame `n` of separated fields
/// begins with this row, and row `n` of a woven frame is a row of this one of the two frames.
pub fn which_field(field: Field, n: u32) -> u32
    ensures { result ≡ f.woven_from field n }
{
    if is_even(n) == is_top_first(field) {
        0
    } else {
        1
    }
}

// The input that has row `y` of the picture, and the row there.
fn place(op: FieldOp, field: Field, y: u32) -> (u32, u32)
    requires { y < 65536 }
    ensures input { result.0 ≡ picture_for op field y }
    ensures row { result.1 ≡ row_for op y }
{
    match op {
        FieldOp::Weave => (which_field(field, y), y / 2),
        FieldOp::SwapFields => (0, if is_even(y) { y + 1 } else { y - 1 }),
        _ => (0, y),
    }
}

// The shape of the picture that is written.
fn shape_made(op: FieldOp, inputs: &[Frame]) -> Shape
    requires can { CanMake op inputs.now }
    requires written { takes_memory op ≡ true }
    ensures made { result ≡ shape_made op inputs.now }
    ensures legal { IsLegal (shape_of inputs.now) }
{
    let shape = inputs[0].shape();
    match op {
        FieldOp::Weave => Shape {
            height: 2 * shape.height,
            ..shape
        },
        _ => shape,
    }
}

// Puts a row of the input in row `y` of the same plane. The two pictures may differ in height.
fn copy_row(input: &Frame, plane: u32, row: u32, made: &mut FrameBuilder, y: u32)
    requires like { input.now.shape ≡ record made.old.shape { height = input.now.shape.height } }
    requires plane { plane < planes input.now.shape.kind }
    requires row { row < plane_height input.now.shape plane }
    requires inside { y < plane_height made.old.shape plane }
    ensures shape { made.new.shape ≡ made.old.shape }
    ensures rows { made.new.planes ≡ with_row made.old.planes plane y (row_of input.now.planes plane row) }
    ensures sizes { IsPicture made.new }
    ensures whole { IsPicture input.now }
{
    // Called for what its contract says.
    let _ = input.shape();
    made.put_row(plane, y, input.row(plane, row));
}

/// The picture of a filter that writes its rows, in `memory` as far as that has room. An `Err` is out of memory.
pub fn by_rows(
    alloc: Global,
    memory: FrameMemory,
    op: FieldOp,
    field: Field,
    inputs: &[Frame],
) -> Result<Frame, AllocError>
    requires can { CanMake op inputs.now }
    requires written { takes_memory op ≡ true }
    ensures { IfOk result (λ made. (n : ℕ) → made ≡ field_picture op field n inputs.now) }
{
    let shape = shape_made(op, inputs);
    let mut made = FrameBuilder::new_in(alloc, memory, shape)?;
    for plane in 0..shape.kind.planes() {
        for y in 0..shape.plane_height(plane) {
            let (input, row) = place(op, field, y);
            copy_row(&inputs[input as usize], plane, row, &mut made, y);
        }
    }
    made.finish()
}
