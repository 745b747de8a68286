// Parts of pictures, and single planes. They share the bytes of the input.
ghost use Rattle.std.specs.Prelude.{◌≡◌, None, IfOk, false};
ghost use Rattle.fv_plane.specs.Refusals.{first_fault};
ghost use Rattle.clip_term.specs.declared.op.SpaceOp.TheVariants.{Crop, CropBottom, UToY8, VToY8, ConvertToY8};
ghost use Rattle.clip_term.specs.Refusals.{nat_of, below};
ghost use Rattle.clip_term.specs.Space.{space_picture, space_refusals, size_from, is_no_part};

use fv_plane::Frame;
use std::alloc::AllocError;

// A size that is 0 or less counts from the far edge.
fn size_from(start: i32, size: i32, whole: u32) -> u32
    requires start { below start 0 ≡ false }
    requires part { is_no_part whole start (size_from start size whole) ≡ false }
    ensures { result ≡ nat_of (size_from start size whole) }
{
    if size > 0 {
        size.unsigned_abs()
    } else {
        whole - start.unsigned_abs() - size.unsigned_abs()
    }
}

/// `Crop`: the part of the picture from a column and a row on. An `Err` is more shares than can be counted.
pub fn crop(
    input: &Frame,
    left: i32,
    top: i32,
    width: i32,
    height: i32,
) -> Result<Frame, AllocError>
    requires { first_fault (space_refusals (Crop left top width height) input.now.shape) ≡ None }
    ensures { IfOk result (λ made. made ≡ space_picture (Crop left top width height) input.now) }
{
    let shape = input.shape();
    input.window(
        left.unsigned_abs(),
        top.unsigned_abs(),
        size_from(left, width, shape.width),
        size_from(top, height, shape.height),
    )
}

/// `CropBottom`: the picture without its last rows. An `Err` is more shares than can be counted.
pub fn crop_bottom(input: &Frame, n: i32) -> Result<Frame, AllocError>
    requires { first_fault (space_refusals (CropBottom n) input.now.shape) ≡ None }
    ensures { IfOk result (λ made. made ≡ space_picture (CropBottom n) input.now) }
{
    let shape = input.shape();
    input.window(0, 0, shape.width, shape.height - n.unsigned_abs())
}

/// `UToY8`: the plane of U as luma. An `Err` is more shares than can be counted.
pub fn u_to_y8(input: &Frame) -> Result<Frame, AllocError>
    requires { first_fault (space_refusals UToY8 input.now.shape) ≡ None }
    ensures { IfOk result (λ made. made ≡ space_picture UToY8 input.now) }
{
    input.plane_of(1)
}

/// `VToY8`: the plane of V as luma. An `Err` is more shares than can be counted.
pub fn v_to_y8(input: &Frame) -> Result<Frame, AllocError>
    requires { first_fault (space_refusals VToY8 input.now.shape) ≡ None }
    ensures { IfOk result (λ made. made ≡ space_picture VToY8 input.now) }
{
    input.plane_of(2)
}

/// `ConvertToY8`: luma alone. An `Err` is more shares than can be counted.
pub fn convert_to_y8(input: &Frame) -> Result<Frame, AllocError>
    ensures { IfOk result (λ made. made ≡ space_picture ConvertToY8 input.now) }
{
    input.plane_of(0)
}
