// Pictures whose planes are planes of others.
ghost use Rattle.std.specs.Prelude.{◌≡◌, IfOk};
ghost use Rattle.fv_plane.specs.Format.{IsLegal, HasSamePlane};
ghost use Rattle.fv_plane.specs.Picture.{picture_from};
ghost use Rattle.flt_merge.specs.Rows.{one_of_two, one_of_three, look_of_two, look_of_luma};

use fv_plane::{Frame, FrameBuilder, Shape};
use std::alloc::{AllocError, Global};

// The picture that a plane is of.
fn one_of_two<'a>(luma: &'a Frame, chroma: &'a Frame, plane: u32) -> &'a Frame
    ensures { result.now ≡ one_of_two luma.now chroma.now plane }
{
    if plane == 0 { luma } else { chroma }
}

// The picture whose luma a plane is.
fn one_of_three<'a>(y: &'a Frame, u: &'a Frame, v: &'a Frame, plane: u32) -> &'a Frame
    ensures { result.now ≡ one_of_three y.now u.now v.now plane }
{
    match plane {
        0 => y,
        1 => u,
        _ => v,
    }
}

/// The picture with the luma of one picture and the chroma of another. They are shared. An `Err` is out of memory.
pub fn luma_and_chroma(alloc: Global, luma: &Frame, chroma: &Frame) -> Result<Frame, AllocError>
    requires { chroma.now.shape ≡ luma.now.shape }
    ensures { IfOk result (λ made. made ≡ picture_from luma.now.shape (look_of_two luma.now chroma.now)) }
{
    let shape = luma.shape();
    // The other is a picture too.
    let _ = chroma.shape();
    let mut made = FrameBuilder::new(alloc, shape)?;
    for plane in 0..shape.kind.planes() {
        made.put_plane(plane, one_of_two(luma, chroma, plane), plane)?;
    }
    made.finish()
}

/// The picture of a shape whose planes are the luma of three pictures. They are shared. An `Err` is out of memory.
pub fn luma_of_three(
    alloc: Global,
    shape: Shape,
    y: &Frame,
    u: &Frame,
    v: &Frame,
) -> Result<Frame, AllocError>
    requires legal { IsLegal shape }
    requires y { HasSamePlane shape 0 y.now.shape 0 }
    requires u { HasSamePlane shape 1 u.now.shape 0 }
    requires v { HasSamePlane shape 2 v.now.shape 0 }
    ensures { IfOk result (λ made. made ≡ picture_from shape (look_of_luma y.now u.now v.now)) }
{
    // All three are pictures.
    let _ = y.shape();
    let _ = u.shape();
    let _ = v.shape();
    let mut made = FrameBuilder::new(alloc, shape)?;
    for plane in 0..shape.kind.planes() {
        made.put_plane(plane, one_of_three(y, u, v, plane), 0)?;
    }
    made.finish()
}
