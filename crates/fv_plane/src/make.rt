// Pictures that are made row by row.
ghost use Rattle.std.specs.Prelude.{◌≡◌, ◌<◌, ◌*◌, ℕ, Bool, IfOk, OnOk, MatchOption, false, length, map, drop, slice_index_or, []};
ghost use Rattle.fv_plane.specs.Picture.{bytes_of_rows, decoded_rows, chroma_list, AllWhole, AreWhole, Look, picture_from, plane_from};
ghost use Rattle.fv_plane.specs.Format.{IsLegal, planes, plane_height, plane_width, row_bytes};
ghost use Rattle.fv_plane.specs.Made.{FitsLook, IsPlaneOf, bytes_made};
ghost use Rattle.fv_plane.specs.declared.format.Shape.{Shape};

use crate::{Frame, FrameMemory, Shape};
use fv_rows::{Plane, emptied};
use std::alloc::{AllocError, Global};
use std::sync::Arc;

/// What makes a picture row by row, of the frames that it holds.
pub trait RowMaker {
    /// The shape of the picture.
    ghost shape_made: { Self → Shape };

    /// The sample at each place of it.
    ghost look_made: { Self → Look };

    /// Whether a plane of it is a plane of a frame.
    ghost keeps: { Self → ℕ → Bool };

    /// What is asked of its arguments and of its frames.
    ghost can_make: { Self → Type 0 };

    /// The shape of the picture, in which no sample is over the largest one.
    fn shape(&self) -> Shape
        requires { can_make self.now }
        ensures shape { result ≡ shape_made self.now }
        ensures legal { IsLegal result }
        ensures fits { FitsLook result (look_made self.now) };

    /// The frame, and the plane of it, that a plane of the picture is. It is shared then.
    fn kept(&self, plane: u32) -> Option<(&Frame, u32)>
        requires able { can_make self.now }
        requires plane { plane < planes (shape_made self.now).kind }
        ensures { MatchOption result (keeps self.now plane ≡ false)
            (λ from. IsPlaneOf (shape_made self.now) (look_made self.now) plane from.0.now from.1) };

    /// Writes the bytes of a row of a plane that isn't kept. `samples` is for its samples, where they are made first.
    fn fill_row(&mut self, plane: u32, y: u32, samples: &mut [u16], out: &mut [u8])
        requires able { can_make self.old }
        requires changed { keeps self.old plane ≡ false }
        requires plane { plane < planes (shape_made self.old).kind }
        requires inside { y < plane_height (shape_made self.old) plane }
        requires samples { length samples.old ≡ plane_width (shape_made self.old) plane }
        requires whole { length out.old ≡ row_bytes (shape_made self.old) plane }
        ensures row { out.new ≡ bytes_made (shape_made self.old) (look_made self.old) plane y }
        ensures same { self.new ≡ self.old };
}

// Appends the rows of a plane that isn't kept.
fn append_rows<M: RowMaker>(
    alloc: Global,
    maker: &mut M,
    shape: Shape,
    plane: u32,
    bytes: &mut Vec<u8>,
) -> Result<(), AllocError>
    requires able { M.can_make maker.old }
    requires changed { M.keeps maker.old plane ≡ false }
    requires shape { shape ≡ M.shape_made maker.old }
    requires legal { IsLegal shape }
    requires plane { plane < planes shape.kind }
    requires empty { bytes.old.items ≡ [] }
    ensures rows { OnOk result (bytes.new.items
        ≡ bytes_of_rows shape (plane_from (M.look_made maker.old) plane (plane_width shape plane) (plane_height shape plane))) }
    ensures same { maker.new ≡ maker.old }
{
    let mut samples = vec![in alloc; 0u16; shape.plane_width(plane) as usize]?;
    let mut row = vec![in alloc; 0u8; shape.row_bytes(plane) as usize]?;
    let samples = samples.as_mut_slice();
    let row = row.as_mut_slice();
    for y in 0..shape.plane_height(plane) {
        maker.fill_row(plane, y, samples, row);
        bytes.extend_from_slice(row)?;
    }
    Ok(())
}

// A plane of the picture.
fn make_plane<M: RowMaker>(
    alloc: Global,
    memory: Option<Vec<u8>>,
    maker: &mut M,
    shape: Shape,
    plane: u32,
) -> Result<Plane, AllocError>
    requires able { M.can_make maker.old }
    requires shape { shape ≡ M.shape_made maker.old }
    requires legal { IsLegal shape }
    requires plane { plane < planes shape.kind }
    ensures shown { IfOk result (λ made. decoded_rows shape made
        ≡ slice_index_or (picture_from shape (M.look_made maker.old)).planes plane []) }
    ensures whole { IfOk result (λ made. AreWhole shape made) }
    ensures same { maker.new ≡ maker.old }
{
    if let Some((frame, of)) = maker.kept(plane) {
        return frame.plane(of).share();
    }
    let width = shape.row_bytes(plane) as usize;
    let height = shape.plane_height(plane) as usize;
    let mut bytes = emptied(alloc, memory, height * width)?;
    append_rows(alloc, maker, shape, plane, &mut bytes)?;
    Ok(Plane::new(Arc::new(alloc, bytes)?, 0, width, height))
}

// The chroma planes of the picture.
fn make_chroma<M: RowMaker>(
    alloc: Global,
    memory_of_u: Option<Vec<u8>>,
    memory_of_v: Option<Vec<u8>>,
    maker: &mut M,
    shape: Shape,
) -> Result<Option<(Plane, Plane)>, AllocError>
    requires able { M.can_make maker.old }
    requires shape { shape ≡ M.shape_made maker.old }
    requires legal { IsLegal shape }
    ensures shown { IfOk result (λ made. map (decoded_rows shape) (chroma_list made)
        ≡ drop 1 (picture_from shape (M.look_made maker.old)).planes) }
    ensures whole { IfOk result (λ made. AllWhole shape (chroma_list made)) }
    ensures same { maker.new ≡ maker.old }
{
    if shape.kind.planes() == 1 {
        return Ok(None);
    }
    let u = make_plane(alloc, memory_of_u, maker, shape, 1)?;
    let v = make_plane(alloc, memory_of_v, maker, shape, 2)?;
    Ok(Some((u, v)))
}

/// The picture that is made, in this memory as far as that has room. An `Err` is out of memory, or more shares than can
/// be counted.
pub fn make_by_rows<M: RowMaker>(
    alloc: Global,
    memory: FrameMemory,
    maker: &mut M,
) -> Result<Frame, AllocError>
    requires { M.can_make maker.old }
    ensures made { IfOk result (λ made. made ≡ picture_from (M.shape_made maker.old) (M.look_made maker.old)) }
    ensures same { maker.new ≡ maker.old }
{
    let FrameMemory { luma, u, v } = memory;
    let shape = maker.shape();
    let luma = make_plane(alloc, luma, maker, shape, 0)?;
    let chroma = make_chroma(alloc, u, v, maker, shape)?;
    Ok(Frame::of_planes(shape, luma, chroma))
}
