// Filters that make each row of a picture by itself.
ghost use Rattle.std.specs.Prelude.{◌≡◌, ◌<◌, IfOk, None, length};
ghost use Rattle.fv_plane.specs.Picture.{bytes_of_row, look_in};
ghost use Rattle.fv_plane.specs.Format.{IsLegal, planes, plane_width, plane_height, sample_bytes};
ghost use Rattle.fv_plane.specs.Refusals.{first_fault};
ghost use Rattle.clip_term.specs.declared.op.SpaceOp.{SpaceOp};
ghost use Rattle.clip_term.specs.Space.{space_at, space_shape, space_picture, space_refusals};
ghost use Rattle.flt_space.specs.Kept.{keeps_plane};
ghost use Rattle.flt_space.specs.Rows.{CanMake, IsRowToMake, IsRowToPut, row_made};

use fv_plane::{Frame, FrameMemory, RowMaker, Shape, write_samples};
use std::alloc::{AllocError, Global};

/// A filter that makes a row from the rows of the input.
pub trait RowFilter {
    /// The filter with its arguments.
    ghost op: { Self → SpaceOp };

    /// Whether a plane of the result is that plane of the input.
    fn keeps_plane(&self, plane: u32) -> bool
        ensures { result ≡ keeps_plane (op self.now) plane };

    /// Writes a row of a plane that isn't kept, where a sample is a byte.
    fn fill_row(&self, input: &Frame, plane: u32, y: u32, out: &mut [u8])
        requires row { IsRowToMake (op self.now) input.now plane y }
        requires narrow { input.now.shape.bits ≡ 8 }
        requires whole { length out.old ≡ plane_width (space_shape (op self.now) input.now.shape) plane }
        ensures { out.new ≡ row_made (op self.now) input.now plane y };

    /// Writes a row of a plane that isn't kept, where a sample has two bytes.
    fn fill_samples(&self, input: &Frame, plane: u32, y: u32, out: &mut [u16])
        requires row { IsRowToMake (op self.now) input.now plane y }
        requires wide { sample_bytes input.now.shape ≡ 2 }
        requires whole { length out.old ≡ plane_width (space_shape (op self.now) input.now.shape) plane }
        ensures { out.new ≡ row_made (op self.now) input.now plane y };
}

// Writes the bytes of a row of a plane that isn't kept. Samples of two bytes are made in `samples` first.
fn fill_bytes<F: RowFilter>(
    filter: &F,
    input: &Frame,
    plane: u32,
    y: u32,
    samples: &mut [u16],
    out: &mut [u8],
)
    requires { IsRowToPut (F.op filter.now) input.now plane y samples.old out.old }
    ensures { out.new ≡ bytes_of_row input.now.shape (row_made (F.op filter.now) input.now plane y) }
{
    if input.shape().bits == 8 {
        filter.fill_row(input, plane, y, out);
    } else {
        filter.fill_samples(input, plane, y, samples);
        write_samples(samples, out);
    }
}

// The rows of the picture that a filter makes, which keeps the bits of a sample.
#[derive(Drop)]
struct FilteredRows<'a, F> {
    filter: &'a F,
    input: &'a Frame,
    shape: Shape,
}

impl<F: RowFilter> RowMaker for FilteredRows<'_, F> {
    ghost shape_made = { λ rows. space_shape (F.op rows.filter.now) rows.input.now.shape };

    ghost look_made = { λ rows. space_at (F.op rows.filter.now) rows.input.now.shape (look_in rows.input.now) };

    ghost keeps = { λ rows p. keeps_plane (F.op rows.filter.now) p };

    ghost can_make = { λ rows. CanMake (F.op rows.filter.now) rows.input.now rows.shape };

    fn shape(&self) -> Shape {
        // No sample of the input is over the largest one.
        let _ = self.input.shape();
        self.shape
    }

    fn kept(&self, plane: u32) -> Option<(&Frame, u32)> {
        if self.filter.keeps_plane(plane) {
            Some((self.input, plane))
        } else {
            None
        }
    }

    fn fill_row(&mut self, plane: u32, y: u32, samples: &mut [u16], out: &mut [u8]) {
        fill_bytes(self.filter, self.input, plane, y, samples, out);
    }
}

/// The picture of this shape that a filter makes, which keeps the bits of a sample.
pub fn make_by_rows<F: RowFilter + Drop>(
    alloc: Global,
    memory: FrameMemory,
    filter: &F,
    input: &Frame,
    shape: Shape,
) -> Result<Frame, AllocError>
    requires accepted { first_fault (space_refusals (F.op filter.now) input.now.shape) ≡ None }
    requires shape { shape ≡ space_shape (F.op filter.now) input.now.shape }
    requires bits { shape.bits ≡ input.now.shape.bits }
    requires legal { IsLegal shape }
    ensures { IfOk result (λ made. made ≡ space_picture (F.op filter.now) input.now) }
{
    let mut rows = FilteredRows {
        filter,
        input,
        shape,
    };
    fv_plane::make_by_rows(alloc, memory, &mut rows)
}
