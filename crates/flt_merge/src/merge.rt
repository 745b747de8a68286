// `Merge`: the mean of two pictures, sample by sample.
ghost use Rattle.std.specs.Prelude.{◌≡◌, IfOk, false, length};
ghost use Rattle.std.specs.Simd.Lanes.{zip2};
ghost use Rattle.fv_plane.specs.Picture.{bytes_of_row, row_of_bytes, picture_from};
ghost use Rattle.fv_plane.specs.Format.{plane_width, row_bytes};
ghost use Rattle.flt_merge.specs.Rows.{mean, look_of_means};

use crate::kernels::{merge_row, merge_wide_row};
use fv_plane::{Frame, FrameMemory, RowMaker, Shape, make_by_rows, write_samples};
use std::alloc::{AllocError, Global};

// Writes the bytes of the means of two rows. Samples of two bytes are made in `samples` first.
fn fill_means(shape: Shape, plane: u32, a: &[u8], b: &[u8], samples: &mut [u16], out: &mut [u8])
    requires a { length a.now ≡ length out.old }
    requires b { length b.now ≡ length out.old }
    requires samples { length samples.old ≡ plane_width shape plane }
    requires whole { length out.old ≡ row_bytes shape plane }
    ensures { out.new ≡ bytes_of_row shape (zip2 mean (row_of_bytes shape a.now) (row_of_bytes shape b.now)) }
{
    if shape.bits == 8 {
        merge_row(a, b, out);
    } else {
        merge_wide_row(a, b, samples);
        write_samples(samples, out);
    }
}

// The rows of the means of two pictures of one shape.
#[derive(Drop)]
struct MeanRows<'a> {
    a: &'a Frame,
    b: &'a Frame,
}

impl RowMaker for MeanRows<'_> {
    ghost shape_made = { λ rows. rows.a.now.shape };

    ghost look_made = { λ rows. look_of_means rows.a.now rows.b.now };

    ghost keeps = { λ rows p. false };

    ghost can_make = { λ rows. rows.b.now.shape ≡ rows.a.now.shape };

    fn shape(&self) -> Shape {
        // No sample of either is over the largest one.
        let _ = self.b.shape();
        self.a.shape()
    }

    fn kept(&self, plane: u32) -> Option<(&Frame, u32)> {
        None
    }

    fn fill_row(&mut self, plane: u32, y: u32, samples: &mut [u16], out: &mut [u8]) {
        let shape = self.a.shape();
        // The other is a picture too.
        let _ = self.b.shape();
        fill_means(
            shape,
            plane,
            self.a.row(plane, y),
            self.b.row(plane, y),
            samples,
            out,
        );
    }
}

/// The mean of two pictures of one shape, sample by sample. An `Err` is out of memory.
pub fn merge(alloc: Global, memory: FrameMemory, a: &Frame, b: &Frame) -> Result<Frame, AllocError>
    requires { b.now.shape ≡ a.now.shape }
    ensures { IfOk result (λ made. made ≡ picture_from a.now.shape (look_of_means a.now b.now)) }
{
    make_by_rows(alloc, memory, &mut MeanRows { a, b })
}
