// Rows of the inputs.
ghost use Rattle.std.specs.Prelude.{◌≡◌, ◌<◌, ◌≤◌, ◌+◌, ◌*◌, length};
ghost use Rattle.fv_plane.specs.declared.format.Shape.{Shape};
ghost use Rattle.fv_plane.specs.Format.{largest_sample, planes, plane_width, plane_height, sample_bytes};
ghost use Rattle.fv_plane.specs.Picture.{row_of};
ghost use Rattle.flt_rows.specs.Rows.{extended};
ghost use Rattle.flt_soft.specs.Pictures.{HaveShape, row_in, shape_of};

use flt_rows::kernels::pad_row;
use flt_rows::mean::Mean;
use fv_plane::Frame;

/// Samples of one size, as they stand in a frame.
pub trait Stored: Mean {
    // Whether the samples of a shape have this size.
    ghost fits: { Shape → Type 0 };

    /// The bytes of a row.
    fn row(input: &Frame, plane: u32, y: u32) -> &[u8]
        requires fits { fits input.now.shape }
        requires plane { plane < planes input.now.shape.kind }
        requires inside { y < plane_height input.now.shape plane }
        ensures row { Self.of_bytes result.now ≡ row_of input.now.planes plane y }
        ensures whole { length (Self.of_bytes result.now) ≡ plane_width input.now.shape plane };

    /// Reads a row, and repeats its first and last sample before and after it.
    fn read_padded(input: &Frame, plane: u32, y: u32, count: usize, padded: &mut [Self])
        requires fits { fits input.now.shape }
        requires plane { plane < planes input.now.shape.kind }
        requires inside { y < plane_height input.now.shape plane }
        requires few { count ≤ 2 }
        requires whole { length padded.old ≡ plane_width input.now.shape plane + 2 * count }
        ensures { Self.numbers padded.new ≡ extended count (row_of input.now.planes plane y) };

    /// The largest sample of a frame.
    fn largest(input: &Frame) -> u16
        requires { fits input.now.shape }
        ensures value { result ≡ largest_sample input.now.shape }
        ensures few { result ≤ Self.most };
}

impl Stored for u8 {
    ghost fits = { λ shape. shape.bits ≡ 8 };

    fn row(input: &Frame, plane: u32, y: u32) -> &[u8] {
        input.row(plane, y)
    }

    fn read_padded(input: &Frame, plane: u32, y: u32, count: usize, padded: &mut [u8]) {
        // The input is a picture, of whole rows.
        let _ = input.shape();
        pad_row(u8::row(input, plane, y), count, padded);
    }

    fn largest(input: &Frame) -> u16 {
        input.shape().largest_sample()
    }
}

impl Stored for u16 {
    ghost fits = { λ shape. sample_bytes shape ≡ 2 };

    fn row(input: &Frame, plane: u32, y: u32) -> &[u8] {
        input.row(plane, y)
    }

    fn read_padded(input: &Frame, plane: u32, y: u32, count: usize, padded: &mut [u16]) {
        let width = input.shape().plane_width(plane) as usize;
        let (start, rest) = padded.split_at_mut(count);
        let (middle, end) = rest.split_at_mut(width);
        input.read_row(plane, y, middle);
        start.fill(middle[0]);
        end.fill(middle[width - 1]);
    }

    fn largest(input: &Frame) -> u16 {
        input.shape().largest_sample()
    }
}

/// The bytes of a row of one of the inputs.
pub fn row_in<T: Stored>(inputs: &[Frame], i: usize, plane: u32, y: u32) -> &[u8]
    requires input { i < length inputs.now }
    requires alike { HaveShape (shape_of inputs.now) inputs.now }
    requires fits { T.fits (shape_of inputs.now) }
    requires plane { plane < planes (shape_of inputs.now).kind }
    requires inside { y < plane_height (shape_of inputs.now) plane }
    ensures row { T.of_bytes result.now ≡ row_in inputs.now i plane y }
    ensures whole { length (T.of_bytes result.now) ≡ plane_width (shape_of inputs.now) plane }
{
    T::row(&inputs[i], plane, y)
}
