// A frame, made of its bytes.
ghost use Rattle.std.specs.Prelude.{◌≡◌, length, IfOk};
ghost use Rattle.fv_plane.specs.Format.{IsLegal, frame_bytes};
ghost use Rattle.fv_plane.specs.Picture.{bytes_of, in_range, picture_of};

use fv_plane::{Frame, Shape};
use std::alloc::{AllocError, Global};

/// The frame of its bytes in a stream: the planes in their order, each row by row from the top. A sample over the
/// largest one counts as the largest. An `Err` means out of memory.
pub fn read_frame(alloc: Global, shape: Shape, bytes: &[u8]) -> Result<Frame, AllocError>
    requires legal { IsLegal shape }
    requires whole { length bytes.now ≡ frame_bytes shape }
    ensures frame { IfOk result (λ frame. frame ≡ picture_of shape bytes.now) }
    ensures bytes { IfOk result (λ frame. bytes_of frame ≡ in_range shape bytes.now) }
{
    Frame::from_bytes(alloc, shape, bytes)
}
