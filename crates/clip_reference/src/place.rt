// Samples by their places, and offsets on a plane.
ghost use Rattle.std.specs.Prelude.{◌≡◌, map};
ghost use Rattle.fv_plane.specs.Format.{plane_width, plane_height};
ghost use Rattle.fv_plane.specs.Picture.{look_in, look_at, across, down};

use fv_plane::{Frame, Shape};

/// The sample at a place of a frame, and 0 outside.
pub fn look(frame: &Frame, plane: u32, x: u64, y: u64) -> u16
    ensures { result ≡ look_in frame.now plane x y }
{
    let shape = frame.shape();
    if plane >= shape.kind.planes() || x >= width(shape, plane) || y >= height(shape, plane) {
        return 0;
    }
    frame.sample(plane, x as u32, y as u32)
}

/// The sample at a place of frame `i`, and 0 where there is no such frame.
pub fn look_at(frames: &[Frame], i: usize, plane: u32, x: u64, y: u64) -> u16
    ensures { result ≡ look_at (map look_in frames.now) i plane x y }
{
    if i >= frames.len() {
        return 0;
    }
    look(&frames[i], plane, x, y)
}

/// The width of a plane.
pub fn width(shape: Shape, plane: u32) -> u64
    ensures { result ≡ plane_width shape plane }
{
    shape.plane_width(plane) as u64
}

/// The height of a plane.
pub fn height(shape: Shape, plane: u32) -> u64
    ensures { result ≡ plane_height shape plane }
{
    shape.plane_height(plane) as u64
}

/// Columns of luma, on a plane.
pub fn across(shape: Shape, plane: u32, n: u32) -> u64
    ensures { result ≡ across shape plane n }
{
    if plane == 0 {
        n as u64
    } else {
        (n / shape.kind.sub_w()) as u64
    }
}

/// Rows of luma, on a plane.
pub fn down(shape: Shape, plane: u32, n: u32) -> u64
    ensures { result ≡ down shape plane n }
{
    if plane == 0 {
        n as u64
    } else {
        (n / shape.kind.sub_h()) as u64
    }
}
