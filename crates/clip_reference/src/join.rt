// The samples of what becomes of the frames of one number.
ghost use Rattle.std.specs.Prelude.{◌≡◌, ◌+◌, ◌/◌, length, map, if◌then◌else◌, ◌==◌};
ghost use Rattle.fv_plane.specs.Picture.{look_in, look_at};
ghost use Rattle.clip_term.specs.Join.{join_at, beside, beneath};

use crate::place::{height, look, look_at, width};
use clip_term::JoinOp;
use fv_plane::{Frame, Info};

/// A sample of what the op makes of a frame of each clip.
pub fn join_sample(op: &JoinOp, infos: &[Info], frames: &[Frame], plane: u32, x: u32, y: u32) -> u16
    requires each { length frames.now ≡ length infos.now }
    ensures { result ≡ join_at op.now infos.now (map look_in frames.now) plane x y }
{
    let x = x as u64;
    let y = y as u64;
    match op {
        JoinOp::StackHorizontal => beside(infos, frames, plane, x, y),
        JoinOp::StackVertical => beneath(infos, frames, plane, x, y),
        JoinOp::Merge => {
            let a = look_at(frames, 0, plane, x, y);
            let b = look_at(frames, 1, plane, x, y);
            average(a, b)
        }
        JoinOp::MergeLuma => look_at(frames, if plane == 0 { 1 } else { 0 }, plane, x, y),
        JoinOp::MergeChroma => look_at(frames, if plane == 0 { 0 } else { 1 }, plane, x, y),
        JoinOp::YToUV => look_at(frames, source_of(plane), 0, x, y),
    }
}

// Rounded up.
fn average(a: u16, b: u16) -> u16
    ensures { result ≡ (a + b + 1) / 2 }
{
    ((a as u32 + b as u32 + 1) / 2) as u16
}

// The clip whose luma becomes a plane: the clips are those of U, V and Y.
fn source_of(plane: u32) -> usize
    ensures { result ≡ (if plane == 0 then 2 else if plane == 1 then 0 else 1) }
{
    match plane {
        0 => 2,
        1 => 0,
        _ => 1,
    }
}

// Pictures one after the other, from the left.
fn beside(infos: &[Info], frames: &[Frame], plane: u32, x: u64, y: u64) -> u16
    requires { length frames.now ≡ length infos.now }
    ensures { result ≡ beside infos.now (map look_in frames.now) plane x y }
{
    let mut left = x;
    for i in 0..infos.len() {
        let wide = width(infos[i].shape, plane);
        if left < wide {
            return look(&frames[i], plane, left, y);
        }
        left -= wide;
    }
    0
}

// Pictures one after the other, from the top.
fn beneath(infos: &[Info], frames: &[Frame], plane: u32, x: u64, y: u64) -> u16
    requires { length frames.now ≡ length infos.now }
    ensures { result ≡ beneath infos.now (map look_in frames.now) plane x y }
{
    let mut left = y;
    for i in 0..infos.len() {
        let high = height(infos[i].shape, plane);
        if left < high {
            return look(&frames[i], plane, x, left);
        }
        left -= high;
    }
    0
}
