// The frame of a term by its definition, sample by sample.
ghost use Rattle.std.specs.Prelude.{◌≡◌, ℕ, ◌*◌, ◌<◌, ◌≤◌, ◌^◌, List, [], length, map, IfOk};
ghost use Rattle.fv_plane.specs.Format.{IsLegal, sample_bytes};
ghost use Rattle.fv_plane.specs.Picture.{bytes_of_row, AreBytes, FitsRow, Picture, look_in, row_from};
ghost use Rattle.clip_term.specs.Terms.{act_of, sample, make};
ghost use Rattle.clip_reference.specs.Ready.{IsReady, IsInRange};

use crate::field::field_sample;
use crate::join::join_sample;
use crate::place::look;
use crate::soft::soft_sample;
use crate::space::space_sample;
use clip_term::Op;
use fv_plane::{Frame, FrameBuilder, Info, Shape, write_samples};
use std::alloc::{AllocError, Global};

/// The frame `n` that a filter makes of the frames that it asks, sample by sample. An `Err` is out of memory.
pub fn made(
    alloc: Global,
    op: &Op,
    infos: &[Info],
    info: Info,
    n: u32,
    frames: &[Frame],
) -> Result<Frame, AllocError>
    requires legal { IsLegal info.shape }
    requires ready { IsReady (act_of op.now) infos.now (length frames.now) }
    requires fits { IsInRange (act_of op.now) infos.now n frames.now info.shape }
    ensures { IfOk result (λ frame. (book : List (List Picture))
        → frame ≡ make book (act_of op.now) infos.now info n frames.now) }
{
    let shape = info.shape;
    let mut made = FrameBuilder::new(alloc, shape)?;
    for plane in 0..shape.kind.planes() {
        let mut samples = vec![in alloc; 0u16; shape.plane_width(plane) as usize]?;
        let mut bytes = vec![in alloc; 0u8; shape.row_bytes(plane) as usize]?;
        let samples = samples.as_mut_slice();
        let row = bytes.as_mut_slice();
        for y in 0..shape.plane_height(plane) {
            fill_row(op, infos, n, frames, plane, y, samples);
            write_row(shape, samples, row);
            made.put_row(plane, y, row);
        }
    }
    made.finish()
}

// Writes the bytes of a row's samples.
fn write_row(shape: Shape, samples: &[u16], bytes: &mut [u8])
    requires whole { length bytes.old ≡ length samples.now * sample_bytes shape }
    requires fits { FitsRow shape samples.now }
    ensures { bytes.new ≡ bytes_of_row shape samples.now }
{
    if shape.bits == 8 {
        narrow_samples(samples, bytes);
    } else {
        write_samples(samples, bytes);
    }
}

// Writes the bytes of a row's samples, where a sample is a byte.
fn narrow_samples(samples: &[u16], bytes: &mut [u8])
    requires whole { length bytes.old ≡ length samples.now }
    requires fits { AreBytes samples.now }
    ensures { bytes.new ≡ samples.now }
{
    for x in 0..samples.len() {
        bytes[x] = samples[x] as u8;
    }
}

fn fill_row(op: &Op, infos: &[Info], n: u32, frames: &[Frame], plane: u32, y: u32, row: &mut [u16])
    requires ready { IsReady (act_of op.now) infos.now (length frames.now) }
    requires narrow { length row.old < 2 ^ 32 }
    requires fits { (x : ℕ)
        → sample [] (act_of op.now) infos.now n (map look_in frames.now) plane x y ≤ 65535 }
    ensures { row.new
        ≡ row_from (sample [] (act_of op.now) infos.now n (map look_in frames.now)) plane (length row.old) y }
{
    for x in 0..row.len() {
        row[x] = sample(op, infos, n, frames, plane, x as u32, y);
    }
}

fn sample(op: &Op, infos: &[Info], n: u32, frames: &[Frame], plane: u32, x: u32, y: u32) -> u16
    requires ready { IsReady (act_of op.now) infos.now (length frames.now) }
    requires fits { sample [] (act_of op.now) infos.now n (map look_in frames.now) plane x y ≤ 65535 }
    ensures { result ≡ sample [] (act_of op.now) infos.now n (map look_in frames.now) plane x y }
{
    match op {
        Op::Source { .. } | Op::Blank { .. } | Op::Run(_) => unreachable!(),
        Op::Time(_) => look(&frames[0], plane, x as u64, y as u64),
        Op::Space(op) => space_sample(op, infos[0].shape, &frames[0], plane, x, y),
        Op::Join(op) => join_sample(op, infos, frames, plane, x, y),
        Op::Soft(op) => soft_sample(op, infos[0].shape, frames, plane, x, y),
        Op::Field(op) => field_sample(op, infos[0].field, n, frames, plane, x, y),
    }
}
