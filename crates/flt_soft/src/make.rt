// The picture that any filter of the group Soft makes.
ghost use Rattle.std.specs.Prelude.{◌≡◌, ◌<◌, ◌≤◌, max, not, false, IfOk, OnErr, length, map};
ghost use Rattle.std.specs.List.{All};
ghost use Rattle.fv_plane.specs.Format.{planes, plane_height, plane_width, row_bytes};
ghost use Rattle.fv_plane.specs.Picture.{look_in, IsPicture};
ghost use Rattle.clip_term.specs.Soft.{soft_at};
ghost use Rattle.flt_soft.specs.Pictures.{CanSoften, CanFill, bytes_made, keeps_plane, shape_of, soft_picture};

use crate::convolve::convolved_row;
use crate::scratch::Scratch;
use crate::soften::soften_row;
use clip_term::SoftOp;
use fv_plane::{Frame, FrameMemory, RowMaker, Shape, make_by_rows};
use std::alloc::{AllocError, Global};
use std::mem;

// Whether a plane of the result is that plane of the middle input.
fn keeps_plane(op: &SoftOp, plane: u32) -> bool
    ensures { result ≡ keeps_plane op.now plane }
{
    match op {
        SoftOp::TemporalSoften {
            radius,
            luma,
            chroma,
        } => {
            let threshold = if plane == 0 { *luma } else { *chroma };
            radius.unsigned_abs() == 0 || threshold.unsigned_abs() == 0
        }
        SoftOp::GeneralConvolution { .. } => false,
    }
}

/// Whether a filter writes the rows of a plane, and so takes memory for it. Other planes share the bytes of an input.
pub fn takes_memory(op: &SoftOp, plane: u32) -> bool
    ensures { result ≡ not (keeps_plane op.now plane) }
{
    !keeps_plane(op, plane)
}

// Writes the bytes of a row of a plane that isn't kept.
fn write_row(
    op: &SoftOp,
    inputs: &[Frame],
    plane: u32,
    y: u32,
    scratch: &mut Scratch,
    samples: &mut [u16],
    out: &mut [u8],
)
    requires able { CanSoften op.now inputs.now }
    requires changed { keeps_plane op.now plane ≡ false }
    requires plane { plane < planes (shape_of inputs.now).kind }
    requires inside { y < plane_height (shape_of inputs.now) plane }
    requires whole { length out.old ≡ row_bytes (shape_of inputs.now) plane }
    requires samples { length samples.old ≡ plane_width (shape_of inputs.now) plane }
    requires room { plane_width (shape_of inputs.now) plane ≤ scratch.old }
    ensures row { out.new ≡ bytes_made op.now inputs.now plane y }
    ensures room { scratch.new ≡ scratch.old }
{
    match op {
        SoftOp::TemporalSoften {
            radius,
            luma,
            chroma,
        } => soften_row(
            inputs,
            radius.unsigned_abs(),
            luma.unsigned_abs() as u8,
            chroma.unsigned_abs() as u8,
            plane,
            y,
            scratch,
            samples,
            out,
        ),
        SoftOp::GeneralConvolution { bias, matrix } => {
            convolved_row(inputs, *bias, matrix, plane, y, scratch, samples, out)
        }
    }
}

// Tells that each frame is a picture, as the contract of its shape does.
fn see_pictures(inputs: &[Frame])
    ensures { All IsPicture inputs.now }
{
    for input in inputs {
        let _ = input.shape();
    }
}

// The rows of the picture that a filter makes, with a scratch that has room for them.
#[derive(Drop)]
struct SoftRows<'a> {
    op: &'a SoftOp,
    inputs: &'a [Frame],
    scratch: Scratch,
}

impl RowMaker for SoftRows<'_> {
    ghost shape_made = { λ rows. shape_of rows.inputs.now };

    ghost look_made = { λ rows. soft_at rows.op.now (shape_of rows.inputs.now) (map look_in rows.inputs.now) };

    ghost keeps = { λ rows p. keeps_plane rows.op.now p };

    ghost can_make = { λ rows. CanFill rows.op.now rows.inputs.now rows.scratch };

    fn shape(&self) -> Shape {
        see_pictures(self.inputs);
        self.inputs[0].shape()
    }

    fn kept(&self, plane: u32) -> Option<(&Frame, u32)> {
        if keeps_plane(self.op, plane) {
            Some((&self.inputs[self.inputs.len() / 2], plane))
        } else {
            None
        }
    }

    fn fill_row(&mut self, plane: u32, y: u32, samples: &mut [u16], out: &mut [u8]) {
        let scratch = &mut self.scratch;
        write_row(self.op, self.inputs, plane, y, scratch, samples, out);
    }
}

/// The frame that a filter makes of the frames that it asks, in their order. It is the same whatever the scratch holds.
/// It is made in `memory` as far as that has room. A plane of `TemporalSoften` whose threshold is 0 is shared. An `Err`
/// is out of memory, or more shares than can be counted; the scratch is then as it was.
pub fn make_soft_in(
    alloc: Global,
    memory: FrameMemory,
    op: &SoftOp,
    inputs: &[Frame],
    scratch: &mut Scratch,
) -> Result<Frame, AllocError>
    requires { CanSoften op.now inputs.now }
    ensures made { IfOk result (λ made. made ≡ soft_picture op.now inputs.now) }
    ensures room { scratch.new ≤ max scratch.old (shape_of inputs.now).width }
    ensures err { OnErr result (scratch.new ≡ scratch.old) }
{
    let shape = inputs[0].shape();
    match scratch.wider(shape.width as usize)? {
        None => {
            let own = mem::replace(scratch, Scratch::new(alloc));
            let mut rows = SoftRows {
                op,
                inputs,
                scratch: own,
            };
            let made = make_by_rows(alloc, memory, &mut rows);
            *scratch = rows.scratch;
            made
        }
        Some(wider) => {
            let mut rows = SoftRows {
                op,
                inputs,
                scratch: wider,
            };
            let made = make_by_rows(alloc, memory, &mut rows)?;
            *scratch = rows.scratch;
            Ok(made)
        }
    }
}

/// The same, in new memory.
pub fn make_soft(op: &SoftOp, inputs: &[Frame], scratch: &mut Scratch) -> Result<Frame, AllocError>
    requires { CanSoften op.now inputs.now }
    ensures made { IfOk result (λ made. made ≡ soft_picture op.now inputs.now) }
    ensures room { scratch.new ≤ max scratch.old (shape_of inputs.now).width }
    ensures err { OnErr result (scratch.new ≡ scratch.old) }
{
    make_soft_in(
        scratch.allocator(),
        FrameMemory::none(),
        op,
        inputs,
        scratch,
    )
}
