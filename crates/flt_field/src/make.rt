// The maker of the filters on fields.
ghost use Rattle.std.specs.Prelude.{◌≡◌, IfOk};
ghost use Rattle.fv_plane.specs.Picture.{look_in, picture_from};
ghost use Rattle.flt_field.specs.Made.{CanMake, field_picture, takes_memory};

use crate::rows::{by_rows, which_field};
use clip_term::FieldOp;
use fv_plane::{Frame, FrameMemory, Info};
use std::alloc::{AllocError, Global};

// The same picture. An `Err` is more shares than can be counted.
fn shared(frame: &Frame) -> Result<Frame, AllocError>
    ensures { IfOk result (λ made. made ≡ picture_from frame.now.shape (look_in frame.now)) }
{
    // Called for what its contract says.
    let _ = frame.shape();
    frame.share()
}

/// Whether a filter writes the rows of its planes, and so takes memory for them. Else they share the bytes of its
/// input.
pub fn takes_memory(op: &FieldOp) -> bool
    ensures { result ≡ takes_memory op.now }
{
    match op {
        FieldOp::Weave | FieldOp::SwapFields => true,
        FieldOp::SeparateFields
        | FieldOp::AssumeTFF
        | FieldOp::AssumeBFF
        | FieldOp::ComplementParity => false,
    }
}

/// The frame that a filter makes of the frames of `field_input`, in their order. They have the shape of the clip, which
/// the check of the filter accepts, and `info` is that of the clip. The frame is made in `memory` as far as that has
/// room, or shares the bytes of its input. An `Err` is out of memory.
pub fn make_field(
    alloc: Global,
    memory: FrameMemory,
    op: &FieldOp,
    info: &Info,
    n: u32,
    inputs: &[Frame],
) -> Result<Frame, AllocError>
    requires { CanMake op.now inputs.now }
    ensures { IfOk result (λ made. made ≡ field_picture op.now info.now.field n inputs.now) }
{
    match op {
        FieldOp::SeparateFields => inputs[0].field(which_field(info.field, n)),
        FieldOp::Weave | FieldOp::SwapFields => by_rows(alloc, memory, *op, info.field, inputs),
        FieldOp::AssumeTFF | FieldOp::AssumeBFF | FieldOp::ComplementParity => shared(&inputs[0]),
    }
}
