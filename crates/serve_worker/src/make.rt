// What a node makes of the frames that a frame of it is made of.
ghost use Rattle.std.specs.Prelude.{◌≡◌, false, List, length, IfOk};
ghost use Rattle.fv_plane.specs.Picture.{Picture, IsPicture};
ghost use Rattle.clip_graph.specs.Plan.{application_at, is_source, IsKeyBelow, input_keys, key_made, AreOfKeys};
ghost use Rattle.flt_soft.specs.Pictures.{CanSoften, soft_picture};

use clip_graph::Graph;
use clip_term::{Op, SoftOp};
use flt_choice::make_run;
use flt_field::make_field;
use flt_merge::make_join_in;
use flt_soft::{Scratch, make_soft_in};
use flt_space::make_space_in;
use fv_plane::{Frame, FrameMemory, Key};
use std::alloc::{AllocError, Global};

// The frame that a filter of the group Time shows.
fn shown(frame: &Frame) -> Result<Frame, AllocError>
    ensures frame { IfOk result (λ shown. shown ≡ frame.now) }
    ensures whole { IsPicture frame.now }
{
    // A frame is a whole picture.
    let _ = frame.shape();
    frame.share()
}

// The frame that a filter of the group Soft makes, with a scratch of its own where it is given none.
fn mixed(
    alloc: Global,
    memory: FrameMemory,
    op: &SoftOp,
    frames: &[Frame],
    scratch: Option<&mut Scratch>,
) -> Result<Frame, AllocError>
    requires { CanSoften op.now frames.now }
    ensures { IfOk result (λ made. made ≡ soft_picture op.now frames.now) }
{
    match scratch {
        Some(scratch) => make_soft_in(alloc, memory, op, frames, scratch),
        None => {
            let mut scratch = Scratch::new(alloc);
            make_soft_in(alloc, memory, op, frames, &mut scratch)
        }
    }
}

/// Whether a filter writes the rows of a plane, and so takes memory for it. Other planes share the bytes of its inputs, or a
/// source reads them.
pub(crate) fn writes(op: &Op, plane: u32) -> bool {
    match op {
        Op::Source { .. } | Op::Blank { .. } | Op::Time(_) | Op::Run(_) => false,
        Op::Space(op) => flt_space::takes_memory(op, plane),
        Op::Join(op) => flt_merge::takes_memory(op),
        Op::Soft(op) => flt_soft::takes_memory(op, plane),
        Op::Field(op) => flt_field::takes_memory(op),
    }
}

/// The frame that a node makes of the frames of `input_at`, in their order. It is made in `memory` as far as that has
/// room. A scratch serves filters of the group Soft; what it holds matters to no frame. An `Err` is out of memory.
pub fn make_frame(
    alloc: Global,
    memory: FrameMemory,
    graph: &Graph,
    key: Key,
    frames: &[Frame],
    scratch: Option<&mut Scratch>,
) -> Result<Frame, AllocError>
    requires key { IsKeyBelow graph.now (length graph.now) key }
    requires filter { is_source (application_at graph.now key.node).act ≡ false }
    requires shapes { AreOfKeys graph.now (input_keys graph.now key) frames.now }
    ensures made { IfOk result (λ frame. (book : List (List Picture))
        → frame ≡ key_made book graph.now key frames.now) }
    ensures shape { IfOk result (λ frame. frame.shape ≡ (application_at graph.now key.node).info.shape) }
{
    prove!(key.node < graph.len());
    let node = graph.node(key.node);
    match &node.op {
        Op::Source { .. } => unreachable!(),
        Op::Blank { info, colour } => Frame::blank(alloc, info.shape, *colour),
        Op::Time(_) => shown(&frames[0]),
        Op::Space(op) => make_space_in(alloc, memory, op, &frames[0]),
        Op::Join(op) => make_join_in(alloc, memory, op, frames),
        Op::Soft(op) => mixed(alloc, memory, op, frames, scratch),
        Op::Field(op) => {
            let clip = &graph.node(node.inputs[0]).info;
            make_field(alloc, memory, op, clip, key.n, frames)
        }
        Op::Run(op) => make_run(alloc, op, key.n, frames),
    }
}
