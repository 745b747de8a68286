// The frame that a filter makes, for an instance without a source.
ghost use Rattle.std.specs.Prelude.{◌≡◌, false, List, Option, IfOk, IfErr};
ghost use Rattle.fv_plane.specs.Picture.{Picture};
ghost use Rattle.clip_graph.specs.Plan.{application_at, is_source, input_keys, AreOfKeys};
ghost use Rattle.serve_machine.specs.Events.{IsKey};
ghost use Rattle.serve_core.specs.Works.{IsMade};

use crate::make::make_frame;
use clip_graph::Graph;
use flt_soft::Scratch;
use fv_plane::{Frame, FrameMemory, Key};
use serve_machine::WindowStop;
use std::alloc::{AllocError, Global};

/// The frame that a filter makes of the frames of its inputs, in `memory` as far as that has room.
pub(crate) fn filtered(
    alloc: Global,
    memory: FrameMemory,
    graph: &Graph,
    key: Key,
    inputs: &[Frame],
    scratch: Option<&mut Scratch>,
) -> Result<Frame, WindowStop>
    requires key { IsKey graph.now key }
    requires filter { is_source (application_at graph.now key.node).act ≡ false }
    requires shapes { AreOfKeys graph.now (input_keys graph.now key) inputs.now }
    ensures made { IfOk result (λ frame. (own : Option (List Picture)) → IsMade graph.now key own inputs.now frame) }
    ensures stop { IfErr result (λ stop. stop ≡ WindowStop.Memory) }
{
    match make_frame(alloc, memory, graph, key, inputs, scratch) {
        Ok(frame) => {
            // What is made is a picture.
            frame.shape();
            Ok(frame)
        }
        Err(AllocError) => Err(WindowStop::Memory),
    }
}
