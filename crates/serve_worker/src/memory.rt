// Spare memory for the frames of nodes.
ghost use Rattle.std.specs.Prelude.{◌<◌};
ghost use Rattle.serve_machine.specs.Events.{IsKey};

use crate::make::writes;
use clip_graph::{Graph, Node};
use clip_term::Op;
use fv_plane::{FrameMemory, Key};
use fv_spares::Spares;

// Memory for a plane of a node's frames, if its filter writes that plane and there is some.
fn plane_memory(node: &Node, plane: u32, spares: &mut Spares) -> Option<Vec<u8>> {
    if writes(&node.op, plane) {
        spares.take_plane(node.info.shape, plane)
    } else {
        None
    }
}

/// Whether the frame of a key is written into memory: a source reads it into one piece, and a filter writes planes of it.
pub(crate) fn takes_memory(graph: &Graph, key: Key) -> bool
    requires { IsKey graph.now key }
{
    prove!(key.node < graph.len());
    let op = &graph.node(key.node).op;
    matches!(op, Op::Source { .. }) || writes(op, 0) || writes(op, 1) || writes(op, 2)
}

/// Memory for the frame of a key, as far as there is some: one piece for a frame that a source reads, and else one for each
/// plane that the filter writes.
pub(crate) fn memory_for(graph: &Graph, key: Key, spares: &mut Spares) -> FrameMemory
    requires { IsKey graph.now key }
{
    prove!(key.node < graph.len());
    let node = graph.node(key.node);
    if let Op::Source { info, .. } = &node.op {
        return FrameMemory {
            luma: spares.take(info.shape.bytes() as usize),
            u: None,
            v: None,
        };
    }
    FrameMemory {
        luma: plane_memory(node, 0, spares),
        u: plane_memory(node, 1, spares),
        v: plane_memory(node, 2, spares),
    }
}
