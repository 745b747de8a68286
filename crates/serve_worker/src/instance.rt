// The instances of the nodes of a graph.
ghost use Rattle.std.specs.Prelude.{◌≡◌, ◌<◌, slice_get, Some, IfOk, IfErr, IsErrOf};
ghost use Rattle.std.specs.Option.{ForSome};
ghost use Rattle.fv_io.specs.Source.{IsSteady};
ghost use Rattle.fv_plane.specs.Picture.{IsPicture};
ghost use Rattle.seq_source.specs.FrameSource.{frames_of, KeepsFrames};
ghost use Rattle.serve_worker.specs.Instances.{feed_of, faults_of, holds_of, Ends, ReadStops};

use crate::filtering::filtered;
use crate::memory::{memory_for, takes_memory};
use clip_graph::Graph;
use flt_soft::Scratch;
use fv_io::Source;
use fv_plane::{Frame, FrameMemory, Key};
use fv_spares::Spares;
use inst_table::Held;
use seq_source::{SeqFault, SeqSource};
use serve_core::Works;
use serve_machine::WindowStop;
use std::alloc::Global;

/// What a node keeps from frame to frame.
#[derive(Drop)]
pub enum Instance<S: Source> {
    /// Nothing.
    Plain,
    /// The rows of a filter of the group Soft. What they hold matters to no frame.
    Scratch(Scratch),
    /// The frames of a source.
    Source(SeqSource<S>),
}

impl<S: Source> Held for Instance<S> {
    ghost feed = { λ it. feed_of S.Source it };

    ghost faults = { λ it. faults_of S.Source it };

    ghost holds = { λ it. holds_of it };

    ghost ends = { λ it. Ends S.Source it };
}

impl<S: Source> Works for Instance<S> {
    fn takes_memory(graph: &Graph, key: Key) -> bool {
        takes_memory(graph, key)
    }

    fn memory_for(graph: &Graph, key: Key, spares: &mut Spares) -> FrameMemory {
        memory_for(graph, key, spares)
    }

    fn make_plain(
        alloc: Global,
        memory: FrameMemory,
        graph: &Graph,
        key: Key,
        inputs: &[Frame],
    ) -> Result<Frame, WindowStop> {
        filtered(alloc, memory, graph, key, inputs, None)
    }

    fn make(
        &mut self,
        alloc: Global,
        memory: FrameMemory,
        graph: &Graph,
        key: Key,
        inputs: &[Frame],
    ) -> Result<Frame, WindowStop> {
        prove!(key.node < graph.len());
        match self {
            Instance::Plain => filtered(alloc, memory, graph, key, inputs, None),
            Instance::Scratch(scratch) => filtered(
                alloc,
                memory,
                graph,
                key,
                inputs,
                Some(scratch),
            ),
            Instance::Source(source) => read(source, memory, key),
        }
    }
}

// Gives a source memory for its next frame, where there is some.
fn lend_memory<S: Source>(source: &mut SeqSource<S>, memory: Option<Vec<u8>>)
    ensures { source.new ≡ source.old }
{
    match memory {
        Some(piece) => source.use_memory(piece),
        None => {}
    }
}

// The frame that a source reads, in `memory` where that is one piece with room for it.
fn read<S: Source>(
    source: &mut SeqSource<S>,
    memory: FrameMemory,
    key: Key,
) -> Result<Frame, WindowStop>
    requires { key.n < source.old.index.info.frames }
    ensures frame { IfOk result (λ frame. ForSome (frames_of S.Source source.old) (λ frames.
        slice_get frames key.n ≡ Some frame)) }
    ensures shape { IfOk result (λ frame. frame.shape ≡ source.old.index.info.shape) }
    ensures whole { IfOk result IsPicture }
    ensures stop { IfErr result (ReadStops S.Source key source.old source.new) }
    ensures keeps { KeepsFrames S.Source source.old source.new }
    ensures steady { (IsErrOf result (WindowStop.Read key.node) → ⊥) →
        IsSteady S.Source source.old.source source.new.source }
{
    let FrameMemory { luma, u: _, v: _ } = memory;
    lend_memory(source, luma);
    // The index of a source is one of its bytes.
    source.info();
    match source.frame(key.n) {
        Ok(frame) => {
            // A frame is a whole picture.
            frame.shape();
            Ok(frame)
        }
        Err(SeqFault::Read) => Err(WindowStop::Read { node: key.node }),
        Err(SeqFault::Changed { frame, want, got }) => Err(WindowStop::Changed {
            node: key.node,
            frame,
            want,
            got,
        }),
        Err(SeqFault::Memory) => Err(WindowStop::Memory),
    }
}
