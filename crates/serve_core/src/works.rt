// What a worker asks of the instances of a graph's nodes.
ghost use Rattle.std.specs.Prelude.{◌≡◌, ◌≤◌, false, List, Option, IfOk, IfErr, IsErrOf};
ghost use Rattle.fv_plane.specs.Picture.{Picture};
ghost use Rattle.clip_graph.specs.Plan.{application_at, is_source, AreOfKeys, input_keys};
ghost use Rattle.serve_machine.specs.Events.{IsKey};
ghost use Rattle.serve_core.specs.Sources.{opened_at};
ghost use Rattle.serve_core.specs.Works.{IsMade, MakeStops};

use clip_graph::Graph;
use fv_plane::{Frame, FrameMemory, Key};
use fv_spares::Spares;
use inst_table::Held;
use serve_machine::WindowStop;
use std::alloc::Global;

/// An instance of a node at work. Which filters there are, and how each makes its frame, only its implementation knows.
pub trait Works: Held {
    /// Whether the frame of a key is written into memory that can be spare memory.
    fn takes_memory(graph: &Graph, key: Key) -> bool
        requires { IsKey graph.now key };

    /// Memory for the frame of a key, as far as there is some. No contract sees that memory.
    fn memory_for(graph: &Graph, key: Key, spares: &mut Spares) -> FrameMemory
        requires { IsKey graph.now key };

    /// The frame of a key of a filter without instances, from the frames that it is made of, in `memory` as far as that has
    /// room. The one error is out of memory.
    fn make_plain(
        alloc: Global,
        memory: FrameMemory,
        graph: &Graph,
        key: Key,
        inputs: &[Frame],
    ) -> Result<Frame, WindowStop>
        requires key { IsKey graph.now key }
        requires filter { is_source (application_at graph.now key.node).act ≡ false }
        requires shapes { AreOfKeys graph.now (input_keys graph.now key) inputs.now }
        ensures made { IfOk result (λ frame. (own : Option (List Picture)) → IsMade graph.now key own inputs.now frame) }
        ensures stop { IfErr result (λ stop. stop ≡ WindowStop.Memory) };

    /// The frame of a key, from the frames that it is made of, in `memory` as far as that has room. An `Err` says why there
    /// is none; the instance can be asked again. No fault is counted but with `Read`.
    fn make(
        &mut self,
        alloc: Global,
        memory: FrameMemory,
        graph: &Graph,
        key: Key,
        inputs: &[Frame],
    ) -> Result<Frame, WindowStop>
        requires key { IsKey graph.now key }
        requires source { Self.holds self.old ≡ opened_at graph.now key.node }
        requires shapes { AreOfKeys graph.now (input_keys graph.now key) inputs.now }
        ensures made { IfOk result (IsMade graph.now key (Self.feed self.old) inputs.now) }
        ensures stop { IfErr result (MakeStops Self.feed Self.faults Self.ends graph.now key.node self.old self.new) }
        ensures feed { Self.feed self.new ≡ Self.feed self.old }
        ensures faults { Self.faults self.old ≤ Self.faults self.new }
        ensures steady { (IsErrOf result (WindowStop.Read key.node) → ⊥) →
            Self.faults self.new ≡ Self.faults self.old }
        ensures source { Self.holds self.new ≡ Self.holds self.old };
}
