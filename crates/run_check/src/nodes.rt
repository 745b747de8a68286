// What a graph says of the nodes that events name. An event of a text may name any node, one past the last too.
ghost use Rattle.std.specs.Prelude.{◌≡◌, ◌==◌, ◌<◌, ℕ, length, not};
ghost use Rattle.clip_graph.specs.Plan.{application_at, is_source};
ghost use Rattle.serve_machine.specs.Events.{mode_at, instance_of, names_source};
ghost use Rattle.serve_machine.specs.Machine.{is_key, place_named};
ghost use Rattle.run_text.specs.Journal.{is_window};

use clip_graph::Graph;
use fv_plane::Key;
use inst_table::Place;
use serve_machine::{WindowStop, instance_for};

/// Whether the graph has the frame.
pub(crate) fn is_key(graph: &Graph, key: Key) -> bool
    ensures { result ≡ is_key graph.now key }
{
    if key.node >= graph.len() {
        return false;
    }
    key.n < graph.node(key.node).info.frames
}

// The mode of a node. Past the last it is 1, which has no instance.
#[tactic(auto, using(crate::proofs::NodeLemmas::mode_past))]
fn mode_at(graph: &Graph, node: u32) -> u8
    ensures { result ≡ mode_at graph.now node }
{
    if node >= graph.len() {
        return 1;
    }
    graph.node(node).mode
}

/// The place that an event means.
pub(crate) fn place_named(graph: &Graph, node: u32, instance: u32) -> Place
    ensures { result ≡ place_named graph.now node instance }
{
    Place {
        node,
        instance,
        shared: mode_at(graph, node) == 3,
    }
}

/// Whether the node has instances.
pub(crate) fn has_instances(graph: &Graph, node: u32) -> bool
    ensures { result ≡ not (mode_at graph.now node == 1) }
{
    mode_at(graph, node) != 1
}

/// Whether it is the instance that the worker uses at the node.
pub(crate) fn is_own(graph: &Graph, worker: u32, node: u32, instance: u32) -> bool
    ensures { result ≡ (instance == instance_of graph.now worker node) }
{
    instance == instance_for(mode_at(graph, node), worker)
}

#[tactic(auto, using(crate::proofs::NodeLemmas::source_past))]
fn is_source(graph: &Graph, node: u32) -> bool
    ensures { result ≡ is_source (application_at graph.now node).act }
{
    if node >= graph.len() {
        return false;
    }
    graph.node(node).op.source_part().is_some()
}

/// Whether a stop at a node is one at a source.
pub(crate) fn names_source(graph: &Graph, stop: WindowStop) -> bool
    ensures { result ≡ names_source graph.now stop }
{
    match stop {
        WindowStop::Read { node } => is_source(graph, node),
        WindowStop::Changed { node, .. } => is_source(graph, node),
        WindowStop::Memory => true,
    }
}

/// Whether a window of the root may have these outputs.
pub(crate) fn is_window(graph: &Graph, root: u32, first: u32, count: u32) -> bool
    requires { root < length graph.now }
    ensures { (capacity : ℕ) → result ≡ is_window graph.now root capacity first count }
{
    let frames = graph.node(root).info.frames;
    (count > 0) & (count <= 32) & (first as u64 + count as u64 <= frames as u64)
}
