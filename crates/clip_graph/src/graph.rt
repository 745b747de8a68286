// A list of nodes, each over earlier ones.
ghost use Rattle.std.specs.Prelude.{◌≡◌, ◌+◌, ◌<◌, if◌then◌else◌, length, [], Ok};
ghost use Rattle.std.specs.List.{All};
ghost use Rattle.clip_term.specs.Terms.{act_of, check, IsSound};
ghost use Rattle.clip_term.specs.Filters.{IsMode};
ghost use Rattle.clip_graph.specs.Plan.{IsPlan, IsCounted, application_at, deepest, infos_among, is_source, sources_in};
ghost use Rattle.clip_graph.specs.Added.{Added};
ghost use Rattle.clip_graph.specs.Nodes.{application_of, plan_of};

use crate::Node;
use clip_term::Op;
use fv_plane::Info;
use std::alloc::Global;
use std::marker::Model;

/// Why a node was not added.
#[derive(Clone, Copy, Debug, PartialEq, Eq)]
pub enum GraphFault {
    /// There are `Graph::MAX_NODES` nodes.
    NodeLimit,
    /// `Graph::MAX_DEPTH` nodes stand one on another.
    DepthLimit,
    /// Out of memory.
    Memory,
}

/// A list of filters, each over earlier ones.
#[derive(Drop)]
pub struct Graph {
    alloc: Global,
    nodes: Vec<Node>,
    sources: u32,
}

impl Model for Graph {
    ghost use Rattle.std.specs.Prelude.{◌≡◌, List};
    ghost use Rattle.clip_graph.specs.Plan.{Application, IsPlan, sources_in};
    ghost use Rattle.clip_graph.specs.Nodes.{plan_of};

    ghost Value = { List Application };

    ghost view = { λ g. plan_of g.nodes.items };

    ghost invariant = { λ g. IsPlan (plan_of g.nodes.items) × (g.sources ≡ sources_in (plan_of g.nodes.items)) };
}

// The greatest depth of the inputs.
fn deepest(nodes: &[Node], inputs: &[u32]) -> u32
    requires { All (λ i. i < length nodes.now) inputs.now }
    ensures { result ≡ deepest (plan_of nodes.now) inputs.now }
{
    let mut depth = 0;
    for i in inputs {
        let one = nodes[*i as usize].depth;
        if one > depth {
            depth = one;
        }
    }
    depth
}

// 1 for a source, and 0 for any other op.
fn one_if_source(op: &Op) -> u32
    ensures { result ≡ (if is_source (act_of op.now) then 1 else 0) }
{
    match op.source_part() {
        Some(_) => 1,
        None => 0,
    }
}

impl Graph {
    /// The greatest number of nodes.
    pub const MAX_NODES: usize = 4_096;
    /// The greatest depth of a node.
    pub const MAX_DEPTH: u32 = 512;

    /// A graph without nodes. It allocates nothing.
    pub fn new(alloc: Global) -> Graph
        ensures { result ≡ [] }
    {
        Graph {
            alloc,
            nodes: Vec::new(alloc),
            sources: 0,
        }
    }

    /// The number of nodes.
    pub fn len(&self) -> u32
        ensures len { result ≡ length self.now }
        ensures plan { IsPlan self.now }
    {
        self.nodes.len() as u32
    }

    /// The number of the nodes that are sources.
    pub fn sources(&self) -> u32
        ensures { result ≡ sources_in self.now }
    {
        self.sources
    }

    /// The node with this number.
    pub fn node(&self, i: u32) -> &Node
        requires { i < length self.now }
        ensures { application_of result.now ≡ application_at self.now i }
    {
        &self.nodes[i as usize]
    }

    /// Adds a filter over nodes that are there, with the info that it has, and answers its number. A source has mode 3
    /// and the number of the sources before it. Its time doesn't depend on the size of the graph. After an `Err` the
    /// graph is as it was.
    pub fn add(&mut self, op: Op, inputs: &[u32], info: Info, mode: u8) -> Result<u32, GraphFault>
        requires places { All (λ i. i < length self.old) inputs.now }
        requires sound { IsSound (act_of op) (length inputs.now) }
        requires told { check (act_of op) (infos_among self.old inputs.now) ≡ Ok info }
        requires mode { IsMode mode }
        requires counted { IsCounted (act_of op) (sources_in self.old) mode }
        ensures { Added self.old (record {
          act = act_of op;
          inputs = inputs.now;
          info = info;
          mode = mode;
          depth = deepest self.old inputs.now + 1;
        }) result self.new }
    {
        if self.nodes.len() == Graph::MAX_NODES {
            return Err(GraphFault::NodeLimit);
        }
        let depth = deepest(&self.nodes, inputs);
        if depth >= Graph::MAX_DEPTH {
            return Err(GraphFault::DepthLimit);
        }
        let Ok(inputs) = inputs.to_vec(self.alloc) else {
            return Err(GraphFault::Memory);
        };
        let Ok(_) = self.nodes.reserve(1) else {
            return Err(GraphFault::Memory);
        };
        let number = self.nodes.len() as u32;
        self.sources += one_if_source(&op);
        self.nodes.push_reserved(Node {
            op,
            inputs,
            info,
            mode,
            depth: depth + 1,
        });
        Ok(number)
    }
}
