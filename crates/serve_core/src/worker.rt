// `Worker`: a number and a graph.
ghost use Rattle.std.specs.Prelude.{◌≡◌};
ghost use Rattle.std.specs.Arc.{arc_value};

use clip_graph::Graph;
use std::marker::Model;
use std::sync::Arc;

/// A worker of a render, which makes frames of its graph.
#[derive(Drop)]
pub struct Worker {
    number: u32,
    graph: Arc<Graph>,
}

impl Model for Worker {
    ghost use Rattle.std.specs.Arc.{arc_value};
    ghost use Rattle.serve_core.specs.WorkerValue.{WorkerValue};

    ghost Value = { WorkerValue };

    ghost view = { λ w. record { number = w.number; plan = arc_value w.graph } };
}

impl Worker {
    /// The worker of this number. It takes no memory.
    pub fn new(number: u32, graph: Arc<Graph>) -> Worker
        ensures number { result.number ≡ number }
        ensures plan { result.plan ≡ arc_value graph }
    {
        Worker { number, graph }
    }

    /// Its number.
    pub fn number(&self) -> u32
        ensures { result ≡ self.now.number }
    {
        self.number
    }

    /// The graph that it renders.
    pub fn graph(&self) -> &Graph
        ensures { result.now ≡ self.now.plan }
    {
        &self.graph
    }
}
