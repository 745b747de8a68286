// The graph of a render, which its core shares.
ghost use Rattle.std.specs.Prelude.{◌≡◌};

use clip_graph::Graph;
use std::marker::Model;
use std::sync::Arc;

/// The graph of a render. Contracts see it as its plan.
#[derive(Drop)]
pub struct SharedGraph {
    graph: Arc<Graph>,
}

impl Model for SharedGraph {
    ghost use Rattle.std.specs.Prelude.{List};
    ghost use Rattle.std.specs.Arc.{arc_value};
    ghost use Rattle.clip_graph.specs.Plan.{Application};

    ghost Value = { List Application };

    ghost view = { λ s. arc_value s.graph };
}

impl From<Arc<Graph>> for SharedGraph {
    ghost use Rattle.std.specs.Prelude.{◌≡◌};
    ghost use Rattle.std.specs.Arc.{arc_value};

    ghost from_gives = { λ graph shared. shared ≡ arc_value graph };

    fn from(graph: Arc<Graph>) -> SharedGraph {
        SharedGraph { graph }
    }
}

impl SharedGraph {
    /// The graph.
    pub fn graph(&self) -> &Graph
        ensures { result.now ≡ self.now }
    {
        &self.graph
    }
}
