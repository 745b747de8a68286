//! The plan of a script as a graph: the filters that it applied, each over earlier ones.
//!
//! Contracts see a graph as a list of applications (`specs/Plan.antt`). Each place of it stands for a clip term, and each
//! frame of a place is made of frames of earlier places.
#![tactic(auto)]

mod graph;
pub mod laws;
mod node;

pub use graph::{Graph, GraphFault};
pub use node::Node;
