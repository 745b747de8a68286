// A node of a graph: a filter with its arguments, its inputs and its mode.
use clip_term::Op;
use fv_plane::Info;

/// A filter with its arguments, over earlier nodes.
#[derive(Drop)]
pub struct Node {
    pub op: Op,
    /// The numbers of the nodes that give its clips, in their order.
    pub inputs: Vec<u32>,
    /// What is known of the clip that it gives.
    pub info: Info,
    /// 1, 2 or 3: MT_NICE_FILTER, MT_MULTI_INSTANCE or MT_SERIALIZED.
    pub mode: u8,
    /// The number of nodes from a node without inputs down to this one, on the longest way.
    pub depth: u32,
}
