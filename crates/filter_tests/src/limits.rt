// How large a graph may be.
use clip_graph::{Graph, GraphFault};
use clip_term::{Op, TimeOp};
use fv_io::Text;
use fv_plane::{Field, Info, Par, PixelType, Shape, Tag};
use std::alloc::Global;

// A clip of one frame of one sample.
const DOT: Info = Info {
    shape: Shape {
        kind: PixelType::Y8,
        bits: 8,
        width: 1,
        height: 1,
    },
    frames: 1,
    num: 25,
    den: 1,
    field: Field::Progressive,
    par: Par { num: 1, den: 1 },
    tag: Tag::Jpeg,
};

fn add_source(alloc: Global, graph: &mut Graph) -> Result<u32, GraphFault> {
    let Ok(name) = Text::from_str(alloc, "dot.y4m") else {
        return Err(GraphFault::Memory);
    };
    let number = graph.sources();
    let op = Op::Source {
        name,
        number,
        info: DOT,
    };
    graph.add(op, &[], DOT, 3)
}

// A node over one that is there. Another number is answered as out of memory.
fn add_reverse(graph: &mut Graph, input: u32) -> Result<u32, GraphFault> {
    if input >= graph.len() {
        return Err(GraphFault::Memory);
    }
    let info = graph.node(input).info;
    graph.add(Op::Time(TimeOp::Reverse), &[input], info, 1)
}

// A chain of 512 nodes and not one more on its end, and 4,096 nodes and not one more.
#[test]
fn a_graph_has_limits_of_depth_and_of_nodes(rt: HostRuntime) {
    let mut graph = Graph::new(rt.alloc());
    assert_eq!(rt; add_source(rt.alloc(), &mut graph), Ok(0));
    for i in 0..511 {
        assert_eq!(rt; add_reverse(&mut graph, i), Ok(i + 1));
    }
    assert_eq!(rt; add_reverse(&mut graph, 511), Err(GraphFault::DepthLimit));
    for i in 512..4_096 {
        assert_eq!(rt; add_source(rt.alloc(), &mut graph), Ok(i));
    }
    assert_eq!(rt; add_reverse(&mut graph, 0), Err(GraphFault::NodeLimit));
    assert_eq!(rt; (graph.len(), graph.sources()), (4_096, 3_585));
}
