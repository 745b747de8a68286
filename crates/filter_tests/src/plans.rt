// The same ops in a graph.
ghost use Rattle.std.specs.Prelude.{◌≡◌, ◌<◌, length, IfOk};
ghost use Rattle.std.specs.List.{All};
ghost use Rattle.fv_plane.specs.Info.{IsLawful};
ghost use Rattle.clip_graph.specs.Plan.{infos_among};
ghost use Rattle.clip_term.specs.Terms.{act_of, IsSound};
ghost use Rattle.clip_reference.specs.Ready.{IsFilter};

use crate::ops::{pair_op, soft_op, space_op, time_op};
use clip_check::check;
use clip_graph::Graph;
use clip_term::Op;
use fv_io::Text;
use fv_plane::Info;
use std::alloc::{AllocError, Global};
use std::process::Abort;
use std::test::Fail;

pub fn add_source(alloc: Global, graph: &mut Graph, info: Info) -> Result<u32, Fail>
    requires { IsLawful info }
{
    let name = Text::from_str(alloc, "clip.y4m")?;
    let number = graph.sources();
    Ok(graph.add(Op::Source { name, number, info }, &[], info, 3)?)
}

fn infos(
    rt: &impl Abort,
    alloc: Global,
    graph: &Graph,
    nodes: &[u32],
) -> Result<Vec<Info>, AllocError>
    ensures there { IfOk result (λ infos. All (λ i. i < length graph.now) nodes.now) }
    ensures infos { IfOk result (λ infos. infos.items ≡ infos_among graph.now nodes.now) }
{
    let mut infos = Vec::new(alloc);
    for node in nodes {
        assert!(rt; *node < graph.len());
        infos.push(graph.node(*node).info)?;
    }
    Ok(infos)
}

// Adds a filter over nodes.
pub fn apply(
    rt: &impl Abort,
    alloc: Global,
    graph: &mut Graph,
    op: Op,
    inputs: &[u32],
) -> Result<u32, Fail>
    requires filter { IsFilter (act_of op) }
    requires sound { IsSound (act_of op) (length inputs.now) }
{
    let infos = infos(rt, alloc, graph, inputs)?;
    let info = check(&op, &infos)?;
    Ok(graph.add(op, inputs, info, 1)?)
}

// Adds the ops of a row, one over the other. Answers the node of the last.
pub fn add_row(
    rt: &impl Abort,
    alloc: Global,
    graph: &mut Graph,
    info: Info,
    row: u32,
) -> Result<u32, Fail>
    requires { IsLawful info }
{
    let first = add_source(alloc, graph, info)?;
    let second = add_source(alloc, graph, info)?;
    let timed = apply(rt, alloc, graph, time_op(row), &[first])?;
    let joined = apply(rt, alloc, graph, pair_op(row), &[timed, second])?;
    let shaped = apply(rt, alloc, graph, space_op(row), &[joined])?;
    apply(rt, alloc, graph, soft_op(alloc, row)?, &[shaped])
}
