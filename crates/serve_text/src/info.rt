// What is known of the clip of a script.
ghost use Rattle.std.specs.Prelude.{◌≡◌, ◌++◌, ◌<◌, length, OnOk, OnErr, IfOk};
ghost use Rattle.fv_io.specs.Sink.{Puts, PutsPrefix, SinkFailed, IsLater};
ghost use Rattle.clip_graph.specs.Nodes.{application_of};
ghost use Rattle.serve_text.specs.InfoText as t;

use crate::lines::{LINE, joined};
use crate::text::add;
use arrayvec::ArrayString;
use clip_graph::{Graph, Node};
use fv_io::{Failed, Sink};
use fv_plane::Info;
use itoa::Buffer;
use std::alloc::{AllocError, Global};

// The line of the clip.
fn clip_line(info: &Info) -> ArrayString<LINE>
    ensures { result.bytes ≡ t.clip_line info.now }
{
    let mut width = Buffer::new();
    let mut height = Buffer::new();
    let mut num = Buffer::new();
    let mut den = Buffer::new();
    let mut frames = Buffer::new();
    joined(&[
        "clip ",
        width.format(info.shape.width),
        "x",
        height.format(info.shape.height),
        " ",
        info.shape.format_name(),
        " ",
        num.format(info.num),
        ":",
        den.format(info.den),
        " frames ",
        frames.format(info.frames),
        "\n",
    ])
}

/// Puts the line of a clip, its size, format, rate and length, in one put. After `Failed` only a prefix of it was put.
pub fn put_clip_line<K: Sink>(out: &mut K, info: &Info) -> Result<(), Failed>
    ensures put { OnOk result (Puts K.Sink out.old out.new (t.clip_line info.now)) }
    ensures cut { OnErr result (PutsPrefix K.Sink out.old out.new (t.clip_line info.now)) }
    ensures steady { OnOk result (K.faults out.new ≡ K.faults out.old) }
    ensures failed { OnErr result (SinkFailed K.Sink out.old out.new) }
    ensures later { IsLater K.Sink out.old out.new }
{
    let line = clip_line(info);
    out.put(line.as_str().as_bytes())
}

// Adds the line of the clip.
fn add_clip(text: &mut Vec<u8>, info: &Info) -> Result<(), AllocError>
    ensures { OnOk result (text.new.items ≡ text.old.items ++ t.clip_line info.now) }
{
    let line = clip_line(info);
    add(text, &[line.as_str()])
}

// Adds the numbers of a node's inputs.
fn add_inputs(text: &mut Vec<u8>, inputs: &[u32]) -> Result<(), AllocError>
    ensures { OnOk result (text.new.items ≡ text.old.items ++ t.inputs_text inputs.now) }
{
    for input in inputs {
        let mut number = Buffer::new();
        add(text, &[" ", number.format(*input)])?;
    }
    Ok(())
}

// Adds the line of a node.
fn add_node(text: &mut Vec<u8>, i: u32, node: &Node) -> Result<(), AllocError>
    ensures { OnOk result (text.new.items ≡ text.old.items ++ t.node_line i (application_of node.now)) }
{
    let name = node.op.filter().name();
    let mut number = Buffer::new();
    let mut mode = Buffer::new();
    add(
        text,
        &[number.format(i), " ", name, " ", mode.format(node.mode)],
    )?;
    add_inputs(text, &node.inputs)?;
    add(text, &["\n"])
}

// Adds a line for each node.
fn add_nodes(text: &mut Vec<u8>, graph: &Graph) -> Result<(), AllocError>
    ensures { OnOk result (text.new.items ≡ text.old.items ++ t.node_lines 0 graph.now) }
{
    for i in 0..graph.len() {
        add_node(text, i, graph.node(i))?;
    }
    Ok(())
}

// Adds the lines of the root and of the workers.
fn add_last(text: &mut Vec<u8>, root: u32, workers: u32, window: u32) -> Result<(), AllocError>
    ensures { OnOk result (text.new.items ≡ text.old.items ++ t.last_lines root workers window) }
{
    let mut number = Buffer::new();
    let mut threads = Buffer::new();
    let mut frames = Buffer::new();
    add(
        text,
        &[
            "root ",
            number.format(root),
            "\nprefetch ",
            threads.format(workers),
            " ",
            frames.format(window),
            "\n",
        ],
    )
}

/// What is known of the clip of a graph's root: its size, format, rate and length, a line for each node with its number,
/// filter, mode and inputs, the root's number, and how many workers make the frames of a window of how many frames.
pub fn info_text(
    alloc: Global,
    graph: &Graph,
    root: u32,
    workers: u32,
    window: u32,
) -> Result<Vec<u8>, AllocError>
    requires { root < length graph.now }
    ensures { IfOk result (λ text. text.items ≡ t.info_text graph.now root workers window) }
{
    let mut text = Vec::new(alloc);
    add_clip(&mut text, &graph.node(root).info)?;
    add_nodes(&mut text, graph)?;
    add_last(&mut text, root, workers, window)?;
    Ok(text)
}
