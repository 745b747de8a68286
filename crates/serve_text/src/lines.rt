// Lines that are made without memory, and those of a report, put.
ghost use Rattle.std.specs.Prelude.{◌≡◌, ◌+◌, ◌<◌, ◌≤◌, ℕ, length, flat_map, slice_index_or, OnOk, OnErr};
ghost use Rattle.clip_graph.specs.Nodes.{application_of};
ghost use Rattle.fv_io.specs.Sink.{Puts, PutsPrefix, SinkFailed, IsLater};
ghost use Rattle.serve_machine.specs.Events.{windows_of};
ghost use Rattle.serve_text.specs.Report.{none, counts_of, report, node_line, lines_between};

use crate::counts::{Counts, count_windows};
use arrayvec::ArrayString;
use clip_graph::{Graph, Node};
use fv_io::{Failed, Sink};
use itoa::Buffer;
use serve_machine::Record;

// The nodes that are counted in one walk over the journal.
const BLOCK: usize = 256;

/// The most bytes of a line: the name of a filter has at most 18, that of a format at most 9, and a number at most 40.
pub(crate) const LINE: usize = 256;

/// The pieces, one after the other.
pub(crate) fn joined(pieces: &[&str]) -> ArrayString<LINE>
    requires { length (flat_map (λ piece. piece.now) pieces.now) ≤ LINE }
    ensures { result.bytes ≡ flat_map (λ piece. piece.now) pieces.now }
{
    let mut line = ArrayString::new();
    for piece in pieces {
        line.push_str(piece);
    }
    line
}

// The line of a node.
fn line_of(i: u32, node: &Node, counts: Counts) -> ArrayString<LINE>
    ensures { result.bytes ≡ node_line i (application_of node.now)
        counts.made counts.hit counts.evicted counts.entered }
{
    let name = node.op.filter().name();
    let mut number = Buffer::new();
    let mut made = Buffer::new();
    let mut hit = Buffer::new();
    let mut evicted = Buffer::new();
    let mut entered = Buffer::new();
    joined(&[
        number.format(i),
        " ",
        name,
        " made ",
        made.format(counts.made),
        " hit ",
        hit.format(counts.hit),
        " evicted ",
        evicted.format(counts.evicted),
        " entered ",
        entered.format(counts.entered),
        "\n",
    ])
}

// The counts of the nodes of a block, from node `first` on.
fn counted(first: u32, journal: &Record) -> [Counts; BLOCK]
    ensures { (k : ℕ) → k < BLOCK → slice_index_or result k none ≡ counts_of (windows_of journal.now) (first + k) }
{
    let mut table = [Counts::NONE; BLOCK];
    count_windows(&mut table, first, journal);
    table
}

// Puts the lines of the nodes from `first` to before `end`.
fn put_lines<K: Sink>(
    out: &mut K,
    graph: &Graph,
    journal: &Record,
    first: u32,
    end: u32,
) -> Result<(), Failed>
    requires order { first ≤ end }
    requires few { end ≤ first + BLOCK }
    requires inside { end ≤ length graph.now }
    ensures put { OnOk result (Puts K.Sink out.old out.new
        (lines_between graph.now (windows_of journal.now) first end)) }
    ensures cut { OnErr result (PutsPrefix K.Sink out.old out.new
        (lines_between graph.now (windows_of journal.now) first end)) }
    ensures steady { OnOk result (K.faults out.new ≡ K.faults out.old) }
    ensures failed { OnErr result (SinkFailed K.Sink out.old out.new) }
    ensures later { IsLater K.Sink out.old out.new }
{
    let table = counted(first, journal);
    for i in first..end {
        let line = line_of(i, graph.node(i), table[(i - first) as usize]);
        match out.put(line.as_str().as_bytes()) {
            Ok(()) => {}
            Err(Failed) => return Err(Failed),
        }
    }
    Ok(())
}

/// Puts the report of a journal: a line for each node of the graph, in order, in one put each. The journal is walked once
/// for each 256 nodes. After `Failed` only a prefix of the report was put.
pub fn put_report<K: Sink>(out: &mut K, graph: &Graph, journal: &Record) -> Result<(), Failed>
    ensures put { OnOk result (Puts K.Sink out.old out.new (report graph.now (windows_of journal.now))) }
    ensures cut { OnErr result (PutsPrefix K.Sink out.old out.new (report graph.now (windows_of journal.now))) }
    ensures steady { OnOk result (K.faults out.new ≡ K.faults out.old) }
    ensures failed { OnErr result (SinkFailed K.Sink out.old out.new) }
    ensures later { IsLater K.Sink out.old out.new }
{
    let mut first = 0;
    while first < graph.len() {
        let end = first + (BLOCK as u32).min(graph.len() - first);
        match put_lines(out, graph, journal, first, end) {
            Ok(()) => {}
            Err(Failed) => return Err(Failed),
        }
        first = end;
    }
    Ok(())
}
