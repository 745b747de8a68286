// `put_judged`: what a text is, in one line.
ghost use Rattle.std.specs.Prelude.{◌≡◌, ◌<◌, length, OnOk, IfErr, IsErrOf};
ghost use Rattle.fv_io.specs.Sink.{IsLater};
ghost use Rattle.serve_replay.specs.Verdicts.{said, IsSaidOf, PutsDue, DueStops};

use crate::lines::{LINE, run_line, wrong_line};
use arrayvec::ArrayString;
use clip_graph::Graph;
use fv_io::{Failed, Sink};
use run_check::{Verdict, check_journal};
use serve_text::Stop;
use std::alloc::{AllocError, Global};

// The line of a verdict.
fn said_of(text: &[u8], verdict: Verdict) -> ArrayString<LINE>
    ensures { result.bytes ≡ said text.now verdict }
{
    match verdict {
        Verdict::Yes => run_line(text),
        Verdict::No { line } => wrong_line(line),
    }
}

/// Puts one line, in one put, that says whether a text is a journal of this root with a cache of `cache` frames, of which
/// a render has 1 to 256: `run: L lines` of a journal of so many lines, and else `not a run: line L`, with the first line,
/// counted from 1, such that the lines up to it are no journal.
///
/// `Write` means that the sink failed, and `Memory` out of memory. There is no other stop.
pub fn put_judged<K: Sink>(
    alloc: Global,
    out: &mut K,
    graph: &Graph,
    root: u32,
    cache: u32,
    text: &[u8],
) -> Result<(), Stop>
    requires root { root < length graph.now }
    requires cache { 0 < cache }
    ensures put { OnOk result (PutsDue K.Sink out.old out.new (IsSaidOf graph.now root cache text.now)) }
    ensures stop { IfErr result (DueStops K.Sink out.old out.new (IsSaidOf graph.now root cache text.now)) }
    ensures steady { (IsErrOf result Stop.Write → ⊥) → K.faults out.new ≡ K.faults out.old }
    ensures later { IsLater K.Sink out.old out.new }
{
    let verdict = match check_journal(alloc, graph, root, cache, text) {
        Ok(verdict) => verdict,
        Err(AllocError) => return Err(Stop::Memory),
    };
    let line = said_of(text, verdict);
    match out.put(line.as_str().as_bytes()) {
        Ok(()) => Ok(()),
        Err(Failed) => Err(Stop::Write),
    }
}
