// `check_journal`: whether a text is a journal.
ghost use Rattle.std.specs.Prelude.{◌<◌, length, IfOk};
ghost use Rattle.run_text.specs.Journal.{Judges};

use crate::judging::judge;
use crate::tracker::Tracker;
use clip_graph::Graph;
use run_text::Verdict;
use std::alloc::{AllocError, Global};

/// Whether a text is a journal of this root with a cache of `cache` frames, of which a render has 1 to 256. `No` names
/// the first line, counted from 1, such that the lines up to it are no journal, which is 1 for a text without lines. A
/// line takes a time that does not grow with the text. An `Err` is out of memory.
pub fn check_journal(
    alloc: Global,
    graph: &Graph,
    root: u32,
    cache: u32,
    text: &[u8],
) -> Result<Verdict, AllocError>
    requires root { root < length graph.now }
    requires cache { 0 < cache }
    ensures { IfOk result (Judges graph.now root cache text.now) }
{
    prove!(root < graph.len());
    let mut tracker = Tracker::new(alloc, cache)?;
    judge(&mut tracker, graph, root, text)
}
