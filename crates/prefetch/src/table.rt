// The core of a graph, and the instances after its render.
ghost use Rattle.std.specs.Prelude.{◌≡◌, ◌+◌, ◌++◌, ◌≤◌, ◌<◌, length, None, IfOk, IfErr, OnOk, IsErrOf};
ghost use Rattle.fv_io.specs.Sink.{IsLater};
ghost use Rattle.serve_worker.specs.Sources.{AreSources};
ghost use Rattle.serve_core.specs.Tables.{AllFree};
ghost use Rattle.serve_worker.specs.Furnishing.{sources_in, fault_counts};
ghost use Rattle.serve_worker.specs.Instances.{faults_of};
ghost use Rattle.prefetch.specs.StreamClips.{book_told};
ghost use Rattle.prefetch.specs.Cores.{IsCoreOf};
ghost use Rattle.prefetch.specs.Streamed.{IsStreamed};

use crate::graph::SharedGraph;
use crate::pool_size::Pool;
use crate::stream::{RenderedClip, put_clip_alone, put_clip_together};
use clip_graph::Graph;
use frame_cache::FrameCache;
use fv_io::{Sink, Source};
use inst_table::InstTable;
use seq_source::SeqSource;
use serve_core::Core;
use serve_machine::Record;
use serve_shared::Gate;
use serve_text::Stop;
use serve_worker::{Instance, furnish};
use std::alloc::Global;
use std::sync::{Arc, Wait};
use std::thread::Threads;

/// The core of a graph over its sources, and the graph that it shares. Without memory there are the instances that were
/// made.
pub(crate) fn open_core<S: Source>(
    alloc: Global,
    pool: Pool,
    graph: Graph,
    root: u32,
    sources: &mut Vec<SeqSource<S>>,
    cache: u32,
) -> Result<(Core<Instance<S>>, SharedGraph), InstTable<Instance<S>>>
    requires workers { 0 < pool.workers }
    requires root { root < length graph }
    requires sources { AreSources graph sources.old.items }
    requires cache { 0 < cache }
    ensures core { IfOk result (λ r. IsCoreOf S.Source r.0 graph root cache pool sources.old.items) }
    ensures kept { IfOk result (λ r. r.1 ≡ graph) }
    ensures all { IfOk result (λ r. sources.old.items ≡ sources.new.items ++ sources_in r.0.table) }
    ensures free { IfErr result AllFree }
    ensures left { IfErr result (λ table.
        length sources.old.items ≡ length sources.new.items + length (sources_in table)) }
{
    // Called for what its contract says.
    graph.len();
    let mut table = InstTable::new(alloc);
    let Ok(_) = furnish(alloc, &mut table, &graph, sources, pool.workers) else {
        return Err(table);
    };
    let Ok(frames) = FrameCache::new(alloc, cache) else {
        return Err(table);
    };
    let Ok(graph) = Arc::new(alloc, graph) else {
        return Err(table);
    };
    let Ok(kept) = Arc::try_clone(&graph) else {
        return Err(table);
    };
    let core = Core::new(alloc, graph, root, frames, pool.workers, table);
    Ok((core, SharedGraph::from(kept)))
}

/// The stream of the clip at the root of a graph, put by one worker from a core over these sources, with a cache of so many
/// frames, and the instances after it. The sources that no instance keeps are left. Where all was put, no source has failed.
pub fn put_graph_alone<S: Source, K: Sink>(
    alloc: Global,
    pool: Pool,
    graph: Graph,
    root: u32,
    sources: &mut Vec<SeqSource<S>>,
    cache: u32,
    out: &mut K,
    journal: &mut Option<Record>,
) -> (InstTable<Instance<S>>, Result<RenderedClip, Stop>)
    requires one { pool.workers ≡ 1 }
    requires some { 0 < pool.window }
    requires few { pool.window ≤ 32 }
    requires root { root < length graph }
    requires sources { AreSources graph sources.old.items }
    requires cache { 0 < cache }
    requires none { journal.old ≡ None }
    ensures streamed { IsStreamed (faults_of S.Source) graph root cache pool (book_told S.Source sources.old.items)
        K.Sink out.old out.new journal.new result.0 result.1 }
    ensures free { AllFree result.0 }
    ensures all { length sources.old.items ≡ length sources.new.items + length (sources_in result.0) }
    ensures steady { OnOk result.1 (fault_counts S.Source (sources.new.items ++ sources_in result.0) ≡
        fault_counts S.Source sources.old.items) }
    ensures unfailed { (IsErrOf result.1 Stop.Write → ⊥) → K.faults out.new ≡ K.faults out.old }
    ensures later { IsLater K.Sink out.old out.new }
{
    let (core, kept) = match open_core(alloc, pool, graph, root, sources, cache) {
        Ok(opened) => opened,
        Err(table) => return (table, Err(Stop::Memory)),
    };
    let (core, put) = put_clip_alone(alloc, core, kept, pool.window, out, journal);
    (core.into_table(), put)
}

/// The same by as many workers as the pool has, each in a thread of its own where there are several.
pub fn put_graph_together<R: Threads + Wait + Sync, G: Gate, S: Source + Send, K: Sink>(
    rt: &R,
    gate: &G,
    alloc: Global,
    pool: Pool,
    graph: Graph,
    root: u32,
    sources: &mut Vec<SeqSource<S>>,
    cache: u32,
    out: &mut K,
    journal: &mut Option<Record>,
) -> (InstTable<Instance<S>>, Result<RenderedClip, Stop>)
    requires workers { 0 < pool.workers }
    requires some { 0 < pool.window }
    requires few { pool.window ≤ 32 }
    requires root { root < length graph }
    requires sources { AreSources graph sources.old.items }
    requires cache { 0 < cache }
    requires none { journal.old ≡ None }
    ensures streamed { IsStreamed (faults_of S.Source) graph root cache pool (book_told S.Source sources.old.items)
        K.Sink out.old out.new journal.new result.0 result.1 }
    ensures free { AllFree result.0 }
    ensures all { length sources.old.items ≡ length sources.new.items + length (sources_in result.0) }
    ensures steady { OnOk result.1 (fault_counts S.Source (sources.new.items ++ sources_in result.0) ≡
        fault_counts S.Source sources.old.items) }
    ensures unfailed { (IsErrOf result.1 Stop.Write → ⊥) → K.faults out.new ≡ K.faults out.old }
    ensures later { IsLater K.Sink out.old out.new }
{
    if pool.workers == 1 {
        return put_graph_alone(alloc, pool, graph, root, sources, cache, out, journal);
    }
    let (core, kept) = match open_core(alloc, pool, graph, root, sources, cache) {
        Ok(opened) => opened,
        Err(table) => return (table, Err(Stop::Memory)),
    };
    let (core, put) = put_clip_together(rt, gate, alloc, core, kept, pool.window, out, journal);
    (core.into_table(), put)
}
