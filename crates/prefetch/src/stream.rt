// The stream of a clip: its head, and its frames from a core.
ghost use Rattle.std.specs.Prelude.{◌≡◌, ◌<◌, ◌≤◌, true, [], length, None, IfOk, OnOk, OnErr, IfErr, IsErrOf};
ghost use Rattle.fv_io.specs.Sink.{Puts, IsLater};
ghost use Rattle.y4m_stream.specs.Head.{head};
ghost use Rattle.clip_graph.specs.Plan.{application_at, is_source};
ghost use Rattle.serve_core.specs.Kept.{leases_out};
ghost use Rattle.serve_core.specs.Sources.{book_of, faults_of as faults_in};
ghost use Rattle.serve_core.specs.Stands.{Stands};
ghost use Rattle.serve_core.specs.Tables.{AllFree, held_in, counts_in};
ghost use Rattle.serve_worker.specs.Instances.{feed_of, faults_of, holds_of};
ghost use Rattle.prefetch.specs.Windows.{frames_at};
ghost use Rattle.prefetch.specs.Renders.{pool_at};
ghost use Rattle.prefetch.specs.Cores.{book_at, StandsForSources, IsTold};
ghost use Rattle.prefetch.specs.Streamed.{IsStreamed};
ghost use Rattle.prefetch.specs.Rendered.{HeadStops, NamesSource, file_at, ToldAs, stop_in, TellsStop, HeadShows};

use crate::crew::render_crew;
use crate::graph::SharedGraph;
use crate::stops::RenderStop;
use crate::windows::render_plain;
use clip_graph::Graph;
use clip_term::Op;
use fv_io::{Failed, Sink, Source, Text};
use fv_plane::Info;
use serve_core::Core;
use serve_machine::{Record, WindowStop};
use serve_shared::Gate;
use serve_text::Stop;
use serve_worker::Instance;
use std::alloc::{AllocError, Global};
use std::sync::Wait;
use std::thread::Threads;
use y4m_stream::print_head;

// Puts the head of this info.
fn put_head<K: Sink>(alloc: Global, out: &mut K, info: &Info) -> Result<(), Stop>
    ensures put { OnOk result (Puts K.Sink out.old out.new (head info.now)) }
    ensures unfailed { (IsErrOf result Stop.Write → ⊥) → K.faults out.new ≡ K.faults out.old }
    ensures stop { IfErr result (HeadStops K.Sink out.old out.new (head info.now)) }
    ensures later { IsLater K.Sink out.old out.new }
{
    let Ok(head) = print_head(alloc, info) else {
        return Err(Stop::Memory);
    };
    match out.put(&head) {
        Ok(()) => Ok(()),
        Err(Failed) => Err(Stop::Write),
    }
}

// The name of the file of a source.
fn name_of(alloc: Global, graph: &Graph, node: u32) -> Result<Text, AllocError>
    requires inside { node < length graph.now }
    requires source { is_source (application_at graph.now node).act ≡ true }
    ensures { IfOk result (λ name. name ≡ file_at graph.now node) }
{
    let Some(source) = graph.node(node).op.source_part() else {
        unreachable!()
    };
    Text::from_str(alloc, source.name.as_str())
}

/// The stop, told with the name of the file.
pub(crate) fn told_stop<S: Source>(
    alloc: Global,
    core: &Core<Instance<S>>,
    stop: RenderStop,
) -> Stop
    requires named { NamesSource core.now.fixed.plan stop }
    ensures { ToldAs core.now.fixed.plan stop result }
{
    match stop {
        RenderStop::Stopped(WindowStop::Read { node: _ }) => Stop::Read,
        RenderStop::Stopped(
            WindowStop::Changed {
                node,
                frame,
                want,
                got,
            },
        ) => {
            let Ok(name) = name_of(alloc, core.graph(), node) else {
                return Stop::Memory;
            };
            Stop::Changed {
                name,
                frame,
                want,
                got,
            }
        }
        RenderStop::Stopped(WindowStop::Memory) | RenderStop::Memory => Stop::Memory,
        RenderStop::Write => Stop::Write,
    }
}

// The answer of a render that is over.
fn whole_of<S: Source>(
    alloc: Global,
    core: &Core<Instance<S>>,
    done: Result<(), RenderStop>,
    frames: u32,
    graph: SharedGraph,
) -> Result<RenderedClip, Stop>
    requires named { IfErr done (NamesSource core.now.fixed.plan) }
    ensures { IsTold core.now.fixed.plan core.now.fixed.workers done frames graph result }
{
    match done {
        Ok(()) => Ok(RenderedClip {
            frames,
            workers: core.workers(),
            graph,
        }),
        Err(stop) => Err(told_stop(alloc, core, stop)),
    }
}

/// A clip whose frames were all put: how many there are, by how many workers, and its graph, which the core shared.
#[derive(Drop)]
pub struct RenderedClip {
    pub frames: u32,
    pub workers: u32,
    pub graph: SharedGraph,
}

/// Puts the stream of the clip of a core's root, by its one worker, in windows of so many outputs. It leaves the journal
/// where the head was put.
pub(crate) fn put_clip_alone<S: Source, K: Sink>(
    alloc: Global,
    core: Core<Instance<S>>,
    kept: SharedGraph,
    window: u32,
    out: &mut K,
    journal: &mut Option<Record>,
) -> (Core<Instance<S>>, Result<RenderedClip, Stop>)
    requires one { core.fixed.workers ≡ 1 }
    requires kept { kept ≡ core.fixed.plan }
    requires between { core.fixed.count ≡ 0 }
    requires unclaimed { core.claims ≡ [] }
    requires unlent { leases_out core.table ≡ 0 }
    requires empty { core.cache ≡ [] }
    requires some { 0 < window }
    requires few { window ≤ 32 }
    requires none { journal.old ≡ None }
    requires stands { StandsForSources S.Source core }
    ensures streamed { IsStreamed (faults_of S.Source) core.fixed.plan core.fixed.root core.fixed.capacity
        (pool_at core window) (book_at S.Source core) K.Sink out.old out.new journal.new result.0.table result.1 }
    ensures free { AllFree result.0.table }
    ensures held { held_in holds_of result.0.table ≡ held_in holds_of core.table }
    ensures steady { OnOk result.1 (counts_in (faults_of S.Source) result.0.table ≡
        counts_in (faults_of S.Source) core.table) }
    ensures unfailed { (IsErrOf result.1 Stop.Write → ⊥) → K.faults out.new ≡ K.faults out.old }
    ensures unclaimed { result.0.claims ≡ [] }
    ensures later { IsLater K.Sink out.old out.new }
{
    let info = core.graph().node(core.root()).info;
    match put_head(alloc, out, &info) {
        Ok(()) => {}
        Err(stop) => return (core, Err(stop)),
    }
    let mut record = Record::new(alloc);
    let mut core = core;
    let done = render_plain(alloc, &mut core, window, out, &mut record);
    *journal = Some(record);
    let whole = whole_of(alloc, &core, done, info.frames, kept);
    (core, whole)
}

/// Puts the stream of the clip of a core's root, by its workers, of which there are several.
pub(crate) fn put_clip_together<R: Threads + Wait + Sync, G: Gate, S: Source + Send, K: Sink>(
    rt: &R,
    gate: &G,
    alloc: Global,
    core: Core<Instance<S>>,
    kept: SharedGraph,
    window: u32,
    out: &mut K,
    journal: &mut Option<Record>,
) -> (Core<Instance<S>>, Result<RenderedClip, Stop>)
    requires several { 1 < core.fixed.workers }
    requires kept { kept ≡ core.fixed.plan }
    requires between { core.fixed.count ≡ 0 }
    requires unclaimed { core.claims ≡ [] }
    requires unlent { leases_out core.table ≡ 0 }
    requires empty { core.cache ≡ [] }
    requires some { 0 < window }
    requires few { window ≤ 32 }
    requires none { journal.old ≡ None }
    requires stands { StandsForSources S.Source core }
    ensures streamed { IsStreamed (faults_of S.Source) core.fixed.plan core.fixed.root core.fixed.capacity
        (pool_at core window) (book_at S.Source core) K.Sink out.old out.new journal.new result.0.table result.1 }
    ensures free { AllFree result.0.table }
    ensures held { held_in holds_of result.0.table ≡ held_in holds_of core.table }
    ensures steady { OnOk result.1 (counts_in (faults_of S.Source) result.0.table ≡
        counts_in (faults_of S.Source) core.table) }
    ensures unfailed { (IsErrOf result.1 Stop.Write → ⊥) → K.faults out.new ≡ K.faults out.old }
    ensures unclaimed { result.0.claims ≡ [] }
    ensures later { IsLater K.Sink out.old out.new }
{
    let info = core.graph().node(core.root()).info;
    match put_head(alloc, out, &info) {
        Ok(()) => {}
        Err(stop) => return (core, Err(stop)),
    }
    let mut record = Record::new(alloc);
    let workers = core.workers();
    let (core, done) = render_crew(rt, alloc, core, workers, window, gate, out, &mut record);
    *journal = Some(record);
    let whole = whole_of(alloc, &core, done, info.frames, kept);
    (core, whole)
}
