// Windows by one worker, one after the other.
ghost use Rattle.std.specs.Prelude.{◌≡◌, ◌+◌, ◌-◌, ◌<◌, ◌≤◌, ℕ, min, [], IfOk, IfErr, OnOk, OnErr};
ghost use Rattle.std.specs.Vec.{vec_capacity, vec_len};
ghost use Rattle.fv_io.specs.Sink.{IsLater};
ghost use Rattle.serve_machine.specs.Events.{windows_of};
ghost use Rattle.prefetch.specs.SerialWindows.{PutsAlone, AloneShows, IsSerialWindow, IsAloneWindow, IsCutSerial, IsAloneCut};
ghost use Rattle.prefetch.specs.Windows.{WindowEnds, MakesWindow, UnmadeWindow, RendersAll, RenderStops};
ghost use Rattle.prefetch.specs.Starts.{IsAtRest, IsWindowSize, MayBegin};

use crate::finished::{keep_events, put_finished};
use crate::stops::RenderStop;
use fv_io::Sink;
use fv_plane::Frame;
use serve_alone::run_alone;
use serve_core::{Core, Finished, Worker, Works};
use serve_machine::Record;
use std::alloc::{AllocError, Global};
use std::sync::Arc;

// A window by one worker, from its beginning to its end.
fn run_window<I: Works>(
    alloc: Global,
    core: &mut Core<I>,
    worker: &mut Worker,
    first: u32,
    count: u32,
) -> Result<Finished, AllocError>
    requires may { MayBegin core.old first count }
    requires worker { worker.old.plan ≡ core.old.fixed.plan }
    ensures ends { IfOk result (λ finished. WindowEnds I.Held core.old (IsAloneWindow core.old first count)
        (IsAloneCut core.old first count) first count finished finished.stop core.new) }
    ensures err { OnErr result (core.new ≡ core.old) }
    ensures worker { worker.new ≡ worker.old }
{
    match core.begin_window(first, count) {
        Ok(()) => {}
        Err(AllocError) => return Err(AllocError),
    }
    let _ = run_alone(alloc, worker, core);
    // Until the window ends, its journal is a run.
    core.account();
    Ok(core.end_window())
}

// A window, whose events go into the journal and whose frames are put.
fn render_window<I: Works, K: Sink>(
    alloc: Global,
    core: &mut Core<I>,
    worker: &mut Worker,
    first: u32,
    count: u32,
    out: &mut K,
    journal: &mut Record,
) -> Result<(), RenderStop>
    requires may { MayBegin core.old first count }
    requires worker { worker.old.plan ≡ core.old.fixed.plan }
    ensures ok { OnOk result (PutsAlone I.Held core.old first count
        (windows_of journal.old) (windows_of journal.new) core.new K.Sink out.old out.new) }
    ensures stop { IfErr result (AloneShows I.Held core.old first count
        (windows_of journal.old) (windows_of journal.new) core.new K.Sink out.old out.new) }
    ensures later { IsLater K.Sink out.old out.new }
    ensures worker { worker.new ≡ worker.old }
{
    let Ok(_) = journal.windows.reserve(1) else {
        return Err(RenderStop::Memory);
    };
    match run_window(alloc, core, worker, first, count) {
        Ok(finished) => put_finished(core, first, count, finished, out, journal),
        Err(AllocError) => Err(RenderStop::Memory),
    }
}

/// A window of this output alone, by one worker, whose events go into the journal. It answers the output's frame, in a
/// list of its own.
pub(crate) fn render_one<I: Works>(
    alloc: Global,
    core: &mut Core<I>,
    worker: &mut Worker,
    n: u32,
    journal: &mut Record,
) -> Result<Vec<Option<Frame>>, RenderStop>
    requires may { MayBegin core.old n 1 }
    requires worker { worker.old.plan ≡ core.old.fixed.plan }
    ensures ok { IfOk result (λ frames. MakesWindow I.Held core.old (IsSerialWindow core.old n 1) (IsCutSerial core.old)
        n 1 (windows_of journal.old) (windows_of journal.new) core.new frames.items) }
    ensures stop { IfErr result (UnmadeWindow I.Held core.old (IsSerialWindow core.old n 1) (IsCutSerial core.old)
        n 1 (windows_of journal.old) (windows_of journal.new) core.new) }
    ensures worker { worker.new ≡ worker.old }
{
    let Ok(_) = journal.windows.reserve(1) else {
        return Err(RenderStop::Memory);
    };
    let Ok(finished) = run_window(alloc, core, worker, n, 1) else {
        return Err(RenderStop::Memory);
    };
    let Finished {
        frames,
        stop,
        events,
    } = finished;
    keep_events(n, 1, events, journal);
    match stop {
        Some(stop) => Err(RenderStop::Stopped(stop)),
        None => Ok(frames),
    }
}

/// Puts all frames of the root of a core that has one worker, is between windows and has cached nothing, in windows of
/// at most this many outputs. `journal` has no window yet, and gets each window that was begun and brought to its end.
/// A window's frames are put once all of them are delivered. Where all frames were put no instance has failed.
pub fn render_plain<I: Works, K: Sink>(
    alloc: Global,
    core: &mut Core<I>,
    window: u32,
    out: &mut K,
    journal: &mut Record,
) -> Result<(), RenderStop>
    requires rest { IsAtRest core.old }
    requires one { core.old.fixed.workers ≡ 1 }
    requires size { IsWindowSize window }
    requires fresh { windows_of journal.old ≡ [] }
    ensures ok { OnOk result (RendersAll I.Held core.old K.Sink out.old out.new window
        (windows_of journal.new) core.new) }
    ensures stop { IfErr result (λ stop. RenderStops I.Held core.old K.Sink out.old out.new
        window (windows_of journal.new) core.new stop) }
    ensures later { IsLater K.Sink out.old out.new }
{
    let Ok(graph) = Arc::try_clone(core.graph()) else {
        return Err(RenderStop::Memory);
    };
    let root = core.root();
    let total = graph.node(root).info.frames;
    let mut worker = Worker::new(0, graph);
    let mut first = 0;
    while first < total {
        let count = window.min(total - first);
        match render_window(alloc, core, &mut worker, first, count, out, journal) {
            Ok(()) => {}
            Err(stop) => return Err(stop),
        }
        first += count;
    }
    Ok(())
}
