// Windows by several workers, one after the other.
ghost use Rattle.std.specs.Prelude.{◌≡◌, ◌+◌, ◌-◌, ◌<◌, ◌≤◌, min, [], OnOk, OnErr, IfOk, IfErr};
ghost use Rattle.std.specs.Vec.{vec_capacity, vec_len};
ghost use Rattle.fv_io.specs.Sink.{IsLater};
ghost use Rattle.serve_machine.specs.Events.{windows_of};
ghost use Rattle.prefetch.specs.declared.stops.RenderStop.TheVariants.{Write, Memory};
ghost use Rattle.prefetch.specs.Crew.{MakesNext, NextShows};
ghost use Rattle.prefetch.specs.Starts.{IsAtRest, IsWindowSize, MayBegin};
ghost use Rattle.prefetch.specs.Windows.{CrewRendersAll, CrewStops};

use crate::crew_window::run_crew_window;
use crate::finished::keep_events;
use crate::frames::put_frames;
use crate::stops::RenderStop;
use fv_io::{Failed, Sink};
use fv_plane::Frame;
use serve_core::{Core, Finished, Works};
use serve_machine::Record;
use serve_shared::Gate;
use std::alloc::{AllocError, Global};
use std::sync::Wait;
use std::thread::Threads;

// Why a render ends whose next window could not begin, by what became of the frames before it.
fn no_window(put: Result<(), Failed>) -> RenderStop
    ensures ok { OnOk put (result ≡ Memory) }
    ensures err { OnErr put (result ≡ Write) }
{
    match put {
        Ok(()) => RenderStop::Memory,
        Err(Failed) => RenderStop::Write,
    }
}

// A window, while these frames of the one before are put. Its events go into the journal, except where it was stopped
// and those frames were not put whole. The answer is its own frames.
fn render_crew_window<R: Threads + Wait + Sync, I: Works + Send, K: Sink, G: Gate>(
    rt: &R,
    alloc: Global,
    core: Core<I>,
    threads: u32,
    first: u32,
    count: u32,
    gate: &G,
    out: &mut K,
    frames: Vec<Option<Frame>>,
    journal: &mut Record,
) -> (Core<I>, Result<Vec<Option<Frame>>, RenderStop>)
    requires may { MayBegin core first count }
    requires workers { core.fixed.workers ≡ threads }
    ensures ok { IfOk result.1 (λ next. MakesNext I.Held core first count
        (windows_of journal.old) (windows_of journal.new) result.0 K.Sink frames.items out.old out.new next.items) }
    ensures stop { IfErr result.1 (NextShows I.Held core first count
        (windows_of journal.old) (windows_of journal.new) result.0 K.Sink frames.items out.old out.new) }
    ensures later { IsLater K.Sink out.old out.new }
{
    let Ok(_) = journal.windows.reserve(1) else {
        let put = put_frames(out, &frames);
        return (core, Err(no_window(put)));
    };
    let (core, ended, put) = run_crew_window(
        rt, alloc, core, threads, first, count, gate, out, frames,
    );
    let Ok(finished) = ended else {
        return (core, Err(no_window(put)));
    };
    let Finished {
        frames,
        stop,
        events,
    } = finished;
    if put.is_err() && stop.is_some() {
        return (core, Err(RenderStop::Write));
    }
    keep_events(first, count, events, journal);
    match (put, stop) {
        (Err(Failed), _) => (core, Err(RenderStop::Write)),
        (Ok(()), Some(stop)) => (core, Err(RenderStop::Stopped(stop))),
        (Ok(()), None) => (core, Ok(frames)),
    }
}

/// Puts all frames of the root of a core that has so many workers, 2 to 16, is between windows and has cached nothing,
/// in windows of at most this many outputs. Each worker of a window has a thread, of which the caller's is one. A
/// window's frames are put once all of them are delivered, by the caller, before it works in the next window. `journal`
/// has no window yet, and gets each window that was begun and brought to its end. Where the sink fails, a window that
/// was stopped meanwhile is left out. The core comes back between windows; where all frames were put no instance has
/// failed.
pub fn render_crew<R: Threads + Wait + Sync, I: Works + Send, K: Sink, G: Gate>(
    rt: &R,
    alloc: Global,
    core: Core<I>,
    threads: u32,
    window: u32,
    gate: &G,
    out: &mut K,
    journal: &mut Record,
) -> (Core<I>, Result<(), RenderStop>)
    requires rest { IsAtRest core }
    requires workers { core.fixed.workers ≡ threads }
    requires several { 1 < threads }
    requires size { IsWindowSize window }
    requires fresh { windows_of journal.old ≡ [] }
    ensures ok { OnOk result.1 (CrewRendersAll I.Held core K.Sink out.old out.new window
        (windows_of journal.new) result.0) }
    ensures stop { IfErr result.1 (λ stop. CrewStops I.Held core K.Sink out.old out.new
        window (windows_of journal.new) result.0 stop) }
    ensures later { IsLater K.Sink out.old out.new }
{
    let total = core.graph().node(core.root()).info.frames;
    let mut core = core;
    let mut frames = Vec::new(alloc);
    let mut first = 0;
    while first < total {
        let count = window.min(total - first);
        let (left, ended) = render_crew_window(
            rt, alloc, core, threads, first, count, gate, out, frames, journal,
        );
        core = left;
        match ended {
            Ok(next) => frames = next,
            Err(stop) => return (core, Err(stop)),
        }
        first += count;
    }
    match put_frames(out, &frames) {
        Ok(()) => (core, Ok(())),
        Err(Failed) => (core, Err(RenderStop::Write)),
    }
}
