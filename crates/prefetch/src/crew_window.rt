// A window whose outputs several workers make, while the frames of the last one are put.
ghost use Rattle.std.specs.Prelude.{◌≡◌, ◌+◌, ◌-◌, ◌<◌, ◌≤◌, ℕ, min, [], length, All, IfOk, IfSome, OnErr};
ghost use Rattle.std.specs.Arc.{arc_value};
ghost use Rattle.std.specs.Vec.{vec_len};
ghost use Rattle.std.specs.Thread.{IsSend, IsSync};
ghost use Rattle.prefetch.specs.Crew.{MayWork, WorkedAt, MayGather, IsGathered, IsNew, WorkIsDone, IsCrewWindow, IsCutCrew};
ghost use Rattle.prefetch.specs.Windows.{PutsFrames, WindowEnds};
ghost use Rattle.prefetch.specs.Starts.{MayBegin};

use crate::chore::{Chore, PutFrames};
use crate::frames::put_frames;
use clip_graph::Graph;
use fv_io::{Failed, Sink};
use fv_plane::Frame;
use serve_core::{Core, Finished, Worker, Works};
use serve_machine::WindowStop;
use serve_shared::{Gate, run_shared};
use std::alloc::{AllocError, Global};
use std::sync::{Arc, Wait};
use std::thread;
use std::thread::Threads;
use turn_lock::{LockSeat, NoLock, TurnLock};

// Works at a seat until the window has no more outputs, or is stopped.
fn work_at<R: Wait, I: Works, G: Gate>(
    rt: &R,
    alloc: Global,
    lock: &TurnLock<Core<I>>,
    seat: LockSeat<Core<I>>,
    graph: Arc<Graph>,
    gate: &G,
) -> LockSeat<Core<I>>
    requires { MayWork (arc_value graph) lock.now seat }
    ensures { WorkedAt (arc_value graph) seat result }
{
    let mut worker = Worker::new(seat.number(), graph);
    run_shared(rt, alloc, &mut worker, lock, seat, gate).0
}

// Does the chore and works at the seat, and in a thread of its own at a seat more for each share of the graph. In the
// end a last seat, which adds nothing, takes in all others, with what each of them had seen.
fn crew<R: Threads + Wait + Sync, I: Works + Send, G: Gate, T: Chore>(
    rt: &R,
    alloc: Global,
    lock: &TurnLock<Core<I>>,
    seat: LockSeat<Core<I>>,
    graph: Arc<Graph>,
    shares: Vec<Arc<Graph>>,
    gate: &G,
    chore: T,
) -> (LockSeat<Core<I>>, T::Output)
    requires same { All (λ share. arc_value share ≡ arc_value graph) shares.items }
    requires seat { MayGather (arc_value graph) lock.now (vec_len shares) seat }
    ensures gathered { IsGathered (arc_value graph) (vec_len shares) seat result.0 }
    ensures done { T.gives chore result.1 }
{
    let mut shares = shares;
    let Some(share) = shares.pop() else {
        let done = chore.run();
        let seat = work_at(rt, alloc, lock, seat, graph, gate);
        let (seat, last) = lock.split(seat);
        return (lock.join(last, seat), done);
    };
    let (seat, other) = lock.split(seat);
    let (other, (seat, done)) = thread::join(
        rt,
        move || -> LockSeat<Core<I>>
            requires { MayWork (arc_value share) lock.now other }
            ensures { WorkedAt (arc_value share) other result }
        { work_at(rt, alloc, lock, other, share, gate) },
        move || -> (LockSeat<Core<I>>, T::Output)
            requires { IsSync R.row × IsSync G.row × IsSend I.row
                × All (λ share. arc_value share ≡ arc_value graph) shares.items
                × MayGather (arc_value graph) lock.now (vec_len shares) seat }
            ensures { IsGathered (arc_value graph) (vec_len shares) seat result.0 × T.gives chore result.1 }
        { crew(rt, alloc, lock, seat, graph, shares, gate, chore) },
    );
    (lock.join(seat, other), done)
}

// So many shares of a graph.
fn shares_of(alloc: Global, graph: &Arc<Graph>, count: u32) -> Result<Vec<Arc<Graph>>, AllocError>
    ensures count { IfOk result (λ shares. vec_len shares ≡ count) }
    ensures same { IfOk result (λ shares. All (λ share. arc_value share ≡ arc_value graph.now) shares.items) }
{
    let mut shares = Vec::with_capacity(alloc, count as usize)?;
    for _ in 0..count {
        shares.push(Arc::try_clone(graph)?)?;
    }
    Ok(shares)
}

// The window without a worker, for want of memory.
fn without_workers<I: Works>(core: Core<I>) -> Core<I>
    requires fresh { IsNew core }
    ensures worked { WorkIsDone I.Held core result }
{
    let mut core = core;
    core.fail(0, WindowStop::Memory);
    core
}

// A window that has begun, by so many workers until its end. The caller does the chore before it works.
fn run_crew<R: Threads + Wait + Sync, I: Works + Send, G: Gate, T: Chore>(
    rt: &R,
    alloc: Global,
    core: Core<I>,
    workers: u32,
    gate: &G,
    chore: T,
) -> (Core<I>, T::Output)
    requires fresh { IsNew core }
    requires some { 0 < workers }
    requires few { workers ≤ 32 }
    requires there { workers ≤ core.fixed.workers }
    ensures worked { WorkIsDone I.Held core result.0 }
    ensures done { T.gives chore result.1 }
{
    let Ok(graph) = Arc::try_clone(core.graph()) else {
        return (without_workers(core), chore.run());
    };
    let Ok(shares) = shares_of(alloc, &graph, workers - 1) else {
        return (without_workers(core), chore.run());
    };
    match TurnLock::new(alloc, core, workers + 1) {
        Ok((lock, seat)) => {
            let (seat, done) = crew(rt, alloc, &lock, seat, graph, shares, gate, chore);
            (lock.close(seat), done)
        }
        Err(NoLock { value }) => (without_workers(value), chore.run()),
    }
}

// Does nothing, but its use of a reference that was given back ties it to the one that was lent.
fn take_back<T>(x: &mut T)
    ensures { x.new ≡ x.old }
{}

/// A window by several workers, but no more than it has outputs, from its beginning to its end. The caller puts these
/// frames meanwhile, before it works itself. In the end the core gets their memory.
pub(crate) fn run_crew_window<R: Threads + Wait + Sync, I: Works + Send, K: Sink, G: Gate>(
    rt: &R,
    alloc: Global,
    core: Core<I>,
    threads: u32,
    first: u32,
    count: u32,
    gate: &G,
    out: &mut K,
    frames: Vec<Option<Frame>>,
) -> (Core<I>, Result<Finished, AllocError>, Result<(), Failed>)
    requires may { MayBegin core first count }
    requires workers { core.fixed.workers ≡ threads }
    ensures ends { IfOk result.1 (λ finished. WindowEnds I.Held core (IsCrewWindow core first count)
        (IsCutCrew core first count) first count finished finished.stop result.0) }
    ensures err { OnErr result.1 (result.0 ≡ core) }
    ensures put { PutsFrames K.Sink out.old out.new frames.items result.2 }
{
    let mut core = core;
    // Each instance keeps its source before the window and after it, when all of them are back.
    core.instances();
    match core.begin_window(first, count) {
        Ok(()) => {}
        Err(AllocError) => {
            let put = put_frames(out, &frames);
            return (core, Err(AllocError), put);
        }
    }
    let chore = PutFrames { out, frames };
    let (mut core, (out, frames, put)) = run_crew(rt, alloc, core, threads.min(count), gate, chore);
    take_back(out);
    // The instances keep their sources, and until the window ends its journal is a run.
    core.instances();
    core.account();
    let finished = core.end_window();
    core.keep_memory(frames);
    (core, Ok(finished), put)
}
