// What a worker does to the core in one turn: the events of one call, or those that close its work.
ghost use Rattle.std.specs.Prelude.{◌≡◌, ◌<◌, true, Some, IfOk, IfErr, OnOk};
ghost use Rattle.clip_graph.specs.Plan.{input_keys};
ghost use Rattle.frame_cache.specs.Cached.{at_key};
ghost use Rattle.inst_table.specs.Places.{slot_at};
ghost use Rattle.inst_table.specs.declared.place.Slot.TheVariants.{Leased};
ghost use Rattle.serve_machine.specs.Events.{IsKey, mode_at, has_got_all, may_fail, names_source};
ghost use Rattle.serve_core.specs.Calls.{after_publish, after_leave, after_fail};
ghost use Rattle.serve_core.specs.Holds.{claims_at, holds_none, IsThere};
ghost use Rattle.serve_core.specs.Sources.{shape_at, opened_at};
ghost use Rattle.serve_shared.specs.Steps.{IsRunning, closed, RunsOut, RunsOutFirst, Refuses, Finds, Enters, Takes};

use fv_plane::{Frame, FrameMemory, Key};
use inst_table::{Held, Lease};
use serve_core::{Admitted, Ask, Core, Works};
use serve_machine::WindowStop;
use turn_lock::{Bell, Stroke};

/// What a worker learns that asks for a frame.
pub(crate) enum Found {
    /// It is cached: this is a share of it.
    Hit(Frame),
    /// The worker has the claim on it now.
    Claimed,
    /// Another worker has the claim on it. The bell had this many strokes then.
    Taken { heard: u64 },
}

/// What a worker learns that asks for its instance of a node.
pub(crate) enum Entry<I> {
    /// The instance, which has to be given back.
    Leased(Lease<I>),
    /// Another worker has it. The bell had this many strokes then.
    Busy { heard: u64 },
}

// Gives up each claim of the worker, the newest first.
fn give_up<I: Held>(core: &mut Core<I>, bell: &Bell, number: u32) -> Stroke
    requires worker { number < core.old.fixed.workers }
    requires window { 0 < core.old.fixed.count }
    ensures { core.new ≡ closed number core.old }
{
    // In a window the journal is a run, so that no two claims are on one key.
    core.account();
    'claims: while let Some(key) = core.newest_claim(number) {
        core.abandon(number, key);
    }
    bell.strike()
}

/// Closes what the worker has open, and fails.
pub(crate) fn fail<I: Held>(
    core: &mut Core<I>,
    bell: &Bell,
    number: u32,
    stop: WindowStop,
) -> Stroke
    requires worker { IsRunning number core.old }
    requires cause { may_fail number stop core.old.journal ≡ true }
    requires source { names_source core.old.fixed.plan stop ≡ true }
    requires there { IsThere core.old.table stop }
    ensures { core.new ≡ after_fail (closed number core.old) number stop }
{
    let stroke = give_up(core, bell, number);
    core.fail(number, stop);
    stroke
}

// Fails as there is no memory.
fn run_out<I: Held>(core: &mut Core<I>, bell: &Bell, number: u32) -> (WindowStop, Stroke)
    requires { IsRunning number core.old }
    ensures { RunsOut number result.0 core.old core.new }
{
    let stroke = fail(core, bell, number, WindowStop::Memory);
    (WindowStop::Memory, stroke)
}

/// Asks for a frame. A worker that gets no answer has closed its work, with a stroke.
pub(crate) fn ask<I: Held>(
    core: &mut Core<I>,
    bell: &Bell,
    number: u32,
    key: Key,
) -> (Result<Found, WindowStop>, Option<Stroke>)
    requires worker { IsRunning number core.old }
    requires key { IsKey core.old.fixed.plan key }
    requires open { at_key key core.old.claims ≡ Some number → ⊥ }
    ensures ok { IfOk result.0 (λ found. Finds core.old number key found core.new) }
    ensures err { IfErr result.0 (λ stop. Refuses number stop core.old core.new) }
{
    match core.ask(number, key) {
        Ok(Ask::Hit(frame)) => (Ok(Found::Hit(frame)), None),
        Ok(Ask::Claimed) => (Ok(Found::Claimed), None),
        Ok(Ask::Taken { by: _ }) => {
            let heard = bell.strokes();
            (Ok(Found::Taken { heard }), None)
        }
        Ok(Ask::Stopped(stop)) => (Err(stop), Some(give_up(core, bell, number))),
        Err(_) => {
            let (stop, stroke) = run_out(core, bell, number);
            (Err(stop), Some(stroke))
        }
    }
}

/// Asks for the worker's instance of a claim's node, and takes memory for the frame with it. A worker that gets no
/// answer has closed its work, with a stroke.
pub(crate) fn enter<I: Works>(
    core: &mut Core<I>,
    bell: &Bell,
    number: u32,
    key: Key,
) -> (Result<Entry<I>, WindowStop>, FrameMemory, Option<Stroke>)
    requires worker { IsRunning number core.old }
    requires key { IsKey core.old.fixed.plan key }
    requires mode { (mode_at core.old.fixed.plan key.node ≡ 1) → ⊥ }
    requires claim { claims_at number key.node core.old.claims ≡ true }
    requires hands { holds_none number core.old.table ≡ true }
    ensures ok { IfOk result.0 (λ entry. Enters I.holds core.old number key.node entry core.new) }
    ensures err { IfErr result.0 (λ stop. Refuses number stop core.old core.new) }
{
    match core.enter(number, key.node) {
        Ok(Admitted::Leased(lease)) => {
            let memory = core.memory_for(key);
            (Ok(Entry::Leased(lease)), memory, None)
        }
        Ok(Admitted::Busy { holder: _ }) => {
            let heard = bell.strokes();
            (Ok(Entry::Busy { heard }), FrameMemory::none(), None)
        }
        Ok(Admitted::Stopped(stop)) => {
            let stroke = give_up(core, bell, number);
            (Err(stop), FrameMemory::none(), Some(stroke))
        }
        Err(_) => {
            let (stop, stroke) = run_out(core, bell, number);
            (Err(stop), FrameMemory::none(), Some(stroke))
        }
    }
}

/// Gives an instance back.
pub(crate) fn leave<I: Held>(
    core: &mut Core<I>,
    bell: &Bell,
    number: u32,
    lease: Lease<I>,
) -> Stroke
    requires worker { number < core.old.fixed.workers }
    requires lease { slot_at lease.place core.old.table ≡ Some (Leased number) }
    requires source { I.holds lease.value ≡ opened_at core.old.fixed.plan lease.place.node }
    ensures { core.new ≡ after_leave core.old number lease.place lease.value }
{
    core.leave(number, lease);
    bell.strike()
}

/// Publishes the frame of a claim. A worker that can't has closed its work.
pub(crate) fn publish<I: Held>(
    core: &mut Core<I>,
    bell: &Bell,
    number: u32,
    key: Key,
    frame: Frame,
) -> (Result<(), WindowStop>, Stroke)
    requires worker { IsRunning number core.old }
    requires claim { at_key key core.old.claims ≡ Some number }
    requires hands { holds_none number core.old.table ≡ true }
    requires got { has_got_all number (input_keys core.old.fixed.plan key) core.old.journal ≡ true }
    requires shape { frame.shape ≡ shape_at core.old.fixed.plan key.node }
    ensures ok { OnOk result.0 (core.new ≡ after_publish core.old number key frame) }
    ensures err { IfErr result.0 (λ stop. RunsOut number stop core.old core.new) }
{
    match core.publish(number, key, frame) {
        Ok(()) => (Ok(()), bell.strike()),
        Err(_) => {
            let (stop, stroke) = run_out(core, bell, number);
            (Err(stop), stroke)
        }
    }
}

/// Takes the next output, and answers its frame's key. `None` comes where none is left or the window was stopped.
pub(crate) fn take<I: Held>(
    core: &mut Core<I>,
    bell: &Bell,
    number: u32,
) -> (Result<Option<Key>, WindowStop>, Option<Stroke>)
    requires { IsRunning number core.old }
    ensures ok { IfOk result.0 (λ key. Takes core.old number key core.new) }
    ensures err { IfErr result.0 (λ stop. RunsOutFirst number stop core.old core.new) }
{
    let node = core.root();
    match core.take_output(number) {
        Ok(Some(n)) => (Ok(Some(Key { node, n })), None),
        Ok(None) => (Ok(None), None),
        Err(_) => {
            let (stop, stroke) = run_out(core, bell, number);
            (Err(stop), Some(stroke))
        }
    }
}
