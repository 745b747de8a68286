// The production of a key: a hit, or its inputs and then itself.
ghost use Rattle.std.specs.Prelude.{◌≡◌, ◌+◌, ◌<◌, Some, true, IfOk, IfErr};
ghost use Rattle.clip_graph.specs.Plan.{input_keys, AreOfKeys};
ghost use Rattle.frame_cache.specs.Cached.{at_key};
ghost use Rattle.inst_table.specs.Places.{slot_at};
ghost use Rattle.inst_table.specs.declared.place.Slot.TheVariants.{Leased};
ghost use Rattle.serve_machine.specs.Events.{IsKey, has_got_all};
ghost use Rattle.serve_machine.specs.Work.{CutShort, CutInputs};
ghost use Rattle.serve_core.specs.Holds.{claims_at};
ghost use Rattle.serve_core.specs.Sources.{opened_at};
ghost use Rattle.serve_alone.specs.Alone.{Alone, AllFrom};
ghost use Rattle.serve_alone.specs.Made.{Returned, Made, Unmade, Published, Produced, Gathered, Stopped};

use clip_frames::input_at;
use clip_graph::Graph;
use fv_plane::{Frame, FrameMemory, Key};
use inst_table::Lease;
use serve_core::{Admitted, Ask, Core, Works};
use serve_machine::WindowStop;
use std::alloc::Global;

// Works with an instance that is out, and gives it back.
fn lend<I: Works>(
    alloc: Global,
    memory: FrameMemory,
    core: &mut Core<I>,
    lease: Lease<I>,
    graph: &Graph,
    key: Key,
    frames: &[Frame],
) -> Result<Frame, WindowStop>
    requires worker { 0 < core.old.fixed.workers }
    requires plan { core.old.fixed.plan ≡ graph.now }
    requires lease { slot_at lease.place core.old.table ≡ Some (Leased 0) }
    requires node { lease.place.node ≡ key.node }
    requires source { I.holds lease.value ≡ opened_at graph.now key.node }
    requires key { IsKey graph.now key }
    requires shapes { AreOfKeys graph.now (input_keys graph.now key) frames.now }
    ensures { Returned I.Held graph.now key frames.now lease core.old result core.new }
{
    let mut lease = lease;
    let made = lease.value().make(alloc, memory, graph, key, frames);
    core.leave(0, lease);
    made
}

// The frame of a key, from those of its inputs, in spare memory where there is some.
fn make<I: Works>(
    alloc: Global,
    core: &mut Core<I>,
    graph: &Graph,
    key: Key,
    frames: &[Frame],
) -> Result<Frame, WindowStop>
    requires alone { Alone graph.now core.old }
    requires key { IsKey graph.now key }
    requires claim { claims_at 0 key.node core.old.claims ≡ true }
    requires shapes { AreOfKeys graph.now (input_keys graph.now key) frames.now }
    ensures ok { IfOk result (λ frame. Made I.Held graph.now core.old key frames.now frame core.new) }
    ensures err { IfErr result (λ stop. Unmade I.Held graph.now core.old key stop core.new) }
{
    let memory = core.memory_for(key);
    if graph.node(key.node).mode == 1 {
        return I::make_plain(alloc, memory, graph, key, frames);
    }
    match core.enter(0, key.node) {
        Ok(Admitted::Leased(lease)) => lend(alloc, memory, core, lease, graph, key, frames),
        Ok(Admitted::Busy { holder: _ }) => unreachable!(),
        Ok(Admitted::Stopped(_)) => unreachable!(),
        Err(_) => Err(WindowStop::Memory),
    }
}

// Makes and publishes a claimed key.
fn finish<I: Works>(
    alloc: Global,
    core: &mut Core<I>,
    graph: &Graph,
    key: Key,
    frames: &[Frame],
) -> Result<Frame, WindowStop>
    requires alone { Alone graph.now core.old }
    requires key { IsKey graph.now key }
    requires claim { at_key key core.old.claims ≡ Some 0 }
    requires got { has_got_all 0 (input_keys graph.now key) core.old.journal ≡ true }
    requires shapes { AreOfKeys graph.now (input_keys graph.now key) frames.now }
    ensures ok { IfOk result (λ frame. Published I.Held graph.now core.old key frames.now frame core.new) }
    ensures err { IfErr result (λ stop. Unmade I.Held graph.now core.old key stop core.new) }
{
    let frame = match make(alloc, core, graph, key, frames) {
        Ok(frame) => frame,
        Err(stop) => return Err(stop),
    };
    let Ok(kept) = frame.share() else {
        return Err(WindowStop::Memory);
    };
    match core.publish(0, key, kept) {
        Ok(()) => Ok(frame),
        Err(_) => Err(WindowStop::Memory),
    }
}

/// Produces a key, for a worker that is alone and whose claims are all on later nodes: a hit, or its inputs and then
/// itself. After an `Err` no claim of this call is open.
#[cycle(serial)]
pub(crate) fn produce<I: Works>(
    alloc: Global,
    core: &mut Core<I>,
    graph: &Graph,
    key: Key,
) -> Result<Frame, WindowStop>
    requires alone { Alone graph.now core.old }
    requires key { IsKey graph.now key }
    requires above { AllFrom (key.node + 1) core.old.claims }
    ensures ok { IfOk result (λ frame. Produced I.Held graph.now core.old key frame core.new) }
    ensures err { IfErr result (λ stop. Stopped I.Held graph.now core.old (CutShort graph.now 0 key) stop core.new) }
{
    match core.ask(0, key) {
        Ok(Ask::Hit(frame)) => return Ok(frame),
        Ok(Ask::Claimed) => {}
        Ok(Ask::Taken { by: _ }) => unreachable!(),
        Ok(Ask::Stopped(_)) => unreachable!(),
        Err(_) => return Err(WindowStop::Memory),
    }
    let frames = match gather(alloc, core, graph, key) {
        Ok(frames) => frames,
        Err(stop) => {
            core.abandon(0, key);
            return Err(stop);
        }
    };
    match finish(alloc, core, graph, key, &frames) {
        Ok(frame) => Ok(frame),
        Err(stop) => {
            core.abandon(0, key);
            Err(stop)
        }
    }
}

// Produces the inputs of a key, one after the other.
#[cycle(serial)]
fn gather<I: Works>(
    alloc: Global,
    core: &mut Core<I>,
    graph: &Graph,
    key: Key,
) -> Result<Vec<Frame>, WindowStop>
    requires alone { Alone graph.now core.old }
    requires key { IsKey graph.now key }
    requires above { AllFrom key.node core.old.claims }
    ensures ok { IfOk result (λ frames. Gathered I.Held graph.now core.old key.node
        (input_keys graph.now key) frames.items core.new) }
    ensures err { IfErr result (λ stop. Stopped I.Held graph.now core.old
        (CutInputs graph.now 0 (input_keys graph.now key)) stop core.new) }
{
    let mut frames = Vec::new(alloc);
    let mut i = 0;
    while let Some(input) = input_at(graph, key, i) {
        let frame = match produce(alloc, core, graph, input) {
            Ok(frame) => frame,
            Err(stop) => return Err(stop),
        };
        let Ok(()) = frames.push(frame) else {
            return Err(WindowStop::Memory);
        };
        // A frame of more inputs than can be counted would be out of memory before.
        let Some(next) = i.checked_add(1) else {
            return Err(WindowStop::Memory);
        };
        i = next;
    }
    Ok(frames)
}
