// The production of a key among others: a hit, or its inputs and then itself. Frames are made between turns.
ghost use Rattle.std.specs.Prelude.{◌≡◌, ◌<◌, true, false, [], ◌∷◌, IfOk, IfErr};
ghost use Rattle.clip_graph.specs.Plan.{input_keys, AreOfKeys};
ghost use Rattle.serve_machine.specs.Events.{IsKey, has, mode_at, has_got_all, has_entered};
ghost use Rattle.serve_machine.specs.Work.{CutShort, CutInputs, AllPast};
ghost use Rattle.serve_core.specs.Sources.{shape_at};
ghost use Rattle.serve_shared.specs.Seats.{AllFrom, seat_holdings, Adds, HasSeat, AtWork, RightFor};
ghost use Rattle.serve_shared.specs.Shares.{StopsWithin, Produced, Gathered, Made, Finished, AllRightFor, CutMake};
ghost use Rattle.serve_shared.specs.Turns.{Asks, Gets, Lends, TurnPublishes, IsLent};

use crate::gate::{Gate, GatePoint};
use crate::steps::{Entry, Found};
use crate::turns::{
    ask_turn, enter_turn, fail_turn, give_back_turn, leave_turn, memory_turn, publish_turn,
};
use clip_frames::input_at;
use fv_plane::{Frame, FrameMemory, Key};
use inst_table::{Held, Lease};
use serve_core::{Core, Worker, Works};
use serve_machine::WindowStop;
use std::alloc::Global;
use std::sync::Wait;
use turn_lock::{LockSeat, TurnLock};

// Asks for a frame until no other worker has the claim on it. `None` says that the worker has the claim now.
fn claim<R: Wait, I: Held>(
    rt: &R,
    lock: &TurnLock<Core<I>>,
    seat: LockSeat<Core<I>>,
    worker: &Worker,
    key: Key,
) -> (LockSeat<Core<I>>, Result<Option<Frame>, WindowStop>)
    requires lock { seat.lock ≡ lock.now }
    requires work { AtWork worker.now seat }
    requires key { IsKey worker.now.plan key }
    requires open { has key (seat_holdings worker.now seat).claims ≡ false }
    ensures { Asks I.Held worker.now seat key result.1 result.0 }
{
    let mut seat = seat;
    for _ in rt.forever() {
        let (later, found) = ask_turn(rt, lock, seat, worker, key);
        seat = later;
        match found {
            Ok(Found::Hit(frame)) => return (seat, Ok(Some(frame))),
            Ok(Found::Claimed) => return (seat, Ok(None)),
            Ok(Found::Taken { heard }) => lock.bell().wait(rt, heard),
            Err(stop) => return (seat, Err(stop)),
        }
    }
    unreachable!()
}

// Asks for the worker's instance of a claim's node until no other worker has it, and takes memory for the frame with
// it.
fn acquire<R: Wait, I: Works>(
    rt: &R,
    lock: &TurnLock<Core<I>>,
    seat: LockSeat<Core<I>>,
    worker: &Worker,
    key: Key,
) -> (LockSeat<Core<I>>, Result<Lease<I>, WindowStop>, FrameMemory)
    requires lock { seat.lock ≡ lock.now }
    requires work { AtWork worker.now seat }
    requires key { IsKey worker.now.plan key }
    requires mode { (mode_at worker.now.plan key.node ≡ 1) → ⊥ }
    requires claim { has key (seat_holdings worker.now seat).claims ≡ true }
    ensures { Gets I.Held worker.now seat key.node result.1 result.0 }
{
    let mut seat = seat;
    for _ in rt.forever() {
        let (later, entry, memory) = enter_turn(rt, lock, seat, worker, key);
        seat = later;
        match entry {
            Ok(Entry::Leased(lease)) => return (seat, Ok(lease), memory),
            Ok(Entry::Busy { heard }) => lock.bell().wait(rt, heard),
            Err(stop) => return (seat, Err(stop), memory),
        }
    }
    unreachable!()
}

// Works with an instance that is out, and gives it back.
fn lend<R: Wait, I: Works>(
    rt: &R,
    alloc: Global,
    memory: FrameMemory,
    lock: &TurnLock<Core<I>>,
    seat: LockSeat<Core<I>>,
    worker: &Worker,
    key: Key,
    frames: &[Frame],
    lease: Lease<I>,
) -> (LockSeat<Core<I>>, Result<Frame, WindowStop>)
    requires lock { seat.lock ≡ lock.now }
    requires sits { HasSeat worker.now seat }
    requires key { IsKey worker.now.plan key }
    requires shapes { AreOfKeys worker.now.plan (input_keys worker.now.plan key) frames.now }
    requires right { AllRightFor I.Held worker.now seat (input_keys worker.now.plan key) frames.now }
    requires out { (seat_holdings worker.now seat).leases ≡ lease.place ∷ [] }
    requires entered { has_entered worker.now.number key.node seat.own ≡ true }
    requires lent { IsLent I.Held worker.now seat key.node lease }
    ensures { Lends I.Held worker.now seat key result.1 result.0 }
{
    let mut lease = lease;
    match lease
        .value()
        .make(alloc, memory, worker.graph(), key, frames)
    {
        Ok(frame) => (leave_turn(rt, lock, seat, worker, lease), Ok(frame)),
        Err(stop) => (
            give_back_turn(rt, lock, seat, worker, lease, stop),
            Err(stop),
        ),
    }
}

// Memory for the frame of a key, in a turn of its own where it can be spare memory.
fn spare_memory<R: Wait, I: Works>(
    rt: &R,
    lock: &TurnLock<Core<I>>,
    seat: LockSeat<Core<I>>,
    worker: &Worker,
    key: Key,
) -> (LockSeat<Core<I>>, FrameMemory)
    requires lock { seat.lock ≡ lock.now }
    requires work { AtWork worker.now seat }
    requires key { IsKey worker.now.plan key }
    ensures { Adds [] seat result.0 }
{
    if I::takes_memory(worker.graph(), key) {
        memory_turn(rt, lock, seat, worker, key)
    } else {
        (seat, FrameMemory::none())
    }
}

// The frame of a filter without instances.
fn make_plain<R: Wait, I: Works>(
    rt: &R,
    alloc: Global,
    lock: &TurnLock<Core<I>>,
    seat: LockSeat<Core<I>>,
    worker: &Worker,
    key: Key,
    frames: &[Frame],
) -> (LockSeat<Core<I>>, Result<Frame, WindowStop>)
    requires lock { seat.lock ≡ lock.now }
    requires work { AtWork worker.now seat }
    requires key { IsKey worker.now.plan key }
    requires mode { mode_at worker.now.plan key.node ≡ 1 }
    requires shapes { AreOfKeys worker.now.plan (input_keys worker.now.plan key) frames.now }
    requires right { AllRightFor I.Held worker.now seat (input_keys worker.now.plan key) frames.now }
    ensures ok { IfOk result.1 (λ frame. Made I.Held worker.now seat key frame result.0) }
    ensures err { IfErr result.1 (λ stop.
        StopsWithin worker.now (CutMake worker.now.plan worker.now.number key.node) stop seat result.0) }
{
    let (seat, memory) = spare_memory(rt, lock, seat, worker, key);
    match I::make_plain(alloc, memory, worker.graph(), key, frames) {
        Ok(frame) => (seat, Ok(frame)),
        Err(stop) => (fail_turn(rt, lock, seat, worker), Err(stop)),
    }
}

// The frame of a claimed key, from those of its inputs.
fn make<R: Wait, I: Works>(
    rt: &R,
    alloc: Global,
    lock: &TurnLock<Core<I>>,
    seat: LockSeat<Core<I>>,
    worker: &Worker,
    key: Key,
    frames: &[Frame],
) -> (LockSeat<Core<I>>, Result<Frame, WindowStop>)
    requires lock { seat.lock ≡ lock.now }
    requires work { AtWork worker.now seat }
    requires key { IsKey worker.now.plan key }
    requires claim { has key (seat_holdings worker.now seat).claims ≡ true }
    requires shapes { AreOfKeys worker.now.plan (input_keys worker.now.plan key) frames.now }
    requires right { AllRightFor I.Held worker.now seat (input_keys worker.now.plan key) frames.now }
    ensures ok { IfOk result.1 (λ frame. Made I.Held worker.now seat key frame result.0) }
    ensures err { IfErr result.1 (λ stop.
        StopsWithin worker.now (CutMake worker.now.plan worker.now.number key.node) stop seat result.0) }
{
    if worker.graph().node(key.node).mode == 1 {
        return make_plain(rt, alloc, lock, seat, worker, key, frames);
    }
    let (seat, acquired, memory) = acquire(rt, lock, seat, worker, key);
    match acquired {
        Ok(lease) => lend(rt, alloc, memory, lock, seat, worker, key, frames, lease),
        Err(stop) => (seat, Err(stop)),
    }
}

// Publishes a share of the frame of a claimed key.
fn publish<R: Wait, I: Works>(
    rt: &R,
    lock: &TurnLock<Core<I>>,
    seat: LockSeat<Core<I>>,
    worker: &Worker,
    key: Key,
    frame: &Frame,
) -> (LockSeat<Core<I>>, Result<(), WindowStop>)
    requires lock { seat.lock ≡ lock.now }
    requires work { AtWork worker.now seat }
    requires claim { has key (seat_holdings worker.now seat).claims ≡ true }
    requires got { has_got_all worker.now.number (input_keys worker.now.plan key) seat.own ≡ true }
    requires shape { frame.now.shape ≡ shape_at worker.now.plan key.node }
    requires right { RightFor I.Held worker.now.plan seat key frame.now }
    ensures { TurnPublishes worker.now seat key result.1 result.0 }
{
    match frame.share() {
        Ok(kept) => publish_turn(rt, lock, seat, worker, key, kept),
        Err(_) => (fail_turn(rt, lock, seat, worker), Err(WindowStop::Memory)),
    }
}

// Makes and publishes a claimed key.
fn finish<R: Wait, I: Works, G: Gate>(
    rt: &R,
    alloc: Global,
    lock: &TurnLock<Core<I>>,
    seat: LockSeat<Core<I>>,
    worker: &Worker,
    gate: &G,
    key: Key,
    frames: &[Frame],
) -> (LockSeat<Core<I>>, Result<Frame, WindowStop>)
    requires lock { seat.lock ≡ lock.now }
    requires work { AtWork worker.now seat }
    requires key { IsKey worker.now.plan key }
    requires claim { has key (seat_holdings worker.now seat).claims ≡ true }
    requires got { has_got_all worker.now.number (input_keys worker.now.plan key) seat.own ≡ true }
    requires shapes { AreOfKeys worker.now.plan (input_keys worker.now.plan key) frames.now }
    requires right { AllRightFor I.Held worker.now seat (input_keys worker.now.plan key) frames.now }
    ensures ok { IfOk result.1 (λ frame. Finished I.Held worker.now seat key frame result.0) }
    ensures err { IfErr result.1 (λ stop.
        StopsWithin worker.now (CutMake worker.now.plan worker.now.number key.node) stop seat result.0) }
{
    let (seat, made) = make(rt, alloc, lock, seat, worker, key, frames);
    let frame = match made {
        Ok(frame) => frame,
        Err(stop) => return (seat, Err(stop)),
    };
    gate.at(worker.number(), GatePoint::Made(key));
    let (seat, published) = publish(rt, lock, seat, worker, key, &frame);
    match published {
        Ok(()) => (seat, Ok(frame)),
        Err(stop) => (seat, Err(stop)),
    }
}

/// Produces a key, for a worker whose claims are all on later nodes: a hit, or its inputs and then itself. After an
/// `Err` the worker has closed all its work.
#[cycle(shared)]
pub(crate) fn produce<R: Wait, I: Works, G: Gate>(
    rt: &R,
    alloc: Global,
    lock: &TurnLock<Core<I>>,
    seat: LockSeat<Core<I>>,
    worker: &Worker,
    gate: &G,
    key: Key,
) -> (LockSeat<Core<I>>, Result<Frame, WindowStop>)
    requires lock { seat.lock ≡ lock.now }
    requires work { AtWork worker.now seat }
    requires key { IsKey worker.now.plan key }
    requires past { AllPast key.node (seat_holdings worker.now seat).claims }
    ensures ok { IfOk result.1 (λ frame. Produced I.Held worker.now seat key frame result.0) }
    ensures err { IfErr result.1 (λ stop.
        StopsWithin worker.now (CutShort worker.now.plan worker.now.number key) stop seat result.0) }
{
    let (seat, claimed) = claim(rt, lock, seat, worker, key);
    match claimed {
        Ok(Some(frame)) => return (seat, Ok(frame)),
        Ok(None) => {}
        Err(stop) => return (seat, Err(stop)),
    }
    gate.at(worker.number(), GatePoint::Claimed(key));
    let (seat, gathered) = gather(rt, alloc, lock, seat, worker, gate, key);
    match gathered {
        Ok(frames) => finish(rt, alloc, lock, seat, worker, gate, key, &frames),
        Err(stop) => (seat, Err(stop)),
    }
}

// Produces the inputs of a claimed key, one after the other.
#[cycle(shared)]
fn gather<R: Wait, I: Works, G: Gate>(
    rt: &R,
    alloc: Global,
    lock: &TurnLock<Core<I>>,
    seat: LockSeat<Core<I>>,
    worker: &Worker,
    gate: &G,
    key: Key,
) -> (LockSeat<Core<I>>, Result<Vec<Frame>, WindowStop>)
    requires lock { seat.lock ≡ lock.now }
    requires work { AtWork worker.now seat }
    requires key { IsKey worker.now.plan key }
    requires from { AllFrom key.node (seat_holdings worker.now seat).claims }
    ensures ok { IfOk result.1 (λ frames. Gathered I.Held worker.now seat
        (input_keys worker.now.plan key) frames.items result.0) }
    ensures err { IfErr result.1 (λ stop. StopsWithin worker.now
        (CutInputs worker.now.plan worker.now.number (input_keys worker.now.plan key)) stop seat result.0) }
{
    let mut seat = seat;
    let mut frames = Vec::new(alloc);
    let mut i = 0;
    while let Some(input) = input_at(worker.graph(), key, i) {
        let (later, made) = produce(rt, alloc, lock, seat, worker, gate, input);
        seat = later;
        let frame = match made {
            Ok(frame) => frame,
            Err(stop) => return (seat, Err(stop)),
        };
        let Ok(()) = frames.push(frame) else {
            return (fail_turn(rt, lock, seat, worker), Err(WindowStop::Memory));
        };
        // A frame of more inputs than can be counted would be out of memory before.
        let Some(next) = i.checked_add(1) else {
            return (fail_turn(rt, lock, seat, worker), Err(WindowStop::Memory));
        };
        i = next;
    }
    (seat, Ok(frames))
}
