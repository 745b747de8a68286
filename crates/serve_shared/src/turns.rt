// Each function takes one turn at the lock.
ghost use Rattle.std.specs.Prelude.{◌≡◌, ◌<◌, true, false, [], ◌∷◌, IfSome};
ghost use Rattle.clip_graph.specs.Plan.{input_keys};
ghost use Rattle.serve_machine.specs.declared.event.Event.TheVariants.{Leave, Deliver};
ghost use Rattle.serve_machine.specs.declared.event.WindowStop.TheVariants.{Memory};
ghost use Rattle.serve_machine.specs.Events.{IsKey, has, mode_at, has_got, has_got_all};
ghost use Rattle.serve_machine.specs.Holdings.{has_number};
ghost use Rattle.serve_core.specs.Sources.{shape_at};
ghost use Rattle.serve_shared.specs.Seats.{seat_holdings, HasSeat, AtWork, Adds, RightFor};
ghost use Rattle.serve_shared.specs.Shares.{StopsNow};
ghost use Rattle.serve_shared.specs.Turns.{TurnAsks, TurnEnters, TurnTakes, TurnPublishes, IsLent, HasStopped};

use crate::steps::{Entry, Found, ask, enter, fail, leave, publish, take};
use fv_plane::{Frame, FrameMemory, Key};
use inst_table::{Held, Lease};
use serve_core::{Core, Worker, Works};
use serve_machine::WindowStop;
use std::sync::Wait;
use turn_lock::{Bell, LockSeat, Stroke, TurnLock};

// Wakes those who wait outside the lock, after a turn with a stroke.
fn wake_after(bell: &Bell, stroke: Option<Stroke>) {
    if let Some(stroke) = stroke {
        bell.wake(stroke);
    }
}

/// Asks for a frame.
pub(crate) fn ask_turn<R: Wait, I: Held>(
    rt: &R,
    lock: &TurnLock<Core<I>>,
    seat: LockSeat<Core<I>>,
    worker: &Worker,
    key: Key,
) -> (LockSeat<Core<I>>, Result<Found, WindowStop>)
    requires lock { seat.lock ≡ lock.now }
    requires work { AtWork worker.now seat }
    requires key { IsKey worker.now.plan key }
    requires open { has key (seat_holdings worker.now seat).claims ≡ false }
    ensures { TurnAsks I.Held worker.now seat key result.1 result.0 }
{
    let (mut core, turn) = lock.enter(rt, seat);
    // In a window the journal is a run.
    core.account();
    let (found, stroke) = ask(&mut core, lock.bell(), worker.number(), key);
    let seat = lock.leave(turn, core);
    wake_after(lock.bell(), stroke);
    (seat, found)
}

/// Takes memory for the frame of a key.
pub(crate) fn memory_turn<R: Wait, I: Works>(
    rt: &R,
    lock: &TurnLock<Core<I>>,
    seat: LockSeat<Core<I>>,
    worker: &Worker,
    key: Key,
) -> (LockSeat<Core<I>>, FrameMemory)
    requires lock { seat.lock ≡ lock.now }
    requires work { AtWork worker.now seat }
    requires key { IsKey worker.now.plan key }
    ensures { Adds [] seat result.0 }
{
    let (mut core, turn) = lock.enter(rt, seat);
    // In a window the journal is a run.
    core.account();
    let memory = core.memory_for(key);
    let seat = lock.leave(turn, core);
    (seat, memory)
}

/// Asks for the worker's instance of a claim's node, and takes memory for the frame with it.
pub(crate) fn enter_turn<R: Wait, I: Works>(
    rt: &R,
    lock: &TurnLock<Core<I>>,
    seat: LockSeat<Core<I>>,
    worker: &Worker,
    key: Key,
) -> (LockSeat<Core<I>>, Result<Entry<I>, WindowStop>, FrameMemory)
    requires lock { seat.lock ≡ lock.now }
    requires work { AtWork worker.now seat }
    requires key { IsKey worker.now.plan key }
    requires mode { (mode_at worker.now.plan key.node ≡ 1) → ⊥ }
    requires claim { has key (seat_holdings worker.now seat).claims ≡ true }
    ensures { TurnEnters I.Held worker.now seat key.node result.1 result.0 }
{
    let (mut core, turn) = lock.enter(rt, seat);
    // In a window the journal is a run.
    core.account();
    let (entry, memory, stroke) = enter(&mut core, lock.bell(), worker.number(), key);
    let seat = lock.leave(turn, core);
    wake_after(lock.bell(), stroke);
    (seat, entry, memory)
}

/// Gives an instance back.
pub(crate) fn leave_turn<R: Wait, I: Held>(
    rt: &R,
    lock: &TurnLock<Core<I>>,
    seat: LockSeat<Core<I>>,
    worker: &Worker,
    lease: Lease<I>,
) -> LockSeat<Core<I>>
    requires lock { seat.lock ≡ lock.now }
    requires sits { HasSeat worker.now seat }
    requires out { (seat_holdings worker.now seat).leases ≡ lease.place ∷ [] }
    requires lent { IsLent I.Held worker.now seat lease.place.node lease }
    ensures { Adds (Leave worker.now.number lease.place.node lease.place.instance ∷ []) seat result }
{
    let (mut core, turn) = lock.enter(rt, seat);
    // In a window the journal is a run.
    core.account();
    let stroke = leave(&mut core, lock.bell(), worker.number(), lease);
    let seat = lock.leave(turn, core);
    lock.bell().wake(stroke);
    seat
}

/// Gives back an instance that made no frame, and closes the worker's work.
pub(crate) fn give_back_turn<R: Wait, I: Held>(
    rt: &R,
    lock: &TurnLock<Core<I>>,
    seat: LockSeat<Core<I>>,
    worker: &Worker,
    lease: Lease<I>,
    stop: WindowStop,
) -> LockSeat<Core<I>>
    requires lock { seat.lock ≡ lock.now }
    requires sits { HasSeat worker.now seat }
    requires out { (seat_holdings worker.now seat).leases ≡ lease.place ∷ [] }
    requires stopped { HasStopped I.Held worker.now seat lease stop }
    ensures { StopsNow worker.now stop
        (Leave worker.now.number lease.place.node lease.place.instance ∷ []) seat result }
{
    let number = worker.number();
    let (mut core, turn) = lock.enter(rt, seat);
    // In a window the journal is a run.
    core.account();
    core.leave(number, lease);
    let stroke = fail(&mut core, lock.bell(), number, stop);
    let seat = lock.leave(turn, core);
    lock.bell().wake(stroke);
    seat
}

/// Closes the work of a worker that is out of memory.
pub(crate) fn fail_turn<R: Wait, I: Held>(
    rt: &R,
    lock: &TurnLock<Core<I>>,
    seat: LockSeat<Core<I>>,
    worker: &Worker,
) -> LockSeat<Core<I>>
    requires lock { seat.lock ≡ lock.now }
    requires work { AtWork worker.now seat }
    ensures { StopsNow worker.now Memory [] seat result }
{
    let (mut core, turn) = lock.enter(rt, seat);
    // In a window the journal is a run.
    core.account();
    let stroke = fail(&mut core, lock.bell(), worker.number(), WindowStop::Memory);
    let seat = lock.leave(turn, core);
    lock.bell().wake(stroke);
    seat
}

/// Publishes the frame of a claim.
pub(crate) fn publish_turn<R: Wait, I: Held>(
    rt: &R,
    lock: &TurnLock<Core<I>>,
    seat: LockSeat<Core<I>>,
    worker: &Worker,
    key: Key,
    frame: Frame,
) -> (LockSeat<Core<I>>, Result<(), WindowStop>)
    requires lock { seat.lock ≡ lock.now }
    requires work { AtWork worker.now seat }
    requires claim { has key (seat_holdings worker.now seat).claims ≡ true }
    requires got { has_got_all worker.now.number (input_keys worker.now.plan key) seat.own ≡ true }
    requires shape { frame.shape ≡ shape_at worker.now.plan key.node }
    requires right { RightFor I.Held worker.now.plan seat key frame }
    ensures { TurnPublishes worker.now seat key result.1 result.0 }
{
    let (mut core, turn) = lock.enter(rt, seat);
    // In a window the journal is a run.
    core.account();
    let (done, stroke) = publish(&mut core, lock.bell(), worker.number(), key, frame);
    let seat = lock.leave(turn, core);
    lock.bell().wake(stroke);
    (seat, done)
}

/// Takes the next output.
pub(crate) fn take_turn<R: Wait, I: Held>(
    rt: &R,
    lock: &TurnLock<Core<I>>,
    seat: LockSeat<Core<I>>,
    worker: &Worker,
) -> (LockSeat<Core<I>>, Result<Option<Key>, WindowStop>)
    requires lock { seat.lock ≡ lock.now }
    requires work { AtWork worker.now seat }
    ensures { TurnTakes worker.now seat result.1 result.0 }
{
    let (mut core, turn) = lock.enter(rt, seat);
    // In a window the journal is a run.
    core.account();
    let (taken, stroke) = take(&mut core, lock.bell(), worker.number());
    let seat = lock.leave(turn, core);
    wake_after(lock.bell(), stroke);
    (seat, taken)
}

/// Delivers an output that the worker took, with the frame of its key.
pub(crate) fn deliver_turn<R: Wait, I: Held>(
    rt: &R,
    lock: &TurnLock<Core<I>>,
    seat: LockSeat<Core<I>>,
    worker: &Worker,
    key: Key,
    frame: Frame,
) -> LockSeat<Core<I>>
    requires lock { seat.lock ≡ lock.now }
    requires work { AtWork worker.now seat }
    requires taken { has_number key.n (seat_holdings worker.now seat).outputs ≡ true }
    requires root { IfSome seat.tag (λ s. key.node ≡ s.fixed.root) }
    requires got { has_got worker.now.number key seat.own ≡ true }
    requires shape { frame.shape ≡ shape_at worker.now.plan key.node }
    requires right { RightFor I.Held worker.now.plan seat key frame }
    ensures { Adds (Deliver worker.now.number key.n ∷ []) seat result }
{
    let (mut core, turn) = lock.enter(rt, seat);
    // In a window the journal is a run.
    core.account();
    core.deliver(worker.number(), key.n, frame);
    lock.leave(turn, core)
}
