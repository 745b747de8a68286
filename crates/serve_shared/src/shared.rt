// `run_shared`: a worker that takes turns at the core with others.
ghost use Rattle.std.specs.Prelude.{◌≡◌, [], IfSome};
ghost use Rattle.turn_lock.specs.Entries.{entries_of};
ghost use Rattle.serve_machine.specs.Events.{worker_of};
ghost use Rattle.serve_shared.specs.Seats.{HasWorker, AtWork, IsSeat};
ghost use Rattle.serve_shared.specs.Shares.{Worked, Delivers};
ghost use Rattle.serve_machine.specs.Work.{Delivered};

use crate::gate::Gate;
use crate::produce::produce;
use crate::turns::{deliver_turn, take_turn};
use serve_core::{Core, Worker, Works};
use serve_machine::WindowStop;
use std::alloc::Global;
use std::sync::Wait;
use turn_lock::{LockSeat, TurnLock};

// Takes and delivers the next output. False where none is left or the window was stopped.
fn deliver_next<R: Wait, I: Works, G: Gate>(
    rt: &R,
    alloc: Global,
    lock: &TurnLock<Core<I>>,
    seat: LockSeat<Core<I>>,
    worker: &Worker,
    gate: &G,
) -> (LockSeat<Core<I>>, Result<bool, WindowStop>)
    requires lock { seat.lock ≡ lock.now }
    requires work { AtWork worker.now seat }
    requires delivered { IfSome seat.tag (λ s. Delivered worker.now.plan s.fixed.root worker.now.number seat.own) }
    ensures { Delivers worker.now seat result.0 result.1 }
{
    let (seat, taken) = take_turn(rt, lock, seat, worker);
    let next = match taken {
        Ok(next) => next,
        Err(stop) => return (seat, Err(stop)),
    };
    let Some(key) = next else {
        return (seat, Ok(false));
    };
    let (seat, made) = produce(rt, alloc, lock, seat, worker, gate, key);
    match made {
        Ok(frame) => (deliver_turn(rt, lock, seat, worker, key, frame), Ok(true)),
        Err(stop) => (seat, Err(stop)),
    }
}

/// Takes and delivers outputs of a window, turn by turn, until none is left or the window is stopped. Frames are made
/// between turns. It ends with no claim and no lease: work that a stop cuts short is closed in one turn.
pub fn run_shared<R: Wait, I: Works, G: Gate>(
    rt: &R,
    alloc: Global,
    worker: &mut Worker,
    lock: &TurnLock<Core<I>>,
    seat: LockSeat<Core<I>>,
    gate: &G,
) -> (LockSeat<Core<I>>, Result<(), WindowStop>)
    requires lock { seat.lock ≡ lock.now }
    requires number { seat.number ≡ worker.old.number }
    requires window { IfSome seat.tag (HasWorker worker.old.plan seat.number) }
    requires fresh { seat.own ≡ [] }
    ensures seat { IsSeat seat result.0 }
    ensures own { entries_of worker_of seat.number result.0.seen ≡ result.0.own }
    ensures worked { IfSome seat.tag (λ s. Worked worker.old.plan seat.number s result.0.seen result.0.own result.1) }
    ensures worker { worker.new ≡ worker.old }
{
    // The plan is a graph's, and the seat has a window.
    worker.graph().len();
    seat.number();
    let mut seat = seat;
    for _ in rt.forever() {
        let (later, more) = deliver_next(rt, alloc, lock, seat, worker, gate);
        seat = later;
        match more {
            Ok(true) => {}
            Ok(false) => return (seat, Ok(())),
            Err(stop) => return (seat, Err(stop)),
        }
    }
    unreachable!()
}
