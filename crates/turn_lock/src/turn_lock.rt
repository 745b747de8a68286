// `TurnLock`: a value that threads use in turns, in the order in which they asked.
ghost use Rattle.std.specs.Prelude.{◌≡◌, ℕ, ◌+◌, ◌%◌, ◌^◌, ◌<◌, ◌≤◌, List, [], ◌∷◌, ◌++◌, All, Some, None, IsSome, IfOk, IfErr, IfSome};
ghost use Rattle.turn_lock.specs.Entries.{IsPrefix, entries_of, AddsOnly};
ghost use Rattle.turn_lock.specs.SeatView.{first_seat, joined_seat, HasAllNumbers};
ghost use Rattle.turn_lock.specs.Steps.{holding, Finds};
ghost use Rattle.turn_lock.specs.Places.{IsLockTable};
ghost use Rattle.turn_lock.specs.declared.view.Stage.TheVariants.{Waits};

use crate::bell::{Bell, LOOKS};
use crate::booked::Booked;
use crate::rule::{
    Board, DrawTicket, GiveOut, LookAtServing, Place, SERVING, ServeNext, Start, TICKET, TakeIn,
    VALUE,
};
use crate::seat::{LockSeat, Turn};
use atomic_table::{Refused, Table};
use std::alloc::{AllocFailed, Global};
use std::hint::spin_loop;
use std::marker::Model;
use std::snapshot::Snapshot;
use std::sync::Wait;
use std::sync::atomic::{AtomicU64, Ordering};

/// A lock that its seats take turns at, in the order of their tickets.
pub struct TurnLock<V: Booked> {
    board: Board<V>,
    // How many threads sleep until another ticket is served, or are about to.
    sleepers: AtomicU64,
    bell: Bell,
}

impl<V: Booked> Model for TurnLock<V> {
    ghost use Rattle.atomic_table.specs.Seated.{TableId};
    ghost use Rattle.turn_lock.specs.Places.{IsLockTable};

    // Which lock it is.
    ghost Value = { TableId };

    ghost view = { λ l. l.board.shared.table_id };

    ghost invariant = { λ l. IsLockTable l.board.shared.table_id };
}

/// Out of memory. The value comes back.
#[derive(Drop)]
pub struct NoLock<V> {
    pub value: V,
}

impl<V: Booked> TurnLock<V> {
    /// A lock over a value without entries, and its first seat, which may give out the numbers from 1 to `seats` - 1.
    pub fn new(alloc: Global, value: V, seats: u32) -> Result<(TurnLock<V>, LockSeat<V>), NoLock<V>>
        requires bare { V.entries value ≡ [] }
        requires stands { V.stands_for value (V.opening value) }
        requires seats { 0 < seats }
        ensures seat { IfOk result (λ made. made.1 ≡ first_seat made.0 seats (V.opening value)) }
        ensures value { IfErr result (λ refused. refused.value ≡ value) }
    {
        let start = Start {
            value: Snapshot::of(&value),
            seats,
        };
        let mut slots = Vec::new(alloc);
        if let Err(failed) = slots.push(Some(value)) {
            let AllocFailed { value } = failed;
            slots.destroy_empty();
            return Err(NoLock {
                value: value.unwrap(),
            });
        }
        match Table::new(alloc, &[0, 0], slots, &start) {
            Ok((board, place)) => Ok((
                TurnLock {
                    board,
                    sleepers: AtomicU64::new(0),
                    bell: Bell::new(),
                },
                LockSeat {
                    place,
                    number: 0,
                    next: 1,
                },
            )),
            Err(Refused { mut slots }) => {
                let value = slots.pop().unwrap().unwrap();
                slots.destroy_empty();
                Err(NoLock { value })
            }
        }
    }

    /// The bell beside the lock, for those who wait outside it for what another's turn brings.
    pub fn bell(&self) -> &Bell {
        &self.bell
    }

    /// Waits for a turn, and takes the value out for it.
    pub fn enter<R: Wait>(&self, rt: &R, seat: LockSeat<V>) -> (V, Turn<V>)
        requires lock { seat.lock ≡ self.now }
        ensures seen { IsPrefix seat.seen (V.entries result.0) }
        ensures own { entries_of V.by seat.number (V.entries result.0) ≡ seat.own }
        ensures ended { All (λ x. entries_of V.by x.number (V.entries result.0) ≡ x.entries) seat.ended }
        ensures stands { IfSome seat.tag (V.stands_for result.0) }
        ensures turn { result.1 ≡ record seat { seen = V.entries result.0 } }
    {
        approach(rt, &self.board, &self.sleepers);
        let LockSeat {
            mut place,
            number,
            next,
        } = seat;
        let ticket = self
            .board
            .shared
            .fetch_add::<DrawTicket>(&mut place, TICKET, 1);
        let value = wait(rt, &self.board, &self.sleepers, &mut place, ticket);
        (
            value,
            Turn {
                place,
                number,
                next,
            },
        )
    }

    /// Ends a turn: gives the value back, with the entries that this turn added.
    pub fn leave(&self, turn: Turn<V>, value: V) -> LockSeat<V>
        requires lock { turn.lock ≡ self.now }
        requires stands { IfSome turn.tag (V.stands_for value) }
        requires added { AddsOnly V.by turn.number turn.seen (V.entries value) }
        ensures seat { result ≡
            record turn { seen = V.entries value; own = entries_of V.by turn.number (V.entries value) } }
        ensures own { (added : List V.Entry) → V.entries value ≡ turn.seen ++ added → result.own ≡ turn.own ++ added }
    {
        let Turn {
            mut place,
            number,
            next,
        } = turn;
        let taken = self.board.shared.exchange(&mut place, VALUE, Some(value));
        let None = taken else { unreachable!() };
        self.board
            .shared
            .fetch_add::<ServeNext<V>>(&mut place, SERVING, 1);
        wake(&self.board, &self.sleepers);
        LockSeat {
            place,
            number,
            next,
        }
    }

    /// The seat, and a seat with the next number that it may give out. The second has no entries yet, and may itself
    /// give out no number.
    pub fn split(&self, seat: LockSeat<V>) -> (LockSeat<V>, LockSeat<V>)
        requires lock { seat.lock ≡ self.now }
        requires more { seat.next < seat.limit }
        ensures first { result.0 ≡ record seat { next = seat.next + 1 } }
        ensures second { result.1 ≡ record seat { number = seat.next; own = []; ended = []; next = 0; limit = 0 } }
    {
        let LockSeat {
            mut place,
            number,
            next,
        } = seat;
        let other = self.board.shared.split_seat::<GiveOut>(&mut place);
        (
            LockSeat {
                place,
                number,
                next: next + 1,
            },
            LockSeat {
                place: other,
                number: next,
                next: 0,
            },
        )
    }

    /// The first seat, into which the second was joined: it has seen what either saw, and keeps the entries of the
    /// second's number and of those that had been joined into it.
    pub fn join(&self, seat: LockSeat<V>, ended: LockSeat<V>) -> LockSeat<V>
        requires seat { seat.lock ≡ self.now }
        requires ended { ended.lock ≡ self.now }
        ensures joined { result ≡ joined_seat seat ended }
    {
        let LockSeat {
            mut place,
            number,
            next,
        } = seat;
        let LockSeat {
            place: other,
            number: _,
            next: last,
        } = ended;
        self.board.shared.join_seat::<TakeIn>(&mut place, other);
        LockSeat {
            place,
            number,
            next: next.max(last),
        }
    }

    /// The value at the end, for the seat into which every number given out was joined. It has no entries but those
    /// that the seat has seen.
    pub fn close(self, seat: LockSeat<V>) -> V
        requires lock { seat.lock ≡ self }
        requires all { HasAllNumbers seat }
        ensures seen { V.entries result ≡ seat.seen }
        ensures own { entries_of V.by seat.number (V.entries result) ≡ seat.own }
        ensures ended { All (λ x. entries_of V.by x.number (V.entries result) ≡ x.entries) seat.ended }
        ensures ended_seen { All (λ x. IsPrefix x.seen (V.entries result)) seat.ended }
        ensures others { (n : ℕ) → seat.next ≤ n → entries_of V.by n (V.entries result) ≡ [] }
        ensures stands { IfSome seat.tag (V.stands_for result) }
    {
        let TurnLock {
            board,
            sleepers: _,
            bell: _,
        } = self;
        let LockSeat {
            place,
            number: _,
            next: _,
        } = seat;
        let mut closed = board.close_with(place);
        let value = closed.take(VALUE).unwrap();
        closed.free();
        value
    }
}

// Waits until no ticket is out, so that a ticket which is drawn now is mostly served at once: one whose thread has no
// processor when its turn comes holds up all later ones. The drawn tickets are looked at second. So where the numbers
// differ, the ticket that was served had been drawn.
fn approach<V: Booked, R: Wait>(rt: &R, board: &Board<V>, sleepers: &AtomicU64)
    requires { IsLockTable board.now.shared.table_id }
{
    let mut looks: u32 = 0;
    for _ in rt.forever() {
        let served = board.shared.peek(SERVING);
        if board.shared.peek(TICKET) == served {
            return;
        }
        looks = look_again(rt, board, sleepers, served, looks);
    }
    unreachable!()
}

// Waits until a ticket is served, and takes the value out of the slot.
fn wait<V: Booked, R: Wait>(
    rt: &R,
    board: &Board<V>,
    sleepers: &AtomicU64,
    place: &mut Place<V>,
    ticket: u64,
) -> V
    requires table { IsLockTable board.now.shared.table_id × (place.old.table_id ≡ board.now.shared.table_id) }
    requires live { IsSome place.old.me.0.tag }
    requires waits { (k : ℕ) × (place.old.me.0.stage ≡ Waits k) × (place.old.me.1 ≡ []) × (k % 2 ^ 64 ≡ ticket) }
    ensures table { place.new.table_id ≡ place.old.table_id }
    ensures holds { (k : ℕ) × (place.new.me ≡ (holding place.old.me.0 k (V.entries result), (0, None) ∷ [])) }
    ensures finds { Finds V.entries V.by V.stands_for place.old.me.0 result }
{
    let mut looks: u32 = 0;
    for _ in rt.forever() {
        let served = board.shared.load::<LookAtServing<V>>(place, SERVING);
        if served == ticket {
            return board.shared.exchange(place, VALUE, None).unwrap();
        }
        looks = look_again(rt, board, sleepers, served, looks);
    }
    unreachable!()
}

// Comes back for another look, after so many looks and one at which this ticket was served, and says how many looks
// there were. After many it sleeps first.
fn look_again<V: Booked, R: Wait>(
    rt: &R,
    board: &Board<V>,
    sleepers: &AtomicU64,
    served: u64,
    looks: u32,
) -> u32
    requires { IsLockTable board.now.shared.table_id }
{
    if looks < LOOKS {
        spin_loop();
        return looks + 1;
    }
    sleep(rt, board, sleepers, served);
    looks
}

// Sleeps while this ticket is served. It had been drawn, so its turn is still to end. No wake-up is lost: the thread
// counts itself before the system compares the ticket that is served with this one, and the end of a turn serves the
// next ticket before it reads the count. So that end finds the thread counted, and wakes it, or the system finds another
// ticket, and doesn't let it sleep. It compares the lower 32 bits: 2^32 turns would have to end between look and sleep.
fn sleep<V: Booked, R: Wait>(rt: &R, board: &Board<V>, sleepers: &AtomicU64, served: u64)
    requires { IsLockTable board.now.shared.table_id }
{
    sleepers.fetch_add(1, Ordering::SeqCst);
    board.shared.park(rt, SERVING, (served % (1 << 32)) as u32);
    sleepers.fetch_sub(1, Ordering::SeqCst);
}

// Wakes the threads that sleep, if there are any, once another ticket is served.
fn wake<V: Booked>(board: &Board<V>, sleepers: &AtomicU64)
    requires { IsLockTable board.now.shared.table_id }
{
    if sleepers.load(Ordering::SeqCst) != 0 {
        board.shared.wake_all(SERVING);
    }
}
