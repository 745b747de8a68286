// `LockSeat` and `Turn`: a thread's right to take turns, and the turn that it has.
ghost use Rattle.std.specs.Prelude.{◌≡◌, IsSome};

use crate::booked::Booked;
use crate::rule::Place;
use std::marker::Model;

/// A seat at a lock, with a number of its own. It takes one turn after the other. `specs/SeatView.antt` says what
/// contracts see of it. It may move to another thread where the value may.
///
/// A seat that is dropped keeps its lock from being closed.
#[derive(Drop)]
pub struct LockSeat<V: Booked> {
    pub(crate) place: Place<V>,
    pub(crate) number: u32,
    pub(crate) next: u32,
}

impl<V: Booked> Model for LockSeat<V> {
    ghost use Rattle.turn_lock.specs.SeatView.{SeatView, seat_view};
    ghost use Rattle.turn_lock.specs.Places.{IsResting};

    ghost Value = { SeatView V.Entry V.Tag };

    ghost view = { λ s. seat_view s.place.table_id s.place.me.0 };

    ghost invariant = { λ s. IsResting s.number s.next s.place.me };
}

impl<V: Booked> LockSeat<V> {
    /// The number of the seat, which each entry that it adds has to have.
    pub fn number(&self) -> u32
        ensures number { result ≡ self.now.number }

        // What is true of every seat.
        ensures tagged { IsSome self.now.tag }
    {
        self.number
    }
}

/// A turn at a lock, while its value is out. It can't be dropped: `TurnLock::leave` ends it.
pub struct Turn<V: Booked> {
    pub(crate) place: Place<V>,
    pub(crate) number: u32,
    pub(crate) next: u32,
}

impl<V: Booked> Model for Turn<V> {
    ghost use Rattle.turn_lock.specs.SeatView.{SeatView, seat_view};
    ghost use Rattle.turn_lock.specs.Places.{IsHolding};

    ghost Value = { SeatView V.Entry V.Tag };

    ghost view = { λ t. seat_view t.place.table_id t.place.me.0 };

    ghost invariant = { λ t. IsHolding V.by t.number t.next t.place.me };
}
