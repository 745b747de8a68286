// The lock's table: two words (the tickets drawn, and the ticket that is served), one slot for the value, and a view of
// each seat. `specs/TurnRule.antt` has the rule, and `specs/Steps.antt` what each step does to the view of its seat.
use crate::booked::Booked;
use crate::view::View;
use atomic_table::{Join, Play, Seat, Split, Table, TableRule};
use std::alloc::Global;
use std::marker::PhantomData;
use std::snapshot::Snapshot;

pub(crate) const TICKET: usize = 0;

pub(crate) const SERVING: usize = 1;

pub(crate) const VALUE: usize = 0;

/// The value that a lock starts with, and how many seats it may have. For contracts: it is no run-time copy.
pub struct Start<V> {
    pub value: Snapshot<V>,
    pub seats: u32,
}

impl<V> Drop for Start<V> {
    fn drop(self) {
        let Self { value: _, seats: _ } = self;
    }
}

pub struct TurnRule<V> {
    of: PhantomData<V>,
}

impl<V: Booked> TableRule<Option<V>, View<V::Entry, V::Tag>, Start<V>> for TurnRule<V> {
    ghost use Rattle.turn_lock.specs.TurnRule.{KeepsTurns};
    ghost use Rattle.turn_lock.specs.Steps.{first_view};

    ghost holds = { λ _. KeepsTurns V.entries V.by V.stands_for };

    ghost first = { λ start. first_view (V.opening start.value.value) start.seats };
}

pub type Board<V> = Table<
    Option<V>,
    View<<V as Booked>::Entry, <V as Booked>::Tag>,
    Start<V>,
    TurnRule<V>,
    Global,
>;

pub type Place<V> = Seat<Option<V>, View<<V as Booked>::Entry, <V as Booked>::Tag>>;

pub(crate) struct DrawTicket;

impl<V, E, T> Play<Option<V>, View<E, T>> for DrawTicket {
    ghost use Rattle.turn_lock.specs.Steps.{DrawsTicket};

    ghost then = { DrawsTicket };
}

pub(crate) struct LookAtServing<V> {
    of: PhantomData<V>,
}

impl<V: Booked> Play<Option<V>, View<V::Entry, V::Tag>> for LookAtServing<V> {
    ghost use Rattle.turn_lock.specs.Steps.{LooksAtServing};

    ghost then = { LooksAtServing V.entries V.by V.stands_for };
}

pub(crate) struct ServeNext<V> {
    of: PhantomData<V>,
}

impl<V: Booked> Play<Option<V>, View<V::Entry, V::Tag>> for ServeNext<V> {
    ghost use Rattle.turn_lock.specs.Steps.{ServesNext};

    ghost then = { ServesNext V.entries V.by };
}

pub(crate) struct GiveOut;

impl<E, T> Split<View<E, T>> for GiveOut {
    ghost use Rattle.turn_lock.specs.Steps.{giver, newcomer};

    ghost left = { giver };

    ghost right = { newcomer };
}

pub(crate) struct TakeIn;

impl<E, T> Join<View<E, T>> for TakeIn {
    ghost use Rattle.turn_lock.specs.Steps.{joined_view, spent};

    ghost both = { joined_view };

    ghost spent = { spent };
}
