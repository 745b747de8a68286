// What a seat at the lock's table knows. Contracts and proofs alone name these types, and no value of them is made.
use std::collections::LinkedList;

/// Where a seat is between its turns and in one. The number is its ticket, counted from 0 and never wrapped.
pub enum Stage {
    Rests,
    Waits(u64),
    Holds(u64),
}

/// A number whose seat was joined into another, with all its entries, and the list that the seat had seen.
pub struct Ended<E> {
    pub number: u64,
    pub entries: LinkedList<E>,
    pub seen: LinkedList<E>,
}

/// What a seat knows of the value, and where it is. `specs/SeatView.antt` has the part that callers see.
pub struct View<E, T> {
    pub number: u64,
    pub stage: Stage,
    pub seen: LinkedList<E>,
    pub own: LinkedList<E>,
    pub ended: LinkedList<Ended<E>>,
    pub next: u64,
    pub limit: u64,
    // None in a seat that was joined into another: nothing is said of such a seat.
    pub tag: Option<T>,
}
