//! A lock at which threads take turns, over a value that keeps a list of entries, such as a journal.
//!
//! At every turn the value's entries begin with all that the seat had seen, the seat's own entries among them are those
//! that it added, each once and in order, and the value stands for the tag of the lock's start. `TurnLock::close` gives
//! the value back, with exactly the entries that the last seat has seen.
#![tactic(auto)]

mod bell;
mod booked;
mod rule;
mod seat;
mod turn_lock;
mod view;

pub use bell::{Bell, Stroke};
pub use booked::Booked;
pub use seat::{LockSeat, Turn};
pub use turn_lock::{NoLock, TurnLock};
