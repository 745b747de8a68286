//! One worker among others: it takes turns at a lock over the core, and makes its frames between turns.
//!
//! Each turn does the events of one call. What a worker needs to know at a later turn its own events tell, whatever the
//! others do (`specs/Seats.antt`). The events of its number are whole work, or work that a stop cut short
//! (`specs/Shares.antt`).
#![tactic(auto)]

mod gate;
mod produce;
mod shared;
mod steps;
mod turns;

pub use gate::{Gate, GatePoint, OpenGate};
pub use shared::run_shared;
