//! The core of a render: what is cached, claimed, leased, taken and delivered in a window, and the journal of it.
//!
//! Each call answers, adds its events to the journal and changes the core exactly as `specs/Calls.antt` says, for any
//! number of workers. The calls that close what another opened (`leave`, `abandon`, `deliver`, `fail`) take no memory.
//!
//! In a window the journal is a run of the machine of `serve_machine`, and leads to the core (`specs/Runs.antt`). So what
//! holds of every run holds of each core, and over a told book of its frames too (`specs/Runs.antt`).
#![tactic(auto)]

mod answers;
mod booked;
mod claims;
pub mod laws;
mod state;
mod worker;
mod works;

pub use answers::{Admitted, Ask, Finished};
pub use serve_machine::{Event, Record, WindowStop, Windowed};
pub use state::Core;
pub use worker::Worker;
pub use works::Works;
