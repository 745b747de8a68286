//! A worker that is alone: it takes the outputs of a window, makes the frames that they are made of, and delivers them.
//!
//! It makes exactly the events of the serial run, or events that a stop cut short (`serve_machine/specs`).
#![tactic(auto)]

mod alone;
mod produce;

pub use alone::run_alone;
