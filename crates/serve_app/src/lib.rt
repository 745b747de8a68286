//! The program as a function over files and sinks: `run` does what the words ask for, and `run_plain` does it by one worker
//! alone.
//!
//! Their contract says what each status means: what was written, and why. For a render that is the headline.
#![tactic(auto)]

mod closing;
mod entry;
mod info;
pub mod laws;
mod opening;
mod render;
mod replay;
mod session;
mod test_run;

pub use entry::{Ending, run, run_plain};
pub use prefetch::{Gate, GatePoint, OpenGate};
pub use self_test::workload;
pub use serve_machine::{Event, Record, Windowed};
