//! The events of a window, what the work of a worker is in them, and the machine whose runs they are.
//!
//! Contracts see a journal as a list of events. `specs/SerialRun.antt` has the events that one worker alone makes,
//! `specs/Work.antt` those that a worker may make, whole or cut short by a stop, and `specs/Holdings.antt` what they show.
//!
//! `specs/Machine.antt` has the states and the machine, which says which events may come in which state and what they change,
//! over any type of frames: over pictures it is that of a told book, and over a type of one value that of keys alone.
//! `specs/Law.antt` says what holds of every run, whichever worker makes the next event, and how a run of keys is one over
//! frames. `specs/Holdings.antt` says what a worker has, by its own events alone, and `specs/Journals.antt` what is made in
//! windows one after the other.
#![tactic(auto)]

mod event;
mod instance;
pub mod laws;
mod windows;

pub use event::{Event, WindowStop};
pub use instance::instance_for;
pub use windows::{Record, Windowed};
