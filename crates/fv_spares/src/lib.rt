//! The memory of frames that are no longer needed, for frames to come.
#![tactic(auto)]

mod spares;

pub use spares::Spares;
