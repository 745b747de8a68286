//! The instances of the nodes of a graph, and what they make.
//!
//! `furnish` makes the instances that the nodes need. An instance makes frames by `make_frame`, which knows the filters.
#![tactic(auto)]

mod filtering;
mod furnishing;
mod instance;
mod make;
mod memory;

pub use clip_frames::input_at;
pub use furnishing::furnish;
pub use instance::Instance;
pub use make::make_frame;
