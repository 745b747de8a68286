//! Rows of bytes inside shared memory: planes, which never change, and planes that are being put together.
//!
//! Contracts see a plane as its rows from the top (`specs/Rows.antt`). The one error is `AllocError`.
#![tactic(auto)]

mod plane;
mod plane_builder;

pub use plane::Plane;
pub use plane_builder::{PlaneBuilder, emptied};
