//! Filters that join clips, a frame of each at a time.
//!
//! The maker's contract says that the frame it makes is the picture whose samples the definition of the filter lists
//! (`clip_term/specs/Join.antt`). The one error is `AllocError`.
#![tactic(auto)]

mod join;
mod kernels;
mod merge;
mod planes;
mod stack;

pub use clip_check::check_join;
pub use join::{make_join, make_join_in, takes_memory};
pub use kernels::merge_row;
