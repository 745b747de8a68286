//! Filters that make a frame from the frame of the same number.
//!
//! The contract says that the frame that is made is the picture whose samples the definition of the filter lists
//! (`clip_term/specs/Space.antt`). The one error is `AllocError`.
#![tactic(auto)]

mod adjust;
mod borders;
mod cut;
mod depth;
mod flip;
mod kernels;
mod make;
mod rows;
mod wide;

pub use clip_check::check_space;
pub use clip_term::read_channels;
pub use kernels::{invert_row, limit_row};
pub use make::{make_space, make_space_in, takes_memory};
