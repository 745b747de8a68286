//! Filters that mix a sample with its neighbours, in time or in place.
//!
//! The maker's contract says that the frame it makes is the picture whose samples the definition of the filter lists
//! (`clip_term/specs/Soft.antt`), whatever the scratch holds. The one error is `AllocError`.
#![tactic(auto)]

mod convolve;
mod make;
mod rows;
mod scratch;
mod soften;

pub use clip_check::check_soft;
pub use clip_term::{MatrixFault, read_matrix};
pub use make::{make_soft, make_soft_in, takes_memory};
pub use scratch::Scratch;
