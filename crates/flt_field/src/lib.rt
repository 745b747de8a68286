//! Filters on fields, which are the even and the odd rows of a frame.
//!
//! The maker's contract says that the frame it makes is the picture whose samples the definition of the filter lists
//! (`clip_term/specs/Time.antt`). The one error is `AllocError`.
#![tactic(auto)]

mod input;
mod make;
mod rows;

pub use clip_check::check_field;
pub use input::field_input;
pub use make::{make_field, takes_memory};
