//! `TurnLeft` and `TurnRight`: pictures turned on their side.
//!
//! The contract says that the frame that is made is the picture whose samples the definition of the filter lists
//! (`clip_term/specs/Space.antt`). The one error is `AllocError`.
#![tactic(auto)]

mod kernels;
mod turn;

pub use turn::{turn_left, turn_right};
