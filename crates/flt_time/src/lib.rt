//! Filters that choose frames: which frame of which input they show.
//!
//! Contracts pin each answer to the definitions of `clip_term`, and say that the input has that frame. No call takes
//! memory, or time that grows with the clip.
#![tactic(auto)]

mod named;
mod rows;
mod shown;

pub use clip_check::check_time;
pub use shown::source_number;
