//! Expressions that are evaluated for each frame, and the filters that choose a clip by them.
//!
//! `value_of` gives what the definition gives (`value` of `clip_term`), by a table of those statistics that the
//! expression names, each made once. `make_run` shares the frame that is chosen. The one error is `AllocError`.
#![tactic(auto)]

mod choice;
mod counts;
mod evaluate;
mod samples;
mod stats;
mod value;

pub use choice::make_run;
pub use clip_check::check_choice;
pub use value::value_of;
