//! The checks of the filters, and the info of a term.
//!
//! A check gives the info of the filter's clip, or the first refusal of its row. Each is the definition of `clip_term`,
//! for all ops and infos. Nothing here takes memory.
#![tactic(auto)]

mod blank;
mod field;
mod join;
mod limits;
mod run;
mod shared;
mod soft;
mod space;
mod summary;
mod term;
mod time;
mod time_rows;

pub use blank::check_blank_info;
pub use field::check_field;
pub use join::check_join;
pub use run::check_choice;
pub use soft::check_soft;
pub use space::check_space;
pub use summary::Summary;
pub use term::{check, check_summary, info};
pub use time::check_time;
