//! How filters may run side by side, as scripts set it.
//!
//! A table's contract is the rule of the settings (`specs/Modes.antt`): what a setting changes, and the mode of a filter.
//! The law `keeps_rule` says that the table gives what the rule gives over all settings, the newest first.
#![tactic(auto)]

mod laws;
mod table;

pub use laws::keeps_rule;
pub use table::{ModeFault, ModeTable};
