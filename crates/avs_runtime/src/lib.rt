//! Texts of scripts as expressions that are evaluated for each frame.
//!
//! An expression is a number made of integers, `current_frame` and the statistics of the planes of a test clip's frame, by
//! operators and by `Abs`, `Min` and `Max`. `compile` gives exactly the expression that a text is
//! (`avs_meaning/specs/Arguments.antt`), or `BadExpression` exactly where it is none. `laws` says what that is by the definitions
//! of tokens and of the grammar. What is made of an expression for a frame is `flt_choice`, which is passed on.
#![tactic(auto)]

mod fault;
mod functions;
pub mod laws;
mod names;
mod numbers;
mod parts;
mod texts;

pub use fault::RunFault;
pub use flt_choice::{check_choice, make_run, value_of};
pub use texts::compile;
