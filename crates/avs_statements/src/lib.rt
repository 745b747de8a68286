//! The statements of a script, executed.
//!
//! An `Evaluator` gives the expressions of a text their values. Over it `body_of` executes the statements of the text: what
//! it answers, and how it leaves the state and the host, is what the definitions say (`avs_meaning/specs/Statements.antt`).
#![tactic(auto)]

mod evaluator;
mod executor;
mod flow;
mod loops;
mod statements;

pub use evaluator::Evaluator;
pub use statements::body_of;
