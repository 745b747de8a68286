//! A script, evaluated: the graph of its clip, or why there is none.
//!
//! Where the host tells its files, `eval` answers what the text means there (`avs_meaning/specs/Meaning.antt`), in both
//! directions: a graph is that of the clip, and a fault is the first fault.
//!
//! A `Walker` is what a run has in one text. It makes the calls that expressions ask for, and gives statements the values of
//! their expressions. What executes the statements of a text one call deeper is a function value of it.
#![tactic(auto)]

mod calls;
mod depth;
mod evaluation;
mod ranges;
mod texts;
mod walker;

/// What a caller of `eval` names besides.
pub use avs_meaning::{Crew, FileKind, InputFault, ScriptKind};
pub use avs_state::{Host, HostFault};
pub use evaluation::{Evaluated, Opened, eval, eval_in_steps};
