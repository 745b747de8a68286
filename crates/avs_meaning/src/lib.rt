//! What a script in the language of AviSynth+ means, as definitions, and the types that they share with an evaluator.
//!
//! `specs/Meaning.antt` gives each script its clip, or the first fault. It goes over the tree of the script
//! (`specs/Expressions.antt`, `specs/Statements.antt`) with a state (`specs/State.antt`). What the outside tells, texts as
//! trees among it, is a parameter. `Builtin::named` finds the built-in
//! functions of `specs/Table.antt`, which also has what each filter takes and does with it.
#![tactic(auto)]

mod builtin;
mod crew;
mod fault;
pub mod laws;
mod state;
mod stop;
mod table;

pub use builtin::{Builtin, ClipFn};
pub use crew::Crew;
pub use fault::{FileKind, InputFault, ScriptKind};
pub use state::{SourceClip, Variable};
pub use stop::EvalError;
