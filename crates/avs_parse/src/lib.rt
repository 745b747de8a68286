//! Scripts in the language of AviSynth+, from their tokens or their texts to their trees.
//!
//! In a turn `parse` takes a token, or ends one thing that is open before it (`machine`), at most three turns a token. It keeps
//! what is open on two stacks, both of `avs_frames`: what is open in an expression, and levels of braces. It answers the tree
//! that the grammar gives of tokens (`HasTree` of `avs_tree`), or the exact token and line at which no script goes on or the
//! nesting becomes too deep (`specs/Place.antt`). `load` answers what the function `script_of` gives of a text
//! (`specs/Load.antt`), and `laws` says that `script_of` is what the definitions of tokens and of the grammar say.
#![tactic(auto)]

mod fault;
mod head;
pub mod laws;
mod loader;
mod machine;
mod nesting;
mod script;
mod statement;
mod turn;

pub use avs_tree::{
    Arg, Arm, DotCall, Expr, Function, Operator, Parameter, Script, Statement, StatementKind, Step,
    TypeWord,
};
pub use fault::{LoadFault, ParseError};
pub use loader::{Loaded, load};
pub use script::{Parsed, parse, parse_in_turns};
