//! Scripts, read one token a turn: what is open in them, and the parts of their trees so far.
//!
//! **In an expression** an `ExprState` is what was read last, and each `Open` is something open in it. `expr_step` does
//! to them what the machine of `avs_tree` does (`ExprMachine`), closing at most one in a turn; `specs/ExprViews.antt` says which
//! states of that machine they mean. `open_level` and `ExprState::level` tell how many levels of nesting are open.
//!
//! **In a script** a `State` is what was read last of a statement or of the head of a function, with the statements before it and
//! the open braces (`Around`). `Around` adds statements, opens and closes braces, and ends the script as that machine does
//! (`Machine`); `specs/ScriptViews.antt` says which of its states a `State` means.
#![tactic(auto)]

mod around;
mod block;
mod closing;
mod expression;
mod memory;
mod nesting;
mod script_state;
mod seen;
mod state;

pub use around::{Around, Levels};
pub use block::{goes, refused};
pub use expression::{expr_step, operand};
pub use memory::{OutOfMemory, Outcome, pushed};
pub use nesting::open_level;
pub use script_state::{
    Ended, ForHead, HeadState, Level, OpenFunction, Owner, ScriptStep, Signature, State,
    StatementState, Use,
};
pub use seen::Seen;
pub use state::{Callee, ExprState, ExprStep, ExprTurn, Named, Open, OperatorAt, Receiver};
