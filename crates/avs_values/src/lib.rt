//! The values of scripts in the language of AviSynth+, the binding of arguments, operators, and the functions that need
//! no state.
//!
//! `bind`, `unary`, `binary` and `call_plain` answer exactly what `specs/Binding.antt`, `specs/Operators.antt` and
//! `specs/Functions.antt` define, or, where that is a value, that they are out of memory. `laws` says what holds of arguments that were bound.
#![tactic(auto)]

mod any;
mod binding;
mod call;
mod fault;
pub mod laws;
mod message;
mod numbers;
mod operators;
mod parameter;
mod plain_fn;
mod takes;
mod texts;
mod value;

pub use binding::{Bound, Given, bind};
pub use call::call_plain;
pub use fault::ValueFault;
pub use message::Message;
pub use operators::{BinaryOp, UnaryOp, binary, unary};
pub use parameter::{Param, Signature};
pub use plain_fn::PlainFn;
pub use takes::signature;
pub use value::{Kind, Value};
