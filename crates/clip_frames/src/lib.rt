//! Which frames a frame of a node is made of.
//!
//! `input_at` names them one by one. It asks for no frame itself, so a caller may keep frames, and make several at once.
#![tactic(auto)]

mod inputs;

pub use inputs::input_at;
