//! The words of the command line, after the program's name.
//!
//! `command_of` says what they ask for. Its contract is one equation with the rules on words
//! (`specs/Command.antt`), so that words are refused exactly where they break them.
#![tactic(auto)]

mod command;
mod numbers;
mod parser;
mod words;

pub use command::{Command, RenderOptions, Tells};
pub use words::command_of;
