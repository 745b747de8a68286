//! The trees of scripts in the language of AviSynth+, and the grammar that gives them.
//!
//! `symbol_of` and `content` answer exactly what the grammar sees of a token, its `Lexeme` (`specs/Lexeme.antt`); the words of
//! the language are tables beside it. `IsScript` (`specs/Grammar.antt`) says which tree the tokens of a script
//! have, and `HasTree` that it is within the limit of nesting.
//!
//! The machine that reads a script one token a turn (`specs/Machine.antt`) is the left quotient of
//! the grammar, and holds the tree of what was read. `Answers` (`specs/Place.antt`) says of its verdict, in the words of the
//! grammar alone, what the place of a fault is; `laws` say that the verdict is right.
#![tactic(auto)]

pub mod laws;
mod symbol;
mod tree;
mod words;

pub use symbol::{Punctuation, Symbol, content, is_name, symbol_of};
pub use tree::{
    Arg, Arm, DotCall, Expr, Function, Operator, Parameter, Script, Statement, StatementKind, Step,
};
pub use words::{Keyword, TypeWord, meaning, type_word};
