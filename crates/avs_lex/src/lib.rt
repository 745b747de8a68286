//! The tokens of a script in the language of AviSynth+.
//!
//! `lex` answers exactly the tokens that the definition `Tokens` gives (`specs/Tokens.antt`), or its first fault, `LexFault`;
//! `IsTokenList`, beside it, is what the parser needs of them. `laws` says what holds of the definition: one
//! reading for each text, the longest tokens, what a `BadChar` and a nested comment are, and that what is written is read.
#![tactic(auto)]

mod characters;
mod cursor;
mod enclosed;
mod fault;
pub mod laws;
mod lexer;
mod line;
mod number;
mod piece;
mod punctuation;
mod run;
mod token;

pub use characters::{begins_name, continues_name};
pub use fault::{LexError, LexKind};
pub use lexer::lex;
pub use token::{Token, TokenKind};
