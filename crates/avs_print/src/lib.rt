//! Scripts in the language of AviSynth+ as text.
//!
//! `print` answers exactly the text that `printed` says of a tree (`specs/Printed.antt`). `laws` says that the text of a
//! script which was read is read as the same script again, apart from lines.
#![tactic(auto)]

pub mod laws;
mod printer;

pub use printer::print;
