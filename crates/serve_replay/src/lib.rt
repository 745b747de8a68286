//! The journal of a render, read from a source and judged.
//!
//! `read_journal` reads all bytes of a source, where they are few enough. `put_judged` puts one line that says whether they
//! are a journal of a graph, which `run_text` defines; `specs/Verdicts.antt` has the line.
#![tactic(auto)]

mod judging;
pub mod laws;
mod lines;
mod reading;

pub use judging::put_judged;
pub use reading::{JournalStop, read_journal};
