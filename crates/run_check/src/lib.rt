//! The journal of a render, checked by its text alone.
//!
//! `check_journal` answers whether a text is a journal of a clip, and else the first line at which it stops being one.
//! `run_text` has the definitions. It knows the graph, and nothing of how a render is made.
//!
//! A tracker keeps how far the lines were read, so that each line takes a time that does not grow with the journal.
//! `specs/Mirrors.antt` says which state of the machine it stands for, and `specs/Stages.antt` which lines were read.
#![tactic(auto)]

mod check;
mod claims;
mod events;
mod judging;
mod leases;
mod nodes;
mod steps;
mod tally;
mod tracker;

pub use check::check_journal;
pub use run_text::{Verdict, print_journal};
