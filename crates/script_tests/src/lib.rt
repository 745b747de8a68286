//! Tests of the parser and the printer of scripts: what no clause says and the built program doesn't show.
//!
//! They stand apart from the crates that they call, so that those are proved once.
#![tactic(auto)]

#[cfg(test)]
mod places;
#[cfg(test)]
mod printed;
