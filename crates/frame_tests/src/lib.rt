//! Tests of the outside in memory, of frames and their memory, of streams and of sources of frames: what no clause says.
//!
//! They stand apart from the crates that they call, so that those are proved once.
#![tactic(auto)]

#[cfg(test)]
mod frames;
#[cfg(test)]
mod sources;
#[cfg(test)]
mod spares;
