//! Tests of the top call over files in memory: what is on both outputs at each status, and how failed reads and writes end a run.
//!
//! They stand apart from the crates that they call, so that those are proved once.
#![tactic(auto)]

#[cfg(test)]
mod endings;
#[cfg(test)]
mod journals;
#[cfg(test)]
mod runs;
