//! The outside: what a render reads from and writes to, as traits, and objects in memory that meet them.
//!
//! Contracts see what an object tells of its bytes, and counts of its faults: a call fails only where a count rose.
#![tactic(auto)]

mod files;
pub mod laws;
mod memory;
mod reading;
mod sink;
mod source;
mod text;

pub use files::{FetchFault, Files};
pub use memory::{MemFiles, MemSink, MemSource, Trip};
pub use reading::read_full;
pub use sink::Sink;
pub use source::{Failed, Source};
pub use text::Text;
