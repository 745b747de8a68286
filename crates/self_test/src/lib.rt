//! The self test: its files in memory, and a sink that digests a stream piece by piece.
//!
//! `workload` gives exactly the files of `specs/Workload.antt`. `DigestSink` keeps no byte of what is put, and tells the
//! length and the SHA-256 of all of it.
#![tactic(auto)]

mod digest;
mod files;
mod put_log;

pub use digest::DigestSink;
pub use files::workload;
