//! The files and the standard streams of the system, as the traits of the outside.
//!
//! Each adapter counts a fault at each error of the system, and tells no content: what a real file holds is nobody's
//! promise. This is the edge that is trusted, besides the toolchain.
#![tactic(auto)]

mod files;
mod input;
mod sink;
mod source;

pub use files::RealFiles;
pub use sink::RealSink;
pub use source::RealSource;
