//! The frames of a source of bytes, by their numbers.
//!
//! Over bytes that are a stream, `SeqSource::frame` answers the stream's frame from any place and after any fault. It
//! reads on where it can, and rewinds only where the frame is before the source's place or that place isn't known.
#![tactic(auto)]

mod fault;
pub mod laws;
mod reading;
mod seq_source;

pub use fault::SeqFault;
pub use seq_source::SeqSource;
