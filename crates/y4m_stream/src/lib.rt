//! YUV4MPEG2 streams, read and written.
//!
//! `Stream` (`specs/Stream.antt`) says which clip the bytes of a file are, and `HasFault` what is wrong with other
//! bytes; `index` answers exactly that, and what `print_head` and `write_frame` write is such a stream.
#![tactic(auto)]

mod colourspace;
mod fault;
mod frame_finding;
mod frame_reading;
mod frame_writing;
mod head_reading;
mod head_writing;
mod indexing;
pub mod laws;
mod numbers;
mod parameters;
mod read_ahead;
mod stream_index;

pub use fault::{IndexFault, Y4mFault};
pub use frame_reading::read_frame;
pub use frame_writing::{write_after, write_frame};
pub use head_reading::{Head, read_head};
pub use head_writing::print_head;
pub use indexing::index;
pub use stream_index::Index;
