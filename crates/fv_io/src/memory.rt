// Objects in memory that meet the traits, for tests and for the self test.
mod file;
mod files;
mod sink;
mod source;
mod trip;

pub use files::MemFiles;
pub use sink::MemSink;
pub use source::MemSource;
pub use trip::Trip;
