//! The outside of a run of a script over files: it opens clips and reads scripts by their names.
//!
//! `FileHost` is the `Host` of a run. It keeps the clips that it opened, to be read frame by frame afterwards. What it tells hangs
//! on its type (`Known`), and it owns the files: `Lent` lends it those of a caller.
#![tactic(auto)]

mod closing;
mod files;
mod host;
mod script;

pub use closing::close_all;
pub use files::{HeldFiles, Known, Lent};
pub use host::FileHost;
pub use script::read_script;
