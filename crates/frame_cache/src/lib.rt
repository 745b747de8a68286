//! Frames by key: a bounded number of them, the most recently used first.
//!
//! Contracts see the cache as the list of its pairs in that order, with its capacity. Each call says exactly what the
//! list is afterwards, so a hit, an eviction and its order are all determined. A call that is refused changes nothing.
#![tactic(auto)]

mod cache;

pub use cache::FrameCache;
pub use fv_plane::Key;
