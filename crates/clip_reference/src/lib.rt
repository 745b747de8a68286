//! The reference frame of a clip's term, by plain recursion, for tests to compare with.
//!
//! `reference_frame` gives the frame that the definitions of `clip_term` have for a term and a frame number, from a
//! `Book` of the sources' frames. Each sample is made alone, so it is slow. The one error is `AllocError`.
#![tactic(auto)]

pub mod asked;
mod book;
mod field;
mod join;
pub mod make;
mod place;
mod reference;
mod soft;
mod space;

pub use book::Book;
pub use reference::reference_frame;
