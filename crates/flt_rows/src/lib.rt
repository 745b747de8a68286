//! What is done to rows of samples, without a frame: means of rows that follow each other in time, and sums of the
//! samples around each place. A trait of samples stands for those of one byte and of two. Only what makes their means is
//! apart, in `kernels` and in `wide`.
#![tactic(auto)]

pub mod kernels;
pub mod mean;
pub mod narrow;
pub mod reciprocal;
pub mod sample;
pub mod sums;
mod wide;
