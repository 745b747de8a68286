//! Clips as terms of filters: what is known of a clip, and each of its samples.
//!
//! The definitions stand in `specs/`, one file for each group of filters, by the columns of a table: refusals, length, rate
//! and size, the frames that are asked, and samples. `specs/Terms.antt` goes over the tree.
#![tactic(auto)]

mod arguments;
mod fault;
mod field;
mod filter;
pub mod laws;
mod matrix;
mod numbers;
mod op;
mod run;
mod term;

pub use arguments::{
    BLACK, MAX_BIAS, MAX_WEIGHT, colour_of, depth_of, is_bias, is_colour, is_matrix, is_weight,
    names_depth, part_of, read_channels,
};
pub use fault::FilterFault;
pub use field::FieldOp;
pub use filter::Filter;
pub use matrix::{MatrixFault, read_matrix};
pub use numbers::Numbers;
pub use op::{
    Channels, JoinOp, Matrix, Op, Origin, SoftOp, SourcePart, SpaceOp, TimeOp, TrimBound,
};
pub use run::{PlaneStat, RunCompare, RunExpr, RunOp, RunOper, RunStep};
pub use term::Term;
