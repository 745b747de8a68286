//! Tests of the filters, of the graphs of them and of their modes, by public calls.
//!
//! Each call is made where there is memory, and the frames of a few filters are compared with those of the definitions. The
//! contracts give every answer exactly, and `tests/filters.py` shows the samples of each filter on the built program.
#![tactic(auto)]

#[cfg(test)]
mod checks;
#[cfg(test)]
mod clips;
#[cfg(test)]
mod compared;
#[cfg(test)]
mod limits;
#[cfg(test)]
mod modes;
#[cfg(test)]
mod ops;
#[cfg(test)]
mod plans;
#[cfg(test)]
mod rows;
#[cfg(test)]
mod terms;
