//! Instances of filters by node and number: each is in the table, or lent to one worker.
//!
//! Contracts see the table as the list of its places with what stands there. A lease holds the instance itself, so a
//! place is never lent twice, and `InstTable::enter` says who has an instance exactly where it can't lend it.
#![tactic(auto)]

mod held;
mod lease;
mod place;
mod table;

pub use held::Held;
pub use lease::{Entered, Lease};
pub use place::{Place, Slot};
pub use table::InstTable;
