//! Tests of what the workers of a render share, by public calls: the cache, the instances, the core and its journal,
//! and the lock.
//!
//! Each call is made where there is memory. The contracts give every answer exactly; whole renders are run by the scripts
//! of `tests/`.
#![tactic(auto)]

#[cfg(test)]
mod cached;
#[cfg(test)]
mod clips;
#[cfg(test)]
mod turns;
#[cfg(test)]
mod two_workers;
