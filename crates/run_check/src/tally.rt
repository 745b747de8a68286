// Numbers that are counted up and down, each of a worker and a node.
ghost use Rattle.std.specs.Prelude.{◌≡◌, ◌+◌, ◌-◌, if◌then◌else◌, OnOk, IfOk};
ghost use Rattle.run_check.specs.declared.tally.Seat.{Seat};
ghost use Rattle.run_check.specs.Tallies.{count_at, same_seat};

use indexmap::IndexMap;
use std::alloc::{AllocError, Global};

/// A worker, and a node.
#[derive(Clone, Copy, Debug, PartialEq, Eq, Hash)]
pub(crate) struct Seat {
    pub(crate) worker: u32,
    pub(crate) node: u32,
}

/// Numbers that are counted up and down.
#[derive(Drop)]
pub(crate) struct Tally {
    counts: IndexMap<Seat, u64>,
}

/// A worker, whichever the node.
pub(crate) fn alone(worker: u32) -> Seat
    ensures { result ≡ record { worker = worker; node = 0 } }
{
    Seat { worker, node: 0 }
}

/// The number after this one. An `Err` comes past the last, which no memory reaches.
pub(crate) fn next(n: u64) -> Result<u64, AllocError>
    ensures { IfOk result (λ m. m ≡ n + 1) }
{
    match n.checked_add(1) {
        Some(m) => Ok(m),
        None => Err(AllocError),
    }
}

impl Tally {
    pub(crate) fn new(alloc: Global) -> Tally
        ensures { (q : Seat) → count_at result q ≡ 0 }
    {
        Tally {
            counts: IndexMap::new(alloc),
        }
    }

    pub(crate) fn count(&self, seat: Seat) -> u64
        ensures { result ≡ count_at self.now seat }
    {
        match self.counts.get(&seat) {
            Some(count) => *count,
            None => 0,
        }
    }

    // An `Err` is out of memory.
    fn put(&mut self, seat: Seat, count: u64) -> Result<(), AllocError>
        ensures { OnOk result ((q : Seat) →
            count_at self.new q ≡ (if same_seat seat q then count else count_at self.old q)) }
    {
        match self.counts.insert(seat, count) {
            Ok(_) => Ok(()),
            Err(_) => Err(AllocError),
        }
    }

    /// Counts one up. An `Err` is out of memory.
    pub(crate) fn add(&mut self, seat: Seat) -> Result<(), AllocError>
        ensures { OnOk result ((q : Seat) →
            count_at self.new q ≡ (if same_seat seat q then count_at self.old q + 1 else count_at self.old q)) }
    {
        let count = next(self.count(seat))?;
        self.put(seat, count)
    }

    /// Counts one down. An `Err` is out of memory.
    pub(crate) fn sub(&mut self, seat: Seat) -> Result<(), AllocError>
        ensures { OnOk result ((q : Seat) →
            count_at self.new q ≡ (if same_seat seat q then count_at self.old q - 1 else count_at self.old q)) }
    {
        let count = self.count(seat).saturating_sub(1);
        self.put(seat, count)
    }
}
