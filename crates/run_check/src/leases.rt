// The instances that are out, by their places, and how many each worker has.
ghost use Rattle.std.specs.Prelude.{◌≡◌, ℕ, Option, List, map, Some, None, OnOk};
ghost use Rattle.std.specs.List.{list_all};
ghost use Rattle.std.specs.Map.{lookup, set_value};
ghost use Rattle.inst_table.specs.declared.place.Place.{Place};
ghost use Rattle.inst_table.specs.Places.{same_place};
ghost use Rattle.serve_machine.specs.Law.{worker_at};
ghost use Rattle.serve_machine.specs.Machine.{holds_nothing, is_open};
ghost use Rattle.run_check.specs.Leases.{AreLeases, Holders, free};

use crate::tally::{Tally, alone, next};
use indexmap::IndexMap;
use inst_table::Place;
use std::alloc::{AllocError, Global};

/// The instances that are out.
#[derive(Drop)]
pub(crate) struct Leases {
    out: IndexMap<Place, u32>,
    held: Tally,
    total: u64,
}

impl Leases {
    pub(crate) fn new(alloc: Global) -> Leases
        ensures { (places : List Place) → AreLeases result (free places) }
    {
        Leases {
            out: IndexMap::new(alloc),
            held: Tally::new(alloc),
            total: 0,
        }
    }

    /// Who has the instance.
    pub(crate) fn holder(&self, place: Place) -> Option<u32>
        ensures { (places : Holders) → AreLeases self.now places
            → result ≡ worker_at (lookup (same_place place) places) }
    {
        self.out.get(&place).copied()
    }

    /// Whether the worker has none.
    pub(crate) fn holds_nothing(&self, worker: u32) -> bool
        ensures { (places : Holders) → AreLeases self.now places
            → result ≡ holds_nothing worker places }
    {
        self.held.count(alone(worker)) == 0
    }

    /// Whether none is out.
    pub(crate) fn is_empty(&self) -> bool
        ensures { (places : Holders) → AreLeases self.now places
            → result ≡ list_all (λ e. is_open e.1) places }
    {
        self.total == 0
    }

    /// Lends a free instance. An `Err` is out of memory.
    pub(crate) fn lend(&mut self, place: Place, worker: u32) -> Result<(), AllocError>
        ensures { (places : Holders) → AreLeases self.old places → lookup (same_place place) places ≡ Some None
            → OnOk result (AreLeases self.new (set_value (same_place place) places (Some worker))) }
    {
        self.total = next(self.total)?;
        match self.out.insert(place, worker) {
            Ok(_) => {}
            Err(_) => return Err(AllocError),
        }
        self.held.add(alone(worker))
    }

    /// Takes an instance back. An `Err` is out of memory.
    pub(crate) fn give_back(&mut self, place: Place, worker: u32) -> Result<(), AllocError>
        ensures { (places : Holders) → AreLeases self.old places → lookup (same_place place) places ≡ Some (Some worker)
            → OnOk result (AreLeases self.new (set_value (same_place place) places None)) }
    {
        self.total = self.total.saturating_sub(1);
        self.out.swap_remove(&place);
        self.held.sub(alone(worker))
    }
}
