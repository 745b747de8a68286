// An instance that is out with a worker.
ghost use Rattle.std.specs.Prelude.{◌≡◌};
ghost use Rattle.std.specs.Borrow.{sem};
ghost use Rattle.inst_table.specs.Lending.{LendsValue};

use crate::Place;
use std::marker::Model;

/// An instance that is lent to one worker. It isn't `Drop`: it has to be given back, by `InstTable::leave`.
pub struct Lease<I> {
    pub(crate) place: Place,
    pub(crate) value: I,
}

impl<I> Model for Lease<I> {
    ghost use Rattle.inst_table.specs.Lent.{Lent};

    ghost Value = { Lent I };

    ghost view = { λ l. record { place = l.place; value = l.value } };
}

impl<I> Lease<I> {
    /// The node of the instance.
    pub fn node(&self) -> u32
        ensures { result ≡ self.now.place.node }
    {
        self.place.node
    }

    /// The number of the instance: 0 where the node's is shared, else the worker's.
    pub fn instance(&self) -> u32
        ensures { result ≡ self.now.place.instance }
    {
        self.place.instance
    }

    /// The instance itself.
    pub fn value(&mut self) -> &mut I
        ensures* writes_back { sem 𝓛 (LendsValue I.row self.entry result) }
        ensures value { result.now ≡ self.old.value }
    {
        &mut self.value
    }
}

/// What `InstTable::enter` answers: the instance, or the worker that has it.
pub enum Entered<I> {
    Leased(Lease<I>),
    Busy { holder: u32 },
}
