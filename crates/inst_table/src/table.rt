// Instances by their places, in a map, so that none is searched for.
ghost use Rattle.std.specs.Prelude.{◌≡◌, ◌∷◌, ◌++◌, [], length, slice_get, IsTrue, IfOk, IfErr, IfSome, IfNone, IsSome};
ghost use Rattle.inst_table.specs.Places.{place_at, slot_at, with_slot, is_out, is_free_entry, place_meant, PlacesDiffer, IsNewPair, AllLent};
ghost use Rattle.inst_table.specs.Changes.{Enters, TakesOne};

use crate::{Entered, Lease, Place, Slot};
use indexmap::IndexMap;
use std::alloc::{AllocError, AllocFailed, Global};
use std::marker::Model;

/// The instances of the nodes of a graph. A node has one shared instance, or one for each worker.
///
/// It isn't `Drop` where an instance isn't: take the instances out, then call `destroy_empty`. To enter and to leave take
/// the same time however many nodes there are.
#[derive(Drop)]
pub struct InstTable<I> {
    places: IndexMap<Place, Slot<I>>,
}

impl<I> Model for InstTable<I> {
    ghost use Rattle.std.specs.Prelude.{List};
    ghost use Rattle.inst_table.specs.declared.place.Place.{Place};
    ghost use Rattle.inst_table.specs.declared.place.Slot.{Slot};

    ghost Value = { List (Place × Slot I) };

    ghost view = { λ t. t.places.entries };
}

impl<I> InstTable<I> {
    /// A table without instances. It takes no memory.
    pub fn new(alloc: Global) -> InstTable<I>
        ensures { result ≡ [] }
    {
        InstTable {
            places: IndexMap::new(alloc),
        }
    }

    /// The number of instances that are in the table or lent.
    pub fn len(&self) -> usize
        ensures len { result ≡ length self.now }

        // What is true of every table.
        ensures differ { PlacesDiffer self.now }
    {
        self.places.len()
    }

    /// Adds an instance of a node, under a number that no instance of the node has. A shared one has the number 0. An
    /// `Err` is out of memory, and hands the instance back.
    pub fn add(
        &mut self,
        node: u32,
        instance: u32,
        shared: bool,
        value: I,
    ) -> Result<(), (I, AllocError)>
        requires free { IsNewPair node instance self.old }
        requires one_shared { IsTrue shared → instance ≡ 0 }
        ensures ok { IfOk result (λ _. self.new ≡ self.old ++ (place_at node instance shared, Slot.Free value) ∷ []) }
        ensures refused { IfErr result (λ e. e.0 ≡ value) }
        ensures err { IfErr result (λ _. self.new ≡ self.old) }
    {
        let place = Place {
            node,
            instance,
            shared,
        };
        let failed = match self.places.insert(place, Slot::Free(value)) {
            Ok(old) => {
                let None = old else { unreachable!() };
                return Ok(());
            }
            Err(failed) => failed,
        };
        let AllocFailed { value: (_, slot) } = failed;
        let Slot::Free(value) = slot else {
            unreachable!()
        };
        Err((value, AllocError))
    }

    /// Lends the instance that the worker means by the node: the shared one, if the node has one, else the worker's own.
    /// `Busy` names the worker that has it.
    pub fn enter(&mut self, worker: u32, node: u32) -> Entered<I>
        requires { IsSome (slot_at (place_meant worker node self.old) self.old) }
        ensures { Enters self.old worker (place_meant worker node self.old) result self.new }
    {
        let place = self.place_meant(worker, node);
        if let Some(Slot::Leased { by }) = self.places.get(&place) {
            return Entered::Busy { holder: *by };
        }
        let slot = self.replace(place, Slot::Leased { by: worker });
        let Slot::Free(value) = slot else {
            unreachable!()
        };
        Entered::Leased(Lease { place, value })
    }

    /// Puts an instance of this table that is lent back at its place.
    pub fn leave(&mut self, lease: Lease<I>)
        requires { IsTrue (is_out lease.place self.old) }
        ensures { self.new ≡ with_slot lease.place (Slot.Free lease.value) self.old }
    {
        let Lease { place, value } = lease;
        let slot = self.replace(place, Slot::Free(value));
        let Slot::Leased { by: _ } = slot else {
            unreachable!()
        };
    }

    /// Takes an instance that isn't lent out of the table for good. `None` comes where every instance is lent, or none is
    /// there.
    pub fn take_any(&mut self) -> Option<I>
        ensures some { IfSome result (λ value. TakesOne self.old value self.new) }
        ensures none { IfNone result (AllLent self.old) }
        ensures kept { IfNone result (self.new ≡ self.old) }
    {
        let at = self.last_free()?;
        let removed = self.places.shift_remove_index(at);
        let Some((_, slot)) = removed else {
            unreachable!()
        };
        let Slot::Free(value) = slot else {
            unreachable!()
        };
        Some(value)
    }

    /// Lets go of a table without instances.
    pub fn destroy_empty(self)
        requires { self ≡ [] }
    {
        let InstTable { places } = self;
        places.destroy_empty();
    }

    // The place that the worker means by the node.
    fn place_meant(&self, worker: u32, node: u32) -> Place
        ensures { result ≡ place_meant worker node self.now }
    {
        let shared = Place {
            node,
            instance: 0,
            shared: true,
        };
        if self.places.contains_key(&shared) {
            return shared;
        }
        Place {
            node,
            instance: worker,
            shared: false,
        }
    }

    // Puts a slot at a place that is there, and answers what stood there.
    fn replace(&mut self, place: Place, slot: Slot<I>) -> Slot<I>
        requires { IsSome (slot_at place self.old) }
        ensures old { slot_at place self.old ≡ Some result }
        ensures after { self.new ≡ with_slot place slot self.old }
    {
        let inserted = self.places.insert(place, slot);
        let Ok(old) = inserted else { unreachable!() };
        let Some(old) = old else { unreachable!() };
        old
    }

    // Whether an instance stands at this index, and isn't lent.
    fn is_free_at(&self, at: usize) -> bool
        ensures { result ≡ is_free_entry (slice_get self.now at) }
    {
        match self.places.get_index(at) {
            Some((_, slot)) => slot.is_free(),
            None => false,
        }
    }

    // The last index of an instance that isn't lent.
    fn last_free(&self) -> Option<usize>
        ensures some { IfSome result (λ at. IsTrue (is_free_entry (slice_get self.now at))) }
        ensures none { IfNone result (AllLent self.now) }
    {
        let mut at = self.places.len();
        while at > 0 {
            at -= 1;
            if self.is_free_at(at) {
                return Some(at);
            }
        }
        None
    }
}
