// The open claims, by their keys, and how many each worker has, in all and of each node.
ghost use Rattle.std.specs.Prelude.{◌≡◌, ℕ, ◌==◌, List, ◌++◌, [], ◌∷◌, length, Some, None, OnOk};
ghost use Rattle.std.specs.List.{list_any};
ghost use Rattle.fv_plane.specs.declared.key.Key.{Key};
ghost use Rattle.frame_cache.specs.Cached.{at_key, without_key};
ghost use Rattle.serve_machine.specs.Machine.{claims_at};
ghost use Rattle.run_check.specs.Claims.{AreClaims};

use crate::tally::{Seat, Tally, alone};
use fv_plane::Key;
use indexmap::IndexMap;
use std::alloc::{AllocError, Global};

/// The open claims.
#[derive(Drop)]
pub(crate) struct Claims {
    by_key: IndexMap<Key, u32>,
    at_node: Tally,
    of_worker: Tally,
}

impl Claims {
    pub(crate) fn new(alloc: Global) -> Claims
        ensures { AreClaims result [] }
    {
        Claims {
            by_key: IndexMap::new(alloc),
            at_node: Tally::new(alloc),
            of_worker: Tally::new(alloc),
        }
    }

    /// Who claimed the key.
    pub(crate) fn claimant(&self, key: Key) -> Option<u32>
        ensures { (claims : List (Key × ℕ)) → AreClaims self.now claims → result ≡ at_key key claims }
    {
        self.by_key.get(&key).copied()
    }

    /// Whether the worker has a claim on a frame of the node.
    pub(crate) fn has_at(&self, worker: u32, node: u32) -> bool
        ensures { (claims : List (Key × ℕ)) → AreClaims self.now claims → result ≡ claims_at worker node claims }
    {
        self.at_node.count(Seat { worker, node }) > 0
    }

    /// Whether the worker has a claim.
    pub(crate) fn has_any(&self, worker: u32) -> bool
        ensures { (claims : List (Key × ℕ)) → AreClaims self.now claims
            → result ≡ list_any (λ c. c.1 == worker) claims }
    {
        self.of_worker.count(alone(worker)) > 0
    }

    /// Whether none is open.
    pub(crate) fn is_empty(&self) -> bool
        ensures { (claims : List (Key × ℕ)) → AreClaims self.now claims → result ≡ (length claims == 0) }
    {
        self.by_key.is_empty()
    }

    /// Opens a claim on a key that isn't claimed. An `Err` is out of memory.
    pub(crate) fn open(&mut self, key: Key, worker: u32) -> Result<(), AllocError>
        ensures { (claims : List (Key × ℕ)) → AreClaims self.old claims → at_key key claims ≡ None
            → OnOk result (AreClaims self.new (claims ++ (key, worker) ∷ [])) }
    {
        let seat = Seat {
            worker,
            node: key.node,
        };
        match self.by_key.insert(key, worker) {
            Ok(_) => {}
            Err(_) => return Err(AllocError),
        }
        self.at_node.add(seat)?;
        self.of_worker.add(alone(worker))
    }

    /// Closes the claim of a worker on a key. An `Err` is out of memory.
    pub(crate) fn close(&mut self, key: Key, worker: u32) -> Result<(), AllocError>
        ensures { (claims : List (Key × ℕ)) → AreClaims self.old claims → at_key key claims ≡ Some worker
            → OnOk result (AreClaims self.new (without_key key claims)) }
    {
        let seat = Seat {
            worker,
            node: key.node,
        };
        self.by_key.swap_remove(&key);
        self.at_node.sub(seat)?;
        self.of_worker.sub(alone(worker))
    }
}
