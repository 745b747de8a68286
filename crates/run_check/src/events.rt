// What each event changes, where it may come.
ghost use Rattle.std.specs.Prelude.{◌≡◌, ◌<◌, false, true, slice_set, IfOk};
ghost use Rattle.serve_machine.specs.declared.event.Event.TheVariants.{Hit, Claim, Enter, Leave, Evict, Publish};
ghost use Rattle.serve_machine.specs.declared.event.Event.TheVariants.{Abandon, Take, Deliver, Fail};
ghost use Rattle.run_check.specs.Mirrors.{KeyMachine, KeyState, Mirrors, Steps};

use crate::nodes::place_named;
use crate::tally::Seat;
use crate::tracker::{Got, Tracker};
use clip_graph::Graph;
use fv_plane::Key;
use serve_machine::WindowStop;
use std::alloc::AllocError;

// Sets a place, if it is there.
fn set_true(places: &mut Vec<bool>, at: usize)
    ensures { places.new.items ≡ slice_set places.old.items at true }
{
    if at < places.len() {
        places[at] = true;
    }
}

impl Tracker {
    /// A worker finds a frame in the cache. The answer is false where it may not; an `Err` is out of memory.
    pub(crate) fn hit(&mut self, worker: u32, key: Key) -> Result<bool, AllocError>
        ensures { (m : KeyMachine) (s : KeyState) → Mirrors self.old m s
            → IfOk result (λ yes. Steps m s (Hit worker key) yes self.new) }
    {
        if !self.may_hit(worker, key) {
            return Ok(false);
        }
        self.cache.promote(&key);
        match self.got.insert(Got { worker, key }) {
            Ok(_) => Ok(true),
            Err(_) => Err(AllocError),
        }
    }

    /// A worker claims a frame. The answer is false where it may not; an `Err` is out of memory.
    pub(crate) fn claim(&mut self, graph: &Graph, worker: u32, key: Key) -> Result<bool, AllocError>
        ensures { (m : KeyMachine) (s : KeyState) → graph.now ≡ m.fixed.plan → Mirrors self.old m s
            → IfOk result (λ yes. Steps m s (Claim worker key) yes self.new) }
    {
        if !self.may_claim(graph, key) {
            return Ok(false);
        }
        match self.claims.open(key, worker) {
            Ok(()) => Ok(true),
            Err(AllocError) => Err(AllocError),
        }
    }

    /// A worker takes an instance. The answer is false where it may not; an `Err` is out of memory.
    pub(crate) fn enter(
        &mut self,
        graph: &Graph,
        worker: u32,
        node: u32,
        instance: u32,
    ) -> Result<bool, AllocError>
        ensures { (m : KeyMachine) (s : KeyState) → graph.now ≡ m.fixed.plan → worker < m.fixed.workers
            → Mirrors self.old m s → IfOk result (λ yes. Steps m s (Enter worker node instance) yes self.new) }
    {
        if !self.may_enter(graph, worker, node, instance) {
            return Ok(false);
        }
        match self.leases.lend(place_named(graph, node, instance), worker) {
            Ok(()) => {}
            Err(AllocError) => return Err(AllocError),
        }
        match self.entered.insert(Seat { worker, node }) {
            Ok(_) => Ok(true),
            Err(_) => Err(AllocError),
        }
    }

    /// A worker gives an instance back. The answer is false where it may not; an `Err` is out of memory.
    pub(crate) fn leave(
        &mut self,
        graph: &Graph,
        worker: u32,
        node: u32,
        instance: u32,
    ) -> Result<bool, AllocError>
        ensures { (m : KeyMachine) (s : KeyState) → graph.now ≡ m.fixed.plan → Mirrors self.old m s
            → IfOk result (λ yes. Steps m s (Leave worker node instance) yes self.new) }
    {
        let place = place_named(graph, node, instance);
        if !self.has_lease(worker, place) {
            return Ok(false);
        }
        match self.leases.give_back(place, worker) {
            Ok(()) => Ok(true),
            Err(AllocError) => Err(AllocError),
        }
    }

    /// A worker evicts the last frame of the full cache. The answer is false where it may not.
    pub(crate) fn evict(&mut self, worker: u32, key: Key) -> bool
        ensures { (m : KeyMachine) (s : KeyState) → Mirrors self.old m s
            → Steps m s (Evict worker key) result self.new }
    {
        if !self.may_evict(worker, key) {
            return false;
        }
        self.cache.pop_lru();
        self.awaits = Some(worker);
        true
    }

    /// A worker publishes a frame. The answer is false where it may not; an `Err` is out of memory.
    pub(crate) fn publish(
        &mut self,
        graph: &Graph,
        worker: u32,
        key: Key,
    ) -> Result<bool, AllocError>
        ensures { (m : KeyMachine) (s : KeyState) → graph.now ≡ m.fixed.plan → Mirrors self.old m s
            → IfOk result (λ yes. Steps m s (Publish worker key) yes self.new) }
    {
        match self.may_publish(graph, worker, key) {
            Ok(true) => {}
            Ok(false) => return Ok(false),
            Err(AllocError) => return Err(AllocError),
        }
        match self.claims.close(key, worker) {
            Ok(()) => {}
            Err(AllocError) => return Err(AllocError),
        }
        match self.cache.push(key, ()) {
            Ok(_) => {}
            Err(_) => return Err(AllocError),
        }
        self.awaits = None;
        match self.got.insert(Got { worker, key }) {
            Ok(_) => Ok(true),
            Err(_) => Err(AllocError),
        }
    }

    /// A worker gives a claim up. The answer is false where it may not; an `Err` is out of memory.
    pub(crate) fn abandon(&mut self, worker: u32, key: Key) -> Result<bool, AllocError>
        ensures { (m : KeyMachine) (s : KeyState) → Mirrors self.old m s
            → IfOk result (λ yes. Steps m s (Abandon worker key) yes self.new) }
    {
        if !self.claims(worker, key) {
            return Ok(false);
        }
        match self.claims.close(key, worker) {
            Ok(()) => Ok(true),
            Err(AllocError) => Err(AllocError),
        }
    }

    /// A worker takes the next output. The answer is false where it may not; an `Err` is out of memory.
    pub(crate) fn take(&mut self, worker: u32, n: u32) -> Result<bool, AllocError>
        ensures { (m : KeyMachine) (s : KeyState) → Mirrors self.old m s
            → IfOk result (λ yes. Steps m s (Take worker n) yes self.new) }
    {
        if !self.may_take(n) {
            return Ok(false);
        }
        match self.taken.push(worker) {
            Ok(()) => Ok(true),
            Err(_) => Err(AllocError),
        }
    }

    /// A worker delivers an output that it took. The answer is false where it may not.
    pub(crate) fn deliver(&mut self, root: u32, worker: u32, n: u32) -> bool
        ensures { (m : KeyMachine) (s : KeyState) → root ≡ m.fixed.root → Mirrors self.old m s
            → Steps m s (Deliver worker n) result self.new }
    {
        if !self.may_deliver(root, worker, n) {
            return false;
        }
        let at = n.saturating_sub(self.first) as usize;
        set_true(&mut self.delivered, at);
        true
    }

    /// A worker stops. The answer is false where it may not.
    pub(crate) fn fail(&mut self, graph: &Graph, worker: u32, stop: WindowStop) -> bool
        ensures { (m : KeyMachine) (s : KeyState) → m.is_told ≡ false → graph.now ≡ m.fixed.plan
            → Mirrors self.old m s → Steps m s (Fail worker stop) result self.new }
    {
        if !self.may_fail(graph, worker, stop) {
            return false;
        }
        set_true(&mut self.failed, worker as usize);
        self.stopped = true;
        true
    }
}
