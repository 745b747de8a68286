// The state of a window, as it is kept, and what an event needs of it.
ghost use Rattle.std.specs.Prelude.{◌≡◌, ◌==◌, ◌&&◌, ◌<◌, ℕ, List, nat_lt, length, not, false, replicate};
ghost use Rattle.std.specs.Prelude.{is_some, is_none, slice_get, OnOk, IfOk};
ghost use Rattle.std.specs.List.{list_any, list_all};
ghost use Rattle.std.specs.Map.{lookup};
ghost use Rattle.lru.specs.LruCache.{last_entry};
ghost use Rattle.fv_plane.specs.declared.key.Key.{Key};
ghost use Rattle.clip_graph.specs.Plan.{Application, IsKeyBelow, input_keys};
ghost use Rattle.frame_cache.specs.Cached.{at_key, has_key, same_key};
ghost use Rattle.inst_table.specs.Places.{same_place};
ghost use Rattle.serve_machine.specs.declared.event.Event.TheVariants.{Hit, Claim, Enter, Publish, Evict, Take};
ghost use Rattle.serve_machine.specs.declared.event.Event.TheVariants.{Deliver, Fail};
ghost use Rattle.serve_machine.specs.Events.{names_source};
ghost use Rattle.serve_machine.specs.Law.{worker_at};
ghost use Rattle.serve_machine.specs.Machine.{in_turn, meets, may_stop, is_by, is_running, is_key, holds_nothing, got_at, gathered, claims_at, is_some_and, is_open, is_entered, place_named};
ghost use Rattle.run_text.specs.Journal.{is_finished};
ghost use Rattle.run_text.specs.Progress.{unread};
ghost use Rattle.run_check.specs.Mirrors.{KeyMachine, KeyState, Mirrors};
ghost use Rattle.run_check.specs.Stages.{StandsFor, Begins};

use crate::claims::Claims;
use crate::leases::Leases;
use crate::nodes::{has_instances, is_key, is_own, names_source, place_named};
use crate::tally::Seat;
use clip_frames::input_at;
use clip_graph::Graph;
use fv_plane::Key;
use indexmap::IndexSet;
use inst_table::Place;
use lru::LruCache;
use serve_machine::{Event, WindowStop};
use std::alloc::{AllocError, Global};
use std::num::NonZeroUsize;

/// A frame that a worker got.
#[derive(Clone, Copy, Debug, PartialEq, Eq, Hash)]
pub(crate) struct Got {
    pub(crate) worker: u32,
    pub(crate) key: Key,
}

/// How far the lines of a text were read: none of them, the number of workers, or into a window. Before the first
/// window there are no outputs, and before the number of workers there are none of them.
#[derive(Drop)]
pub struct Tracker {
    alloc: Global,
    pub(crate) workers: u32,
    pub(crate) first: u32,
    pub(crate) count: u32,
    pub(crate) cache: LruCache<Key, ()>,
    pub(crate) claims: Claims,
    pub(crate) leases: Leases,
    pub(crate) got: IndexSet<Got>,
    pub(crate) taken: Vec<u32>,
    pub(crate) delivered: Vec<bool>,
    pub(crate) failed: Vec<bool>,
    pub(crate) entered: IndexSet<Seat>,
    pub(crate) awaits: Option<u32>,
    pub(crate) stopped: bool,
}

// Whether all are set.
fn are_true(places: &[bool]) -> bool
    ensures { result ≡ list_all (λ b. b) places.now }
{
    places.iter().all(|b| *b)
}

// So many that are not set.
fn unset(alloc: Global, count: u32) -> Result<Vec<bool>, AllocError>
    ensures { IfOk result (λ places. places.items ≡ replicate count false) }
{
    match vec![in alloc; false; count as usize] {
        Ok(places) => Ok(places),
        Err(_) => Err(AllocError),
    }
}

impl Tracker {
    /// Nothing was read, and up to `capacity` frames are to be cached. An `Err` is out of memory.
    pub fn new(alloc: Global, capacity: u32) -> Result<Tracker, AllocError>
        requires { 0 < capacity }
        ensures { (plan : List Application) (root : ℕ)
            → IfOk result (λ tracker. StandsFor plan root capacity tracker unread) }
    {
        let capacity = NonZeroUsize::new(capacity as usize).unwrap();
        let Ok(cache) = LruCache::new(alloc, capacity) else {
            return Err(AllocError);
        };
        Ok(Tracker {
            alloc,
            workers: 0,
            first: 0,
            count: 0,
            cache,
            claims: Claims::new(alloc),
            leases: Leases::new(alloc),
            got: IndexSet::new(alloc),
            taken: Vec::new(alloc),
            delivered: Vec::new(alloc),
            failed: Vec::new(alloc),
            entered: IndexSet::new(alloc),
            awaits: None,
            stopped: false,
        })
    }

    /// A window begins, with the cache as it is and no output done. An `Err` is out of memory.
    pub(crate) fn begin(&mut self, first: u32, count: u32) -> Result<(), AllocError>
        ensures { OnOk result (Begins self.old first count self.new) }
    {
        let delivered = unset(self.alloc, count)?;
        let failed = unset(self.alloc, self.workers)?;
        self.first = first;
        self.count = count;
        self.claims = Claims::new(self.alloc);
        self.leases = Leases::new(self.alloc);
        self.got = IndexSet::new(self.alloc);
        self.taken = Vec::new(self.alloc);
        self.delivered = delivered;
        self.failed = failed;
        self.entered = IndexSet::new(self.alloc);
        self.awaits = None;
        self.stopped = false;
        Ok(())
    }

    fn is_cached(&self, key: Key) -> bool
        ensures { (m : KeyMachine) (s : KeyState) → Mirrors self.now m s → result ≡ has_key key s.cache }
    {
        self.cache.contains(&key)
    }

    // Whether the worker has the claim on the key.
    pub(crate) fn claims(&self, worker: u32, key: Key) -> bool
        ensures { (m : KeyMachine) (s : KeyState) → Mirrors self.now m s
            → result ≡ is_by worker (at_key key s.claims) }
    {
        match self.claims.claimant(key) {
            Some(other) => other == worker,
            None => false,
        }
    }

    fn is_claimed(&self, key: Key) -> bool
        ensures { (m : KeyMachine) (s : KeyState) → Mirrors self.now m s → result ≡ has_key key s.claims }
    {
        self.claims.claimant(key).is_some()
    }

    // No stop is kept.
    fn is_running(&self) -> bool
        ensures { (m : KeyMachine) (s : KeyState) → Mirrors self.now m s → result ≡ is_running s }
    {
        !self.stopped
    }

    fn has_got(&self, worker: u32, key: Key) -> bool
        ensures { (m : KeyMachine) (s : KeyState) → Mirrors self.now m s
            → result ≡ is_some (got_at worker key s.got) }
    {
        self.got.contains(&Got { worker, key })
    }

    pub(crate) fn may_hit(&self, worker: u32, key: Key) -> bool
        ensures { (m : KeyMachine) (s : KeyState) → Mirrors self.now m s
            → result ≡ meets m s (Hit worker key) }
    {
        self.is_cached(key) & !self.claims(worker, key) & self.is_running()
    }

    pub(crate) fn may_claim(&self, graph: &Graph, key: Key) -> bool
        ensures { (m : KeyMachine) (s : KeyState) (worker : ℕ) → graph.now ≡ m.fixed.plan → Mirrors self.now m s
            → result ≡ meets m s (Claim worker key) }
    {
        is_key(graph, key) & !self.is_cached(key) & !self.is_claimed(key) & self.is_running()
    }

    // Whether the worker got all frames that this one is made of. An `Err` is more of them than can be counted.
    fn has_got_inputs(&self, graph: &Graph, worker: u32, key: Key) -> Result<bool, AllocError>
        requires { IsKeyBelow graph.now (length graph.now) key }
        ensures { (m : KeyMachine) (s : KeyState) → graph.now ≡ m.fixed.plan → Mirrors self.now m s
            → IfOk result (λ yes. yes ≡ is_some (gathered worker (input_keys m.fixed.plan key) s.got)) }
    {
        let mut i = 0;
        while let Some(input) = input_at(graph, key, i) {
            if !self.has_got(worker, input) {
                return Ok(false);
            }
            let Some(next) = i.checked_add(1) else {
                return Err(AllocError);
            };
            i = next;
        }
        Ok(true)
    }

    fn has_room(&self) -> bool
        ensures { (m : KeyMachine) (s : KeyState) → Mirrors self.now m s
            → result ≡ nat_lt (length s.cache) m.fixed.capacity }
    {
        self.cache.len() < self.cache.cap().get()
    }

    fn holds_nothing(&self, worker: u32) -> bool
        ensures { (m : KeyMachine) (s : KeyState) → Mirrors self.now m s
            → result ≡ holds_nothing worker s.places }
    {
        self.leases.holds_nothing(worker)
    }

    // All that a publication needs but the inputs.
    fn is_ready(&self, worker: u32, key: Key) -> bool
        ensures { (m : KeyMachine) (s : KeyState) → Mirrors self.now m s → result ≡ (is_by worker (at_key key s.claims)
            && holds_nothing worker s.places && nat_lt (length s.cache) m.fixed.capacity) }
    {
        self.claims(worker, key) & self.holds_nothing(worker) & self.has_room()
    }

    pub(crate) fn may_publish(
        &self,
        graph: &Graph,
        worker: u32,
        key: Key,
    ) -> Result<bool, AllocError>
        ensures { (m : KeyMachine) (s : KeyState) → graph.now ≡ m.fixed.plan → Mirrors self.now m s
            → IfOk result (λ yes. yes ≡ meets m s (Publish worker key)) }
    {
        if !self.is_ready(worker, key) {
            return Ok(false);
        }
        if !is_key(graph, key) {
            return Ok(false);
        }
        self.has_got_inputs(graph, worker, key)
    }

    // Whether the worker has a claim on a frame of the node.
    fn claims_at(&self, worker: u32, node: u32) -> bool
        ensures { (m : KeyMachine) (s : KeyState) → Mirrors self.now m s
            → result ≡ claims_at worker node s.claims }
    {
        self.claims.has_at(worker, node)
    }

    // Whether the instance isn't out.
    fn is_in(&self, place: Place) -> bool
        ensures { (m : KeyMachine) (s : KeyState) → Mirrors self.now m s
            → result ≡ is_none (worker_at (lookup (same_place place) s.places)) }
    {
        self.leases.holder(place).is_none()
    }

    pub(crate) fn may_enter(&self, graph: &Graph, worker: u32, node: u32, instance: u32) -> bool
        ensures { (m : KeyMachine) (s : KeyState) → graph.now ≡ m.fixed.plan
            → worker < m.fixed.workers → Mirrors self.now m s → result ≡ meets m s (Enter worker node instance) }
    {
        self.claims_at(worker, node)
            & self.holds_nothing(worker)
            & has_instances(graph, node)
            & is_own(graph, worker, node, instance)
            & self.is_in(place_named(graph, node, instance))
            & self.is_running()
    }

    // Whether the worker has the instance.
    pub(crate) fn has_lease(&self, worker: u32, place: Place) -> bool
        ensures { (m : KeyMachine) (s : KeyState) → Mirrors self.now m s
            → result ≡ is_by worker (worker_at (lookup (same_place place) s.places)) }
    {
        match self.leases.holder(place) {
            Some(other) => other == worker,
            None => false,
        }
    }

    // Whether the cache is full.
    fn is_full(&self) -> bool
        ensures { (m : KeyMachine) (s : KeyState) → Mirrors self.now m s
            → result ≡ (length s.cache == m.fixed.capacity) }
    {
        self.cache.len() == self.cache.cap().get()
    }

    // Whether the key is the last in the cache.
    fn is_last(&self, key: Key) -> bool
        ensures { (m : KeyMachine) (s : KeyState) → Mirrors self.now m s
            → result ≡ is_some_and (λ (p : Key × Unit {0}). same_key p.0 key) (last_entry s.cache) }
    {
        match self.cache.peek_lru() {
            Some((last, _)) => *last == key,
            None => false,
        }
    }

    // Whether the worker has a claim.
    fn has_any(&self, worker: u32) -> bool
        ensures { (m : KeyMachine) (s : KeyState) → Mirrors self.now m s
            → result ≡ list_any (λ c. c.1 == worker) s.claims }
    {
        self.claims.has_any(worker)
    }

    pub(crate) fn may_evict(&self, worker: u32, key: Key) -> bool
        ensures { (m : KeyMachine) (s : KeyState) → Mirrors self.now m s
            → result ≡ meets m s (Evict worker key) }
    {
        self.has_any(worker) & self.holds_nothing(worker) & self.is_full() & self.is_last(key)
    }

    fn taken_so_far(&self) -> usize
        ensures { (m : KeyMachine) (s : KeyState) → Mirrors self.now m s → result ≡ length s.taken }
    {
        self.taken.len()
    }

    pub(crate) fn may_take(&self, n: u32) -> bool
        ensures { (m : KeyMachine) (s : KeyState) (worker : ℕ) → Mirrors self.now m s
            → result ≡ meets m s (Take worker n) }
    {
        let taken = self.taken_so_far() as u128;
        (n as u128 == self.first as u128 + taken) & (taken < self.count as u128) & self.is_running()
    }

    // Whether the worker took the output at this place of the window.
    fn took(&self, worker: u32, at: usize) -> bool
        ensures { (m : KeyMachine) (s : KeyState) → Mirrors self.now m s
            → result ≡ is_by worker (slice_get s.taken at) }
    {
        match self.taken.get(at) {
            Some(other) => *other == worker,
            None => false,
        }
    }

    // Whether the output at this place of the window is not delivered.
    fn is_undelivered(&self, at: usize) -> bool
        ensures { (m : KeyMachine) (s : KeyState) → Mirrors self.now m s
            → result ≡ is_some_and is_open (slice_get s.frames at) }
    {
        match self.delivered.get(at) {
            Some(is) => !*is,
            None => false,
        }
    }

    pub(crate) fn may_deliver(&self, root: u32, worker: u32, n: u32) -> bool
        ensures { (m : KeyMachine) (s : KeyState) → root ≡ m.fixed.root → Mirrors self.now m s
            → result ≡ meets m s (Deliver worker n) }
    {
        let at = n.saturating_sub(self.first) as usize;
        !(n < self.first)
            & self.took(worker, at)
            & self.is_undelivered(at)
            & self.has_got(worker, Key { node: root, n })
    }

    // Whether the worker did not fail yet.
    fn is_well(&self, worker: u32) -> bool
        ensures { (m : KeyMachine) (s : KeyState) → Mirrors self.now m s
            → result ≡ is_some_and not (slice_get s.failed worker) }
    {
        match self.failed.get(worker as usize) {
            Some(is) => !*is,
            None => false,
        }
    }

    // Whether the worker entered the node.
    fn has_entered(&self, worker: u32, node: u32) -> bool
        ensures { (m : KeyMachine) (s : KeyState) → Mirrors self.now m s
            → result ≡ is_entered worker node s.entered }
    {
        self.entered.contains(&Seat { worker, node })
    }

    fn may_stop(&self, worker: u32, stop: WindowStop) -> bool
        ensures { (m : KeyMachine) (s : KeyState) → m.is_told ≡ false → Mirrors self.now m s
            → result ≡ may_stop m s worker stop }
    {
        match stop {
            WindowStop::Read { node } => self.has_entered(worker, node),
            WindowStop::Changed {
                node,
                want,
                got,
                ..
            } => self.has_entered(worker, node) & (got < want),
            WindowStop::Memory => true,
        }
    }

    pub(crate) fn may_fail(&self, graph: &Graph, worker: u32, stop: WindowStop) -> bool
        ensures { (m : KeyMachine) (s : KeyState) → m.is_told ≡ false → graph.now ≡ m.fixed.plan
            → Mirrors self.now m s → result ≡ meets m s (Fail worker stop) }
    {
        self.is_well(worker) & names_source(graph, stop) & self.may_stop(worker, stop)
    }

    // Whether each output is delivered.
    fn is_whole(&self) -> bool
        ensures { (m : KeyMachine) (s : KeyState) → Mirrors self.now m s → result ≡ list_all is_some s.frames }
    {
        are_true(&self.delivered)
    }

    // Whether no publication is awaited.
    fn is_free(&self) -> bool
        ensures { (m : KeyMachine) (s : KeyState) → Mirrors self.now m s → result ≡ is_none s.awaits }
    {
        self.awaits.is_none()
    }

    fn has_no_claim(&self) -> bool
        ensures { (m : KeyMachine) (s : KeyState) → Mirrors self.now m s → result ≡ (length s.claims == 0) }
    {
        self.claims.is_empty()
    }

    fn has_no_lease(&self) -> bool
        ensures { (m : KeyMachine) (s : KeyState) → Mirrors self.now m s
            → result ≡ list_all (λ e. is_open e.1) s.places }
    {
        self.leases.is_empty()
    }

    /// Whether nothing is open, so that a window may follow.
    pub(crate) fn is_finished(&self) -> bool
        ensures { (m : KeyMachine) (s : KeyState) → Mirrors self.now m s → result ≡ is_finished s }
    {
        self.has_no_claim()
            & self.has_no_lease()
            & self.is_free()
            & self.is_running()
            & self.is_whole()
    }

    // While an eviction awaits its publication nothing else may come.
    pub(crate) fn in_turn(&self, event: &Event) -> bool
        ensures { (m : KeyMachine) (s : KeyState) → Mirrors self.now m s
            → result ≡ in_turn s.awaits event.now }
    {
        let Some(waiting) = self.awaits else {
            return true;
        };
        match *event {
            Event::Publish { worker, .. } => worker == waiting,
            _ => false,
        }
    }

    // Whether it is one of the workers.
    pub(crate) fn is_worker(&self, worker: u32) -> bool
        ensures { (m : KeyMachine) (s : KeyState) → Mirrors self.now m s
            → result ≡ nat_lt worker m.fixed.workers }
    {
        worker < self.workers
    }
}
