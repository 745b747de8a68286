// `Core`: the cache, claims, instances, outputs and journal of a window, and the calls on them.
ghost use Rattle.std.specs.Prelude.{◌≡◌, ◌+◌, ◌-◌, ◌<◌, ◌≤◌, ◌++◌, ℕ, [], length, slice_get, replicate};
ghost use Rattle.std.specs.Prelude.{None, Some, IfOk, OnOk, OnErr, true, false};
ghost use Rattle.std.specs.Arc.{arc_value};
ghost use Rattle.std.specs.Vec.{vec_capacity, vec_len};
ghost use Rattle.fv_plane.specs.Picture.{Picture};
ghost use Rattle.clip_graph.specs.Plan.{application_at, IsPlan, input_keys};
ghost use Rattle.frame_cache.specs.Cached.{at_key, Differ};
ghost use Rattle.inst_table.specs.Places.{slot_at, PlacesDiffer};
ghost use Rattle.inst_table.specs.declared.place.Slot.TheVariants.{Leased};
ghost use Rattle.serve_machine.specs.Events.{IsKey, frame_key, mode_at, has_got, has_got_all, may_fail, names_source};
ghost use Rattle.serve_machine.specs.SerialRun.{eviction};
ghost use Rattle.serve_core.specs.Calls.{Asked, Admits, after_leave, after_publish, after_abandon};
ghost use Rattle.serve_core.specs.Calls.{TookOutput, after_deliver, after_fail, made, after_begin, after_end};
ghost use Rattle.serve_core.specs.Holds.{claims_at, holds_none, newest, IsThere};
ghost use Rattle.serve_core.specs.Kept.{leases_out, IsBetween, IsUndelivered, AnswerIsShaped, AnswerHolds};
ghost use Rattle.serve_core.specs.Runs.{IsRun};
ghost use Rattle.serve_core.specs.Sources.{shape_at, opened_at, IsFurnished, HoldTheirs};
ghost use Rattle.serve_machine.specs.Holdings.{claims_of};
ghost use Rattle.serve_machine.specs.Machine.{kept_stop, first_stop};

use crate::answers::{Admitted, Ask, Finished};
use crate::claims::{claimant, close, newest_of};
use crate::works::Works;
use clip_graph::Graph;
use frame_cache::FrameCache;
use fv_plane::{Frame, FrameMemory, Key};
use fv_spares::Spares;
use inst_table::{Entered, Held, InstTable, Lease};
use serve_machine::{Event, WindowStop};
use std::alloc::{AllocError, Global};
use std::marker::Model;
use std::mem;
use std::sync::Arc;

/// What the workers of a render share: the cache, the claims on keys, the instances, the outputs of a window, and the
/// journal of its events.
///
/// A worker is a number below the number of workers. `ask`, `enter` and `take_output` reserve room in the journal for
/// the events that close what they open. An `Err` is out of memory, and leaves the core as it was.
///
/// It isn't `Drop` where an instance isn't: take the table out.
#[derive(Drop)]
pub struct Core<I: Held> {
    alloc: Global,
    graph: Arc<Graph>,
    root: u32,
    workers: u32,
    first: u32,
    count: u32,
    opening: Vec<Key>,
    cache: FrameCache,
    claims: Vec<(Key, u32)>,
    table: InstTable<I>,
    taken: Vec<u32>,
    frames: Vec<Option<Frame>>,
    failed: Vec<bool>,
    stop: Option<WindowStop>,
    journal: Vec<Event>,
    // The events that may still have to come, for which the journal has room.
    owed: usize,
    // The memory of frames that were evicted or handed back.
    spares: Spares,
}

impl<I: Held> Model for Core<I> {
    ghost use Rattle.std.specs.Arc.{arc_value};
    ghost use Rattle.std.specs.Vec.{vec_capacity, vec_len};
    ghost use Rattle.serve_core.specs.CoreValue.{CoreValue};
    ghost use Rattle.serve_core.specs.Kept.{Kept};

    ghost Value = { CoreValue I };

    ghost view = { λ c. record {
      fixed = record {
        plan = arc_value c.graph;
        root = c.root;
        workers = c.workers;
        capacity = c.cache.capacity;
        first = c.first;
        count = c.count;
        opening = c.opening.items;
      };
      cache = c.cache.pairs;
      claims = c.claims.items;
      table = c.table;
      outputs = record { taken = c.taken.items; frames = c.frames.items };
      failed = c.failed.items;
      stop = c.stop;
      journal = c.journal.items;
    } };

    ghost invariant = { λ c. Kept I.holds (record {
      fixed = record {
        plan = arc_value c.graph;
        root = c.root;
        workers = c.workers;
        capacity = c.cache.capacity;
        first = c.first;
        count = c.count;
        opening = c.opening.items;
      };
      cache = c.cache.pairs;
      claims = c.claims.items;
      table = c.table;
      outputs = record { taken = c.taken.items; frames = c.frames.items };
      failed = c.failed.items;
      stop = c.stop;
      journal = c.journal.items;
    }) c.owed (vec_len c.journal) (vec_capacity c.journal) };
}

impl<I: Held> Core<I> {
    /// A core between windows, for a table that has the instances that the graph's modes ask for. It takes no memory.
    pub fn new(
        alloc: Global,
        graph: Arc<Graph>,
        root: u32,
        cache: FrameCache,
        workers: u32,
        table: InstTable<I>,
    ) -> Core<I>
        requires root { root < length (arc_value graph) }
        requires some { 0 < workers }
        requires empty { cache.pairs ≡ [] }
        requires furnished { IsFurnished (arc_value graph) workers table }
        requires sources { HoldTheirs I.holds (arc_value graph) table }
        requires leases { leases_out table ≡ 0 }
        ensures { result ≡ made (arc_value graph) root cache workers table }
    {
        // Called for what its contract says.
        graph.len();
        Core {
            alloc,
            graph,
            root,
            workers,
            first: 0,
            count: 0,
            opening: Vec::new(alloc),
            cache,
            claims: Vec::new(alloc),
            table,
            taken: Vec::new(alloc),
            frames: Vec::new(alloc),
            failed: Vec::new(alloc),
            stop: None,
            journal: Vec::new(alloc),
            owed: 0,
            spares: Spares::new(alloc),
        }
    }

    /// The graph that it renders.
    pub fn graph(&self) -> &Arc<Graph>
        ensures graph { arc_value result.now ≡ self.now.fixed.plan }
        ensures plan { IsPlan self.now.fixed.plan }
    {
        &self.graph
    }

    /// The node whose frames are the outputs.
    pub fn root(&self) -> u32
        ensures root { result ≡ self.now.fixed.root }
        ensures node { self.now.fixed.root < length self.now.fixed.plan }
    {
        self.root
    }

    /// The number of workers.
    pub fn workers(&self) -> u32
        ensures workers { result ≡ self.now.fixed.workers }
        ensures some { 0 < self.now.fixed.workers }
    {
        self.workers
    }

    /// The number of cached frames.
    pub fn cached(&self) -> usize
        ensures cached { result ≡ length self.now.cache }

        // What is true of every cache.
        ensures bounded { length self.now.cache ≤ self.now.fixed.capacity }
        ensures some { 0 < self.now.fixed.capacity }
        ensures differ { Differ self.now.cache }
    {
        self.cache.len()
    }

    /// The number of instances. Each that is in the table keeps the source of its node, where it has one.
    pub fn instances(&self) -> usize
        ensures instances { result ≡ length self.now.table }

        // What is true of every core.
        ensures differ { PlacesDiffer self.now.table }
        ensures sources { HoldTheirs I.holds self.now.fixed.plan self.now.table }
    {
        let _ = &self.journal;
        self.table.len()
    }

    /// In a window the journal is a run of the machine, over keys alone: it leads from the keys that were cached when
    /// the window began to what is cached, claimed, lent, taken, delivered and stopped now.
    pub fn account(&self)
        ensures { 0 < self.now.fixed.count → IsRun self.now }
    {
        let _ = &self.journal;
    }

    /// The claim that the worker took last, of those that are open.
    pub fn newest_claim(&self, worker: u32) -> Option<Key>
        ensures { result ≡ newest (claims_of worker self.now.claims) }
    {
        newest_of(&self.claims, worker)
    }

    /// Begins a window of 1 to 32 outputs from number `first` on, between windows. It empties the journal and reserves
    /// room there for one `Fail` of each worker.
    pub fn begin_window(&mut self, first: u32, count: u32) -> Result<(), AllocError>
        requires between { self.old.fixed.count ≡ 0 }
        requires some { 0 < count }
        requires few { count ≤ 32 }
        requires numbers { first + count ≤ (application_at self.old.fixed.plan self.old.fixed.root).info.frames }
        ensures ok { OnOk result (self.new ≡ after_begin self.old first count) }
        ensures err { OnErr result (self.new ≡ self.old) }

        // What is true of every core between windows.
        ensures between { IsBetween self.old.claims self.old.table self.old.failed self.old.stop self.old.journal }
    {
        // Keys differ, and are no more than the capacity.
        self.cache.len();
        let opening = self.cache.keys()?;
        let frames = undelivered(self.alloc, count)?;
        let failed = vec![in self.alloc; false; self.workers as usize]?;
        let journal = Vec::with_capacity(self.alloc, self.workers as usize)?;
        self.first = first;
        self.count = count;
        self.opening = opening;
        self.taken = Vec::new(self.alloc);
        self.frames = frames;
        self.failed = failed;
        self.stop = None;
        self.journal = journal;
        self.owed = self.workers as usize;
        Ok(())
    }

    /// Gives the worker the least output that isn't taken, which it is to deliver. `None` comes where all are taken or
    /// the window was stopped.
    pub fn take_output(&mut self, worker: u32) -> Result<Option<u32>, AllocError>
        requires { worker < self.old.fixed.workers }
        ensures ok { IfOk result (λ taken. TookOutput self.old worker taken self.new) }
        ensures undelivered { IfOk result (λ taken. IsUndelivered self.old taken) }
        ensures stopped { self.old.stop ≡ first_stop self.old.journal }
        ensures err { OnErr result (self.new ≡ self.old) }
        ensures running { OnErr result (self.old.stop ≡ None) }
    {
        let at = self.taken.len();
        if self.stop.is_some() || at == self.count as usize {
            return Ok(None);
        }
        self.journal.reserve(self.owed + 2)?;
        self.taken.push(worker)?;
        self.owed += 1;
        let n = self.first + at as u32;
        self.journal.push_reserved(Event::Take { worker, n });
        Ok(Some(n))
    }

    /// Asks for a frame, in a window, for a worker that has no claim on it. A cached frame is shared, and comes to the
    /// front of the cache. One that is neither cached nor claimed is claimed for the worker.
    pub fn ask(&mut self, worker: u32, key: Key) -> Result<Ask, AllocError>
        requires worker { worker < self.old.fixed.workers }
        requires window { 0 < self.old.fixed.count }
        requires key { IsKey self.old.fixed.plan key }
        requires open { at_key key self.old.claims ≡ Some worker → ⊥ }
        ensures ok { IfOk result (λ answer. Asked self.old worker key answer self.new) }
        ensures shape { IfOk result (λ answer. AnswerIsShaped self.old.fixed.plan key answer) }
        ensures stopped { self.old.stop ≡ first_stop self.old.journal }
        ensures err { OnErr result (self.new ≡ self.old) }
        ensures running { OnErr result (self.old.stop ≡ None) }
    {
        if let Some(stop) = self.stop {
            return Ok(Ask::Stopped(stop));
        }
        self.journal.reserve(self.owed + 3)?;
        if let Some(frame) = self.cache.get(key)? {
            self.journal.push_reserved(Event::Hit { worker, key });
            return Ok(Ask::Hit(frame));
        }
        if let Some(by) = claimant(&self.claims, key) {
            return Ok(Ask::Taken { by });
        }
        self.claims.push((key, worker))?;
        self.owed += 2;
        self.journal.push_reserved(Event::Claim { worker, key });
        Ok(Ask::Claimed)
    }

    /// Asks for the worker's instance of a node, whose mode isn't 1, for a worker that has a claim on a frame of the
    /// node and has no lease.
    pub fn enter(&mut self, worker: u32, node: u32) -> Result<Admitted<I>, AllocError>
        requires worker { worker < self.old.fixed.workers }
        requires node { node < length self.old.fixed.plan }
        requires mode { (mode_at self.old.fixed.plan node ≡ 1) → ⊥ }
        requires claim { claims_at worker node self.old.claims ≡ true }
        requires hands { holds_none worker self.old.table ≡ true }
        ensures ok { IfOk result (λ answer. Admits self.old worker node answer self.new) }
        ensures source { IfOk result (λ answer. AnswerHolds I.holds self.old.fixed.plan node answer) }
        ensures stopped { self.old.stop ≡ first_stop self.old.journal }
        ensures err { OnErr result (self.new ≡ self.old) }
        ensures running { OnErr result (self.old.stop ≡ None) }
    {
        if let Some(stop) = self.stop {
            return Ok(Admitted::Stopped(stop));
        }
        self.journal.reserve(self.owed + 2)?;
        match self.table.enter(worker, node) {
            Entered::Leased(lease) => {
                let instance = lease.instance();
                self.owed += 1;
                self.journal.push_reserved(Event::Enter {
                    worker,
                    node,
                    instance,
                });
                Ok(Admitted::Leased(lease))
            }
            Entered::Busy { holder } => Ok(Admitted::Busy { holder }),
        }
    }

    /// Takes the worker's instance back, which still keeps the source that it kept. It takes no memory.
    pub fn leave(&mut self, worker: u32, lease: Lease<I>)
        requires worker { worker < self.old.fixed.workers }
        requires lease { slot_at lease.place self.old.table ≡ Some (Leased worker) }
        requires source { I.holds lease.value ≡ opened_at self.old.fixed.plan lease.place.node }
        ensures { self.new ≡ after_leave self.old worker lease.place lease.value }
    {
        let node = lease.node();
        let instance = lease.instance();
        self.table.leave(lease);
        self.owed -= 1;
        self.journal.push_reserved(Event::Leave {
            worker,
            node,
            instance,
        });
    }

    /// Caches the frame of the worker's claim, for a worker that got the frames that it is made of and has no lease. A
    /// full cache drops its last frame first, whose memory is kept for frames to come. After an `Err` the claim is still
    /// there.
    pub fn publish(&mut self, worker: u32, key: Key, frame: Frame) -> Result<(), AllocError>
        requires worker { worker < self.old.fixed.workers }
        requires claim { at_key key self.old.claims ≡ Some worker }
        requires hands { holds_none worker self.old.table ≡ true }
        requires got { has_got_all worker (input_keys self.old.fixed.plan key) self.old.journal ≡ true }
        requires shape { frame.shape ≡ shape_at self.old.fixed.plan key.node }
        ensures ok { OnOk result (self.new ≡ after_publish self.old worker key frame) }
        ensures err { OnErr result (self.new ≡ self.old) }
    {
        // There are no more frames than the capacity.
        self.cache.len();
        let dropped = self.cache.put(key, frame)?;
        keep_dropped(&mut self.cache, &mut self.spares);
        close(&mut self.claims, key);
        self.owed -= 2;
        note_evicted(&mut self.journal, worker, dropped);
        self.journal.push_reserved(Event::Publish { worker, key });
        Ok(())
    }

    /// Gives the worker's claim up. It takes no memory.
    pub fn abandon(&mut self, worker: u32, key: Key)
        requires worker { worker < self.old.fixed.workers }
        requires claim { at_key key self.old.claims ≡ Some worker }
        ensures { self.new ≡ after_abandon self.old worker key }
    {
        close(&mut self.claims, key);
        self.owed -= 2;
        self.journal.push_reserved(Event::Abandon { worker, key });
    }

    /// Keeps output `n`, which the worker took and whose frame it got. It takes no memory.
    pub fn deliver(&mut self, worker: u32, n: u32, frame: Frame)
        requires worker { worker < self.old.fixed.workers }
        requires low { self.old.fixed.first ≤ n }
        requires taken { slice_get self.old.outputs.taken (n - self.old.fixed.first) ≡ Some worker }
        requires open { slice_get self.old.outputs.frames (n - self.old.fixed.first) ≡ Some None }
        requires got { has_got worker (frame_key self.old.fixed.root n) self.old.journal ≡ true }
        requires shape { frame.shape ≡ shape_at self.old.fixed.plan self.old.fixed.root }
        ensures { self.new ≡ after_deliver self.old worker n frame }
    {
        self.frames[(n - self.first) as usize] = Some(frame);
        self.owed -= 1;
        self.journal.push_reserved(Event::Deliver { worker, n });
    }

    /// Stops the window, by a worker that hasn't failed in it. A source that the stop names is one that the worker
    /// entered, and one whose read failed is in the table. The first stop is kept. It takes no memory.
    pub fn fail(&mut self, worker: u32, stop: WindowStop)
        requires worker { worker < self.old.fixed.workers }
        requires fresh { slice_get self.old.failed worker ≡ Some false }
        requires cause { may_fail worker stop self.old.journal ≡ true }
        requires source { names_source self.old.fixed.plan stop ≡ true }
        requires there { IsThere self.old.table stop }
        ensures { self.new ≡ after_fail self.old worker stop }
    {
        self.failed[worker as usize] = true;
        self.stop = Some(first_of(self.stop, stop));
        self.owed -= 1;
        self.journal.push_reserved(Event::Fail { worker, stop });
    }

    /// Ends a window, with no claim and no lease open, and hands out its outputs and its journal. The cache and the
    /// instances stay. It takes no memory.
    pub fn end_window(&mut self) -> Finished
        requires claims { self.old.claims ≡ [] }
        requires leases { leases_out self.old.table ≡ 0 }
        ensures core { self.new ≡ after_end self.old }
        ensures frames { result.frames.items ≡ self.old.outputs.frames }
        ensures stop { result.stop ≡ self.old.stop }
        ensures events { result.events.items ≡ self.old.journal }
        ensures stopped { result.stop ≡ first_stop self.old.journal }
        ensures size { length result.frames.items ≡ self.old.fixed.count }
        ensures shapes { (j : ℕ) (frame : Picture) → slice_get result.frames.items j ≡ Some (Some frame)
            → frame.shape ≡ shape_at self.old.fixed.plan self.old.fixed.root }
    {
        let frames = mem::replace(&mut self.frames, Vec::new(self.alloc));
        let events = mem::replace(&mut self.journal, Vec::new(self.alloc));
        let stop = self.stop;
        self.first = 0;
        self.count = 0;
        self.taken = Vec::new(self.alloc);
        self.failed = Vec::new(self.alloc);
        self.stop = None;
        self.owed = 0;
        Finished {
            frames,
            stop,
            events,
        }
    }

    /// Keeps the memory of frames that are no longer needed for frames to come, where nothing else shares it. No contract
    /// sees that memory.
    pub fn keep_memory(&mut self, frames: Vec<Option<Frame>>)
        ensures { self.new ≡ self.old }
    {
        self.spares.keep_all(frames);
    }

    /// The instances, with no claim and no lease open.
    pub fn into_table(self) -> InstTable<I>
        requires claims { self.claims ≡ [] }
        requires leases { leases_out self.table ≡ 0 }
        ensures { result ≡ self.table }
    {
        let Core {
            alloc: _,
            graph: _,
            root: _,
            workers: _,
            first: _,
            count: _,
            opening: _,
            cache: _,
            claims: _,
            table,
            taken: _,
            frames: _,
            failed: _,
            stop: _,
            journal: _,
            owed: _,
            spares: _,
        } = self;
        table
    }
}

impl<I: Works> Core<I> {
    /// Memory for the frame of a key, as far as there is some. No contract sees that memory.
    pub fn memory_for(&mut self, key: Key) -> FrameMemory
        requires { IsKey self.old.fixed.plan key }
        ensures { self.new ≡ self.old }
    {
        I::memory_for(&self.graph, key, &mut self.spares)
    }
}

// Keeps the memory of the frame that the cache dropped.
fn keep_dropped(cache: &mut FrameCache, spares: &mut Spares)
    ensures { cache.new ≡ cache.old }
{
    if let Some(frame) = cache.take_dropped() {
        spares.keep(frame);
    }
}

// The stop that is kept.
fn first_of(kept: Option<WindowStop>, stop: WindowStop) -> WindowStop
    ensures { result ≡ kept_stop kept stop }
{
    match kept {
        Some(first) => first,
        None => stop,
    }
}

// The eviction of a key that the cache dropped.
fn note_evicted(journal: &mut Vec<Event>, worker: u32, dropped: Option<Key>)
    requires { vec_len journal.old < vec_capacity journal.old }
    ensures items { journal.new.items ≡ journal.old.items ++ eviction worker dropped }
    ensures len { vec_len journal.new ≤ vec_len journal.old + 1 }
    ensures capacity { vec_capacity journal.new ≡ vec_capacity journal.old }
{
    if let Some(key) = dropped {
        journal.push_reserved(Event::Evict { worker, key });
    }
}

// So many outputs that are not delivered.
fn undelivered(alloc: Global, count: u32) -> Result<Vec<Option<Frame>>, AllocError>
    ensures { IfOk result (λ frames. frames.items ≡ replicate count None) }
{
    let mut frames = Vec::with_capacity(alloc, count as usize)?;
    for at in 0..count {
        frames.push(None)?;
    }
    Ok(frames)
}
