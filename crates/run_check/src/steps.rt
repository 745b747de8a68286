// One line after the other.
ghost use Rattle.std.specs.Prelude.{◌≡◌, ◌<◌, length, is_some, ℕ, List, IfOk};
ghost use Rattle.clip_graph.specs.Plan.{Application, IsPlan};
ghost use Rattle.serve_machine.specs.Events.{worker_of};
ghost use Rattle.run_text.specs.declared.line.Line.TheVariants.{Workers as OfWorkers, Window as OfWindow, Did};
ghost use Rattle.run_text.specs.Progress.{Progress, next};
ghost use Rattle.run_check.specs.Mirrors.{KeyMachine, KeyState, Mirrors, Steps, IsMachineOf};
ghost use Rattle.run_check.specs.Stages.{StandsFor, Goes, may_act};

use crate::nodes::is_window;
use crate::tracker::Tracker;
use clip_graph::Graph;
use run_text::Line;
use serve_machine::Event;
use std::alloc::AllocError;

impl Tracker {
    // Makes an event of one of the workers, if it has what it needs.
    fn make(&mut self, graph: &Graph, root: u32, event: &Event) -> Result<bool, AllocError>
        ensures { (m : KeyMachine) (s : KeyState) → IsMachineOf m graph.now root → worker_of event.now < m.fixed.workers
            → Mirrors self.old m s → IfOk result (λ yes. Steps m s event.now yes self.new) }
    {
        match *event {
            Event::Hit { worker, key } => self.hit(worker, key),
            Event::Claim { worker, key } => self.claim(graph, worker, key),
            Event::Enter {
                worker,
                node,
                instance,
            } => self.enter(graph, worker, node, instance),
            Event::Leave {
                worker,
                node,
                instance,
            } => self.leave(graph, worker, node, instance),
            Event::Evict { worker, key } => Ok(self.evict(worker, key)),
            Event::Publish { worker, key } => self.publish(graph, worker, key),
            Event::Abandon { worker, key } => self.abandon(worker, key),
            Event::Take { worker, n } => self.take(worker, n),
            Event::Deliver { worker, n } => Ok(self.deliver(root, worker, n)),
            Event::Fail { worker, stop } => Ok(self.fail(graph, worker, stop)),
        }
    }

    // Whether an event of this worker may come at all: inside a window, in turn.
    fn may_act(&self, event: &Event) -> bool
        ensures { (plan : List Application) (root capacity : ℕ) (p : Progress)
            → StandsFor plan root capacity self.now p → result ≡ may_act p event.now }
    {
        (self.count > 0) & self.in_turn(event) & self.is_worker(event.worker())
    }

    // A worker does something. An `Err` is out of memory.
    fn did(&mut self, graph: &Graph, root: u32, event: &Event) -> Result<bool, AllocError>
        ensures { (capacity : ℕ) (p : Progress) → StandsFor graph.now root capacity self.old p → IfOk result
            (Goes (StandsFor graph.now root capacity self.new) (next graph.now root capacity p (Did event.now))) }
    {
        if !self.may_act(event) {
            return Ok(false);
        }
        self.make(graph, root, event)
    }

    fn may_begin(&self, graph: &Graph, root: u32, first: u32, count: u32) -> bool
        requires inside { root < length graph.now }
        ensures { (capacity : ℕ) (p : Progress) → StandsFor graph.now root capacity self.now p
            → result ≡ is_some (next graph.now root capacity p (OfWindow first count)) }
    {
        (self.workers > 0) & self.is_finished() & is_window(graph, root, first, count)
    }

    // The next window begins. An `Err` is out of memory.
    fn window(
        &mut self,
        graph: &Graph,
        root: u32,
        first: u32,
        count: u32,
    ) -> Result<bool, AllocError>
        requires plan { IsPlan graph.now }
        requires inside { root < length graph.now }
        ensures { (capacity : ℕ) (p : Progress) → StandsFor graph.now root capacity self.old p → IfOk result
            (Goes (StandsFor graph.now root capacity self.new) (next graph.now root capacity p (OfWindow first count))) }
    {
        if !self.may_begin(graph, root, first, count) {
            return Ok(false);
        }
        match self.begin(first, count) {
            Ok(()) => Ok(true),
            Err(AllocError) => Err(AllocError),
        }
    }

    fn may_name(&self, count: u32) -> bool
        ensures { (plan : List Application) (root capacity : ℕ) (p : Progress) → StandsFor plan root capacity self.now p
            → result ≡ is_some (next plan root capacity p (OfWorkers count)) }
    {
        (self.workers == 0) & (count > 0) & (count <= 16)
    }

    // The number of the workers. An `Err` is out of memory.
    fn name(&mut self, graph: &Graph, count: u32) -> Result<bool, AllocError>
        requires plan { IsPlan graph.now }
        ensures { (root capacity : ℕ) (p : Progress) → StandsFor graph.now root capacity self.old p → IfOk result
            (Goes (StandsFor graph.now root capacity self.new) (next graph.now root capacity p (OfWorkers count))) }
    {
        if !self.may_name(count) {
            return Ok(false);
        }
        self.workers = count;
        match self.begin(0, 0) {
            Ok(()) => Ok(true),
            Err(AllocError) => Err(AllocError),
        }
    }

    /// Reads one more line. The answer is false where it may not come next; an `Err` is out of memory.
    pub fn read(&mut self, graph: &Graph, root: u32, line: &Line) -> Result<bool, AllocError>
        requires plan { IsPlan graph.now }
        requires inside { root < length graph.now }
        ensures { (capacity : ℕ) (p : Progress) → StandsFor graph.now root capacity self.old p → IfOk result
            (Goes (StandsFor graph.now root capacity self.new) (next graph.now root capacity p line.now)) }
    {
        match *line {
            Line::Workers(count) => self.name(graph, count),
            Line::Window { first, count } => self.window(graph, root, first, count),
            Line::Did(event) => self.did(graph, root, &event),
        }
    }
}
