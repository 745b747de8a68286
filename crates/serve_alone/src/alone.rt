// A worker that is alone: its run through a window.
ghost use Rattle.std.specs.Prelude.{◌≡◌, ◌<◌, IfOk, IfErr, OnOk};
ghost use Rattle.serve_alone.specs.Alone.{Alone};
ghost use Rattle.serve_alone.specs.Windows.{Ready, Stepped, StepCut, Fresh, Served, WindowCut};

use crate::produce::produce;
use clip_graph::Graph;
use fv_plane::Key;
use serve_core::{Core, Worker, Works};
use serve_machine::WindowStop;
use std::alloc::Global;

// Delivers the next output. False where all are taken.
fn deliver_next<I: Works>(
    alloc: Global,
    core: &mut Core<I>,
    graph: &Graph,
) -> Result<bool, WindowStop>
    requires alone { Alone graph.now core.old }
    requires ready { Ready graph.now core.old }
    ensures ok { IfOk result (λ more. Stepped I.Held graph.now core.old more core.new) }
    ensures err { IfErr result (λ stop. StepCut I.Held graph.now core.old stop core.new) }
{
    let n = match core.take_output(0) {
        Ok(Some(n)) => n,
        Ok(None) => return Ok(false),
        Err(_) => return Err(WindowStop::Memory),
    };
    let key = Key {
        node: core.root(),
        n,
    };
    match produce(alloc, core, graph, key) {
        Ok(frame) => {
            core.deliver(0, n, frame);
            Ok(true)
        }
        Err(stop) => Err(stop),
    }
}

// Takes and delivers outputs until none is left, or one is cut short.
fn deliver_all<I: Works>(alloc: Global, core: &mut Core<I>, graph: &Graph) -> Result<(), WindowStop>
    requires alone { Alone graph.now core.old }
    requires fresh { Fresh graph.now core.old }
    ensures ok { OnOk result (Served I.Held graph.now core.old core.old.fixed.count core.new) }
    ensures err { IfErr result (λ stop. WindowCut I.Held graph.now core.old stop core.new) }
{
    'outputs: loop {
        match deliver_next(alloc, core, graph) {
            Ok(true) => {}
            Ok(false) => return Ok(()),
            Err(stop) => {
                core.fail(0, stop);
                return Err(stop);
            }
        }
    }
}

/// Takes and delivers the outputs of a window until none is left, for a core of one worker in a window that has no
/// event yet. It makes exactly the events of the serial run, or events that a stop cut short; then no claim and no
/// lease is open.
pub fn run_alone<I: Works>(
    alloc: Global,
    worker: &mut Worker,
    core: &mut Core<I>,
) -> Result<(), WindowStop>
    requires alone { Alone worker.old.plan core.old }
    requires fresh { Fresh worker.old.plan core.old }
    ensures ok { OnOk result (Served I.Held worker.old.plan core.old core.old.fixed.count core.new) }
    ensures err { IfErr result (λ stop. WindowCut I.Held worker.old.plan core.old stop core.new) }
    ensures worker { worker.new ≡ worker.old }
{
    deliver_all(alloc, core, worker.graph())
}
