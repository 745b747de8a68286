// What the definitions of the calls have in common, and what the journal of a core tells.
ghost use Rattle.serve_core.specs.Stands.{CallsStand};
ghost use Rattle.serve_core.specs.Turns.{TurnsAreSteady, TurnsStand};
ghost use Rattle.serve_core.specs.Runs.{RunsAreTold, WindowsAreRuns};
ghost use Rattle.serve_core.specs.Workers.{OwnEventsTell, WorkersTell};

use inst_table::Held;
pub use serve_machine::laws::{runs_refine, work_closes};

/// Each call leaves a core standing for the book and the counts of faults for which it stood, where what is handed in
/// fits them, and what it hands out fits them too. `begin_window` takes new counts.
pub fn calls_stand<I: Held>()
    ensures { CallsStand I.feed I.faults }
{}

/// Each call leaves a core of the window that it was of, for whatever the window's first core stood.
pub fn turns_stand<I: Held>()
    ensures { TurnsStand I.feed I.faults I.ends }
{}

/// Until a stop is kept, each call leaves the instances with the counts of faults that they had when the window began,
/// where an instance that comes back has its count.
pub fn turns_are_steady<I: Held>()
    ensures { TurnsAreSteady I.faults }
{}

/// Where a core stands for a told book, its journal is a run over frames too. It leads to the frames that the core has,
/// and each frame that a worker got on the way is the clip's.
pub fn runs_are_told<I: Held>()
    ensures { RunsAreTold I.feed I.faults }
{}

/// In a window a worker has in the core what its own events in the journal say: its claims, its lease, and the outputs
/// that it took and has not delivered.
pub fn own_events_tell<I>()
    ensures { OwnEventsTell I }
{}

/// Where each worker has closed what it opened, by its own events, nothing is open in the core.
pub fn workers_tell<I>()
    ensures { WorkersTell I }
{}

/// The window of a core is a run that begins with the opening keys, and it leaves the keys that are cached.
pub fn windows_are_runs<I>()
    ensures { WindowsAreRuns I }
{}
