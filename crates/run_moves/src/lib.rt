//! Waiting: what the workers of a render hold, whom they wait for, and that their work ends.
#![tactic(auto)]

ghost use Rattle.run_moves.specs.Moves.{WorkersHoldLittle};
ghost use Rattle.run_moves.specs.Waiting.{WaitingGoesDown};
ghost use Rattle.run_moves.specs.Moving.{SomeoneMoves};
ghost use Rattle.run_moves.specs.Bounds.{WorkIsBounded};
ghost use Rattle.run_moves.specs.Along.{StaysInWork};

/// A worker that is somewhere in its work holds little: at most as many claims as filters stand one on another up to the
/// root, one instance, and one output. Nothing is said of a worker whose work was cut short.
pub fn workers_hold_little<F>()
    ensures { WorkersHoldLittle F }
{}

/// A worker that waits for another waits for one at an earlier node, or for one that has an instance of its own node, and
/// who has an instance waits for nobody. So workers never wait in a circle. It is not said that the other is given a
/// turn soon, nor how long the lock makes a worker wait.
pub fn waiting_goes_down<F>()
    ensures { WaitingGoesDown F }
{}

/// While no stop has come, each worker can take a turn, or waits for another, or has no more to do; and while an output is
/// not delivered, some worker can take a turn: one event, or an eviction with its publication. After it each worker is
/// somewhere in its work again. It is not said which worker is given the turn.
pub fn someone_moves<F>()
    ensures { SomeoneMoves F }
{}

/// A key is produced in at most five events for each key of its tree, and a window in two more for each output; where a stop
/// came, a worker has at most two events more than filters stand one on another. So a window whose workers take turns
/// while they can ends, with all outputs delivered or with a stop, within a stated number of events. It is not said how
/// long a turn takes, nor that the workers are given turns.
pub fn work_is_bounded<F>()
    ensures { WorkIsBounded F }
{}

/// Where each worker's events turn out to be work, as the contracts of the workers say at the end, each was somewhere in its
/// work at each point before. Of the points between an eviction and its publication nothing is said.
pub fn stays_in_work<F>()
    ensures { StaysInWork F }
{}
