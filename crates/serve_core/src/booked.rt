// A core as the value of a lock.
use crate::state::Core;
use inst_table::Held;
use serve_machine::Event;
use turn_lock::Booked;

/// The entries of a core are the events of its journal, each by its worker. The tag of a lock is the core that it starts
/// with: at each turn the value is a core of the window that began with it, in which no instance has failed unless a stop
/// is kept.
impl<I: Held> Booked for Core<I> {
    type Tag = Core<I>;

    type Entry = Event;

    ghost use Rattle.serve_machine.specs.Events.{worker_of};
    ghost use Rattle.serve_core.specs.Turns.{IsSteady, StandsFor};

    ghost entries = { λ c. c.journal };

    ghost by = { worker_of };

    ghost opening = { λ c. c };

    ghost stands_for = { λ c s. StandsFor I.feed I.faults I.ends c s × IsSteady I.faults c s };
}
