// A window that ended: its events are kept, and its frames put.
ghost use Rattle.std.specs.Prelude.{◌≡◌, ◌+◌, ◌<◌, ◌∷◌, ◌++◌, [], OnOk, IfErr};
ghost use Rattle.std.specs.Vec.{vec_capacity, vec_len};
ghost use Rattle.fv_io.specs.Sink.{IsLater};
ghost use Rattle.serve_machine.specs.Events.{windows_of};
ghost use Rattle.prefetch.specs.Windows.{with_window, PutsFinished, PutStops};

use crate::frames::put_frames;
use crate::stops::RenderStop;
use fv_io::{Failed, Sink};
use inst_table::Held;
use serve_core::{Core, Finished};
use serve_machine::{Event, Record, Windowed};

/// Keeps the events of a window in the journal, which has room for one. No memory is held beyond that of the events.
pub(crate) fn keep_events(first: u32, count: u32, mut events: Vec<Event>, journal: &mut Record)
    requires room { vec_len journal.old.windows < vec_capacity journal.old.windows }
    ensures { windows_of journal.new ≡ with_window (windows_of journal.old) first count events.items }
{
    events.shrink_to_fit();
    journal.windows.push_reserved(Windowed {
        first,
        count,
        events,
    });
}

/// Keeps the events of a window in the journal, which has room for one, and puts the frames where no stop is kept. Then
/// the core gets their memory.
pub(crate) fn put_finished<I: Held, K: Sink>(
    core: &mut Core<I>,
    first: u32,
    count: u32,
    finished: Finished,
    out: &mut K,
    journal: &mut Record,
) -> Result<(), RenderStop>
    requires room { vec_len journal.old.windows < vec_capacity journal.old.windows }
    ensures log { windows_of journal.new ≡ with_window (windows_of journal.old) first count finished.events.items }
    ensures ok { OnOk result (PutsFinished K.Sink out.old out.new finished) }
    ensures stop { IfErr result (PutStops K.Sink out.old out.new finished) }
    ensures later { IsLater K.Sink out.old out.new }
    ensures core { core.new ≡ core.old }
{
    let Finished {
        frames,
        stop,
        events,
    } = finished;
    keep_events(first, count, events, journal);
    if let Some(stop) = stop {
        return Err(RenderStop::Stopped(stop));
    }
    let put = put_frames(out, &frames);
    core.keep_memory(frames);
    match put {
        Ok(()) => Ok(()),
        Err(Failed) => Err(RenderStop::Write),
    }
}
