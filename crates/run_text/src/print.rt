// `print_journal`: the text of a journal, put.
ghost use Rattle.std.specs.Prelude.{◌≡◌, ◌≤◌, ◌++◌, [], map, flat_map, OnOk, OnErr};
ghost use Rattle.std.specs.List.{AllByRecursion};
ghost use Rattle.fv_io.specs.Sink.{Puts, PutsPrefix, SinkFailed, IsLater};
ghost use Rattle.serve_machine.specs.Events.{window_of, windows_of};
ghost use Rattle.run_text.specs.declared.line.Line.TheVariants.{Did};
ghost use Rattle.run_text.specs.Lines.{LineFits, lines_text, window_lines, journal_lines, journal_text};
ghost use Rattle.run_text.specs.Gathered.{PutsAllBut};

use crate::gather::{BLOCK, add, put_all};
use crate::lines::{event_line, window_line, workers_line};
use arrayvec::ArrayString;
use fv_io::{Failed, Sink};
use serve_machine::{Event, Record, Windowed};

// Gathers the lines of some events.
fn add_events<K: Sink>(
    out: &mut K,
    buf: &mut ArrayString<BLOCK>,
    events: &[Event],
) -> Result<(), Failed>
    ensures put { OnOk result (PutsAllBut K.Sink out.old out.new
        (buf.old.bytes ++ lines_text (map Did events.now)) buf.new.bytes) }
    ensures fits { OnOk result (AllByRecursion LineFits (map Did events.now)) }
    ensures cut { OnErr result (PutsPrefix K.Sink out.old out.new (buf.old.bytes ++ lines_text (map Did events.now))) }
    ensures steady { OnOk result (K.faults out.new ≡ K.faults out.old) }
    ensures failed { OnErr result (SinkFailed K.Sink out.old out.new) }
    ensures later { IsLater K.Sink out.old out.new }
{
    for event in events {
        match add(out, buf, &event_line(event)) {
            Ok(()) => {}
            Err(Failed) => return Err(Failed),
        }
    }
    Ok(())
}

// Gathers the lines of a window.
fn add_window<K: Sink>(
    out: &mut K,
    buf: &mut ArrayString<BLOCK>,
    windowed: &Windowed,
) -> Result<(), Failed>
    ensures put { OnOk result (PutsAllBut K.Sink out.old out.new
        (buf.old.bytes ++ lines_text (window_lines (window_of windowed.now))) buf.new.bytes) }
    ensures fits { OnOk result (AllByRecursion LineFits (window_lines (window_of windowed.now))) }
    ensures cut { OnErr result (PutsPrefix K.Sink out.old out.new
        (buf.old.bytes ++ lines_text (window_lines (window_of windowed.now)))) }
    ensures steady { OnOk result (K.faults out.new ≡ K.faults out.old) }
    ensures failed { OnErr result (SinkFailed K.Sink out.old out.new) }
    ensures later { IsLater K.Sink out.old out.new }
{
    match add(out, buf, &window_line(windowed.first, windowed.count)) {
        Ok(()) => {}
        Err(Failed) => return Err(Failed),
    }
    add_events(out, buf, &windowed.events)
}

// Gathers the lines of all windows.
fn add_windows<K: Sink>(
    out: &mut K,
    buf: &mut ArrayString<BLOCK>,
    windows: &[Windowed],
) -> Result<(), Failed>
    ensures put { OnOk result (PutsAllBut K.Sink out.old out.new
        (buf.old.bytes ++ lines_text (flat_map window_lines (map window_of windows.now))) buf.new.bytes) }
    ensures fits { OnOk result (AllByRecursion LineFits (flat_map window_lines (map window_of windows.now))) }
    ensures cut { OnErr result (PutsPrefix K.Sink out.old out.new
        (buf.old.bytes ++ lines_text (flat_map window_lines (map window_of windows.now)))) }
    ensures steady { OnOk result (K.faults out.new ≡ K.faults out.old) }
    ensures failed { OnErr result (SinkFailed K.Sink out.old out.new) }
    ensures later { IsLater K.Sink out.old out.new }
{
    for windowed in windows {
        match add_window(out, buf, windowed) {
            Ok(()) => {}
            Err(Failed) => return Err(Failed),
        }
    }
    Ok(())
}

/// Puts the text of a journal, by this number of workers. It takes no memory. After `Failed` only a prefix of the text
/// was put. Its lines are ones that can be read again: each number fits.
pub fn print_journal<K: Sink>(out: &mut K, workers: u32, journal: &Record) -> Result<(), Failed>
    ensures put { OnOk result (Puts K.Sink out.old out.new (journal_text workers (windows_of journal.now))) }
    ensures fits { OnOk result (AllByRecursion LineFits (journal_lines workers (windows_of journal.now))) }
    ensures cut { OnErr result (PutsPrefix K.Sink out.old out.new (journal_text workers (windows_of journal.now))) }
    ensures steady { OnOk result (K.faults out.new ≡ K.faults out.old) }
    ensures failed { OnErr result (SinkFailed K.Sink out.old out.new) }
    ensures later { IsLater K.Sink out.old out.new }
{
    let mut buf = ArrayString::new();
    match add(out, &mut buf, &workers_line(workers)) {
        Ok(()) => {}
        Err(Failed) => return Err(Failed),
    }
    match add_windows(out, &mut buf, &journal.windows) {
        Ok(()) => {}
        Err(Failed) => return Err(Failed),
    }
    put_all(out, &mut buf)
}
