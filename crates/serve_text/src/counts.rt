// The numbers of the events of some nodes, counted in one walk over a journal.
ghost use Rattle.std.specs.Prelude.{◌≡◌, ℕ, ◌+◌, ◌-◌, ◌^◌, ◌<◌, length, slice_index_or};
ghost use Rattle.serve_machine.specs.Events.{windows_of};
ghost use Rattle.serve_text.specs.Report.{none, with_event, with_events, counts_of, IsAtMost, AreAtMost};

use serve_machine::{Event, Record};

/// How many events of each kind a node has. Events in memory are fewer than 2^64 in a window, in fewer than 2^64 windows,
/// so that a count of 128 bits is exact.
#[derive(Clone, Copy)]
pub(crate) struct Counts {
    pub(crate) made: u128,
    pub(crate) hit: u128,
    pub(crate) evicted: u128,
    pub(crate) entered: u128,
}

impl Counts {
    pub(crate) const NONE: Counts = Counts {
        made: 0,
        hit: 0,
        evicted: 0,
        entered: 0,
    };

    // The counts of a node after one more event.
    fn after(self, node: u32, event: &Event) -> Counts
        requires { IsAtMost (2 ^ 128 - 2) self }
        ensures { result ≡ with_event node event.now self }
    {
        match *event {
            Event::Publish { key, .. } if key.node == node => Counts {
                made: self.made + 1,
                ..self
            },
            Event::Hit { key, .. } if key.node == node => Counts {
                hit: self.hit + 1,
                ..self
            },
            Event::Evict { key, .. } if key.node == node => Counts {
                evicted: self.evicted + 1,
                ..self
            },
            Event::Enter { node: entered, .. } if entered == node => Counts {
                entered: self.entered + 1,
                ..self
            },
            _ => self,
        }
    }
}

// Counts an event, where it is of a node of the table, whose first node is `first`.
fn count_event(table: &mut [Counts], first: u32, event: &Event)
    requires { AreAtMost (2 ^ 128 - 2) table.old }
    ensures counts { (k : ℕ) → k < length table.old → slice_index_or table.new k none
        ≡ with_event (first + k) event.now (slice_index_or table.old k none) }
    ensures size { length table.new ≡ length table.old }
{
    let Some(node) = event.node() else {
        return;
    };
    if node < first {
        return;
    }
    let k = (node - first) as usize;
    if k < table.len() {
        table[k] = table[k].after(node, event);
    }
}

// Counts the events of a window.
fn count_window(table: &mut [Counts], first: u32, events: &[Event])
    requires { AreAtMost (2 ^ 128 - 2 ^ 64) table.old }
    ensures counts { (k : ℕ) → k < length table.old → slice_index_or table.new k none
        ≡ with_events (first + k) events.now (slice_index_or table.old k none) }
    ensures size { length table.new ≡ length table.old }
{
    for event in events {
        count_event(table, first, event);
    }
}

// Forgets what was counted.
fn clear(table: &mut [Counts])
    ensures zero { (k : ℕ) → k < length table.old → slice_index_or table.new k none ≡ none }
    ensures size { length table.new ≡ length table.old }
{
    for counts in table.iter_mut() {
        *counts = Counts::NONE;
    }
}

/// Puts the counts of the nodes from `first` on into a table, for the events of all windows of a journal.
pub(crate) fn count_windows(table: &mut [Counts], first: u32, journal: &Record)
    ensures counts { (k : ℕ) → k < length table.old → slice_index_or table.new k none
        ≡ counts_of (windows_of journal.now) (first + k) }
    ensures size { length table.new ≡ length table.old }
{
    clear(table);
    for windowed in &journal.windows {
        count_window(table, first, &windowed.events);
    }
}
