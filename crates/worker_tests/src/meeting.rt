// Two parties that wait for each other.
use crate::paused::Pause;
use fv_plane::Key;
use serve_app::{Gate, GatePoint};
use std::sync::atomic::{AtomicU64, Ordering};

// How often a party looks for the other.
const LOOKS: u64 = 100_000_000;

// Which of two parties came, and which saw the other.
#[derive(Drop)]
pub struct Meeting {
    first: AtomicU64,
    second: AtomicU64,
    seen: AtomicU64,
}

impl Meeting {
    pub fn new() -> Meeting {
        Meeting {
            first: AtomicU64::new(0),
            second: AtomicU64::new(0),
            seen: AtomicU64::new(0),
        }
    }

    // Holds a party, 0 or 1, that comes for the first time, until the other came or it has looked long enough.
    fn hold(&self, party: u32) {
        let (mine, other) = if party == 0 {
            (&self.first, &self.second)
        } else {
            (&self.second, &self.first)
        };
        if mine.swap(1, Ordering::SeqCst) == 1 {
            return;
        }
        for _ in 0..LOOKS {
            if other.load(Ordering::SeqCst) == 1 {
                self.seen.fetch_add(1, Ordering::SeqCst);
                return;
            }
        }
    }

    // How many parties saw the other.
    pub fn seen(&self) -> u64 {
        self.seen.load(Ordering::SeqCst)
    }
}

// Each of two workers waits at its first claim for the other.
impl Gate for Meeting {
    fn at(&self, worker: u32, point: GatePoint) {
        match point {
            GatePoint::Claimed(Key { node: _, n: _ }) => self.hold(worker),
            GatePoint::Made(_) => {}
        }
    }
}

// Each of two sources waits at its first read after a rewind for the other.
impl Pause for Meeting {
    fn at_read(&self, party: u32, _size: usize) {
        self.hold(party);
    }
}
