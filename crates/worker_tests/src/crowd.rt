// Workers that wait at their first claim until all of them came, and how often the points of the gate were passed.
use fv_plane::Key;
use serve_app::{Gate, GatePoint};
use std::sync::atomic::{AtomicU64, Ordering};

// How often a worker looks for the others.
const LOOKS: u64 = 100_000_000;

// Workers of the numbers from 0 on.
#[derive(Drop)]
pub struct Crowd {
    size: u64,
    // a bit for each worker that came
    came: AtomicU64,
    met: AtomicU64,
    claimed: AtomicU64,
    made: AtomicU64,
}

impl Crowd {
    pub fn new(size: u64) -> Crowd {
        Crowd {
            size,
            came: AtomicU64::new(0),
            met: AtomicU64::new(0),
            claimed: AtomicU64::new(0),
            made: AtomicU64::new(0),
        }
    }

    // Holds a worker that comes for the first time, until all came or it has looked long enough.
    fn hold(&self, worker: u32) {
        let mine = 1u64 << (worker % 64);
        if self.came.fetch_or(mine, Ordering::SeqCst) & mine != 0 {
            return;
        }
        for _ in 0..LOOKS {
            if self.came.load(Ordering::SeqCst).count_ones() as u64 == self.size {
                self.met.fetch_add(1, Ordering::SeqCst);
                return;
            }
        }
    }

    // How many workers saw that all came.
    pub fn met(&self) -> u64 {
        self.met.load(Ordering::SeqCst)
    }

    // How often a worker passed the gate with a claim.
    pub fn claimed(&self) -> u64 {
        self.claimed.load(Ordering::SeqCst)
    }

    // How often a worker passed it with a frame that it made.
    pub fn made(&self) -> u64 {
        self.made.load(Ordering::SeqCst)
    }
}

impl Gate for Crowd {
    fn at(&self, worker: u32, point: GatePoint) {
        match point {
            GatePoint::Claimed(Key { node: _, n: _ }) => {
                self.claimed.fetch_add(1, Ordering::SeqCst);
                self.hold(worker);
            }
            GatePoint::Made(_) => {
                self.made.fetch_add(1, Ordering::SeqCst);
            }
        }
    }
}
