// A bell, for those who wait outside the lock.
use std::hint::spin_loop;
use std::sync::Wait;
use std::sync::atomic::{AtomicU64, Ordering};

// How often a thread that waits looks before it sleeps. To sleep and to be woken takes longer than a short turn.
pub(crate) const LOOKS: u32 = 300;

/// A stroke in a turn. It can't be let go: once the turn has ended, `Bell::wake` takes it.
pub struct Stroke {
    counted: (),
}

/// A count of strokes, which threads may wait on outside a lock. Whoever finds in a turn that it has to wait reads the
/// count in that turn, gives the turn back, and waits until the count is another. Whoever brings in a turn what others
/// may wait for strikes the bell in that turn, and wakes them after it.
#[derive(Drop)]
pub struct Bell {
    strokes: AtomicU64,
    // How many threads sleep until the next stroke, or are about to.
    sleepers: AtomicU64,
}

impl Bell {
    pub(crate) fn new() -> Bell {
        Bell {
            strokes: AtomicU64::new(0),
            sleepers: AtomicU64::new(0),
        }
    }

    /// The number of strokes so far.
    pub fn strokes(&self) -> u64 {
        self.strokes.load(Ordering::SeqCst)
    }

    /// Strikes.
    pub fn strike(&self) -> Stroke {
        self.strokes.fetch_add(1, Ordering::SeqCst);
        Stroke { counted: () }
    }

    /// Wakes those who sleep, after a turn with this stroke.
    pub fn wake(&self, stroke: Stroke) {
        let Stroke { counted: () } = stroke;
        if self.sleepers.load(Ordering::SeqCst) != 0 {
            self.strokes.wake_all();
        }
    }

    /// Waits until the number of strokes is another than the one that was heard. It may return for no reason.
    pub fn wait<R: Wait>(&self, rt: &R, heard: u64) {
        for _ in 0..LOOKS {
            if self.strokes() != heard {
                return;
            }
            spin_loop();
        }

        // No wake-up is lost: the thread counts itself before the system compares the strokes with those it heard, and
        // who strikes does so before it reads the count.
        self.sleepers.fetch_add(1, Ordering::SeqCst);
        self.strokes.park(rt, (heard % (1 << 32)) as u32);
        self.sleepers.fetch_sub(1, Ordering::SeqCst);
    }
}
