// One of two workers waits for what the other has: a frame that it makes, or the only instance of a source. The other is held
// until the one is about to ask for it, and then for a pause, which is another each time. So it is there before the one asks,
// while that looks at the bell, as it falls asleep, or when it sleeps. Then the other is held until the one has it, so that
// nothing else wakes the one. Where a wake-up is lost it sleeps on: the other is held in vain, or the render never ends.
use crate::paused::{Pause, PausedFiles};
use crate::runs::{files_of, files_with, run_one, run_together};
use fv_plane::Key;
use serve_app::{Gate, GatePoint};
use std::alloc::{AllocError, Global};
use std::hint::spin_loop;
use std::sync::Arc;
use std::sync::atomic::{AtomicU64, Ordering};
use std::test::Fail;
use std::thread;

// How often a worker that is held looks for the other, for a second or so, and after how many looks it yields.
const LOOKS: u64 = 50_000_000;

const LOOKS_AT_ONCE: u64 = 2_000;

// How many outputs a window has, by the scripts.
const WINDOW: u64 = 32;

// The longest pause. A worker that waits at the bell looks there 300 times before it sleeps.
const LONGEST: u64 = 600;

// A pause for each number. Those of numbers that follow each other differ much.
fn pause(number: u64) {
    for _ in 0..number.wrapping_mul(37) % LONGEST {
        spin_loop();
    }
}

// What two workers have passed.
#[derive(Drop)]
struct Steps {
    claims: AtomicU64,
    arrivals: AtomicU64,
    made: AtomicU64,
    // how often a worker was held in vain
    lost: AtomicU64,
}

impl Steps {
    fn new() -> Steps {
        Steps {
            claims: AtomicU64::new(0),
            arrivals: AtomicU64::new(0),
            made: AtomicU64::new(0),
            lost: AtomicU64::new(0),
        }
    }

    // Holds a worker until there are so many of something, but once in vain at most.
    fn hold(&self, some: &AtomicU64, wanted: u64) {
        if self.lost.load(Ordering::SeqCst) != 0 {
            return;
        }
        for look in 0..LOOKS {
            if some.load(Ordering::SeqCst) >= wanted {
                return;
            }
            if look % LOOKS_AT_ONCE == LOOKS_AT_ONCE - 1 {
                thread::yield_now();
            }
            spin_loop();
        }
        self.lost.fetch_add(1, Ordering::SeqCst);
    }
}

// Counts one more, and answers how many there are now.
fn counted(some: &AtomicU64) -> u64 {
    some.fetch_add(1, Ordering::SeqCst).saturating_add(1)
}

// Outputs 2k and 2k+1 of node 1 both show frame k of node 0. A worker asks for it for the second once it is claimed for the first.
// It is published when a worker is about to ask for the second, and the first output is published when the second is made.
#[derive(Drop)]
struct OneFrame(Steps);

impl Gate for OneFrame {
    fn at(&self, _worker: u32, point: GatePoint) {
        let OneFrame(steps) = self;
        match point {
            GatePoint::Claimed(Key { node: 0, n: _ }) => {
                counted(&steps.claims);
            }
            GatePoint::Claimed(Key { node: _, n }) if n % 2 == 1 => {
                steps.hold(&steps.claims, n as u64 / 2 + 1);
                counted(&steps.arrivals);
            }
            GatePoint::Made(Key { node: 0, n }) => {
                steps.hold(&steps.arrivals, n as u64 + 1);
                pause(n as u64);
            }
            GatePoint::Made(Key { node: _, n }) if n % 2 == 1 => {
                counted(&steps.made);
            }
            GatePoint::Made(Key { node: _, n }) => steps.hold(&steps.made, n as u64 / 2 + 1),
            _ => {}
        }
    }
}

// A worker reads a frame when the other is about to ask for the instance, with the claim on another frame. It publishes what it
// read when the other reads.
#[derive(Drop)]
struct OneInstance(Steps);

impl Gate for OneInstance {
    fn at(&self, _worker: u32, point: GatePoint) {
        let OneInstance(steps) = self;
        match point {
            GatePoint::Claimed(_) => {
                counted(&steps.claims);
            }
            GatePoint::Made(_) => {
                let made = counted(&steps.made);
                if made % WINDOW != 0 {
                    steps.hold(&steps.arrivals, made.saturating_add(1));
                }
            }
        }
    }
}

impl Pause for OneInstance {
    fn at_read(&self, _party: u32, size: usize) {
        let OneInstance(steps) = self;
        // The head of a frame is read before its one sample.
        if size != 1 {
            return;
        }
        let reads = counted(&steps.arrivals);
        if reads % WINDOW != 0 {
            steps.hold(&steps.claims, reads.saturating_add(1));
        }
        pause(reads);
    }
}

// A clip of so many frames of one sample.
fn clip_of(alloc: Global, frames: u64) -> Result<Vec<u8>, AllocError> {
    let mut clip = b"YUV4MPEG2 W1 H1 F25:1 Ip A1:1 Cmono\n".to_vec(alloc)?;
    for n in 0..frames {
        clip.extend_from_slice(b"FRAME\n")?;
        clip.push((n % 256) as u8)?;
    }
    Ok(clip)
}

#[test]
fn who_waits_for_a_frame_is_woken(rt: HostRuntime) -> Result<(), Fail> {
    let alloc = rt.alloc();
    let script = b"c = BlankClip(length=1600, width=4, height=4)\nInterleave(c, c).Prefetch(2, 32)";
    let words = ["render", "s.avs"];
    let gate = OneFrame(Steps::new());
    let mut files = files_of(alloc, script, &[])?;
    let many = run_together(&rt, alloc, &words, &mut files, 999_999, &gate)?;
    let mut files = files_of(alloc, script, &[])?;
    let one = run_one(alloc, &words, &mut files, 999_999)?;
    let OneFrame(steps) = &gate;
    assert_eq!(rt; steps.lost.load(Ordering::SeqCst), 0);
    assert_eq!(rt; steps.arrivals.load(Ordering::SeqCst), 1_600);
    assert!(rt; many.status == 0 && one.status == 0);
    assert!(rt; many.out.bytes() == one.out.bytes());
    Ok(())
}

#[test]
fn who_waits_for_an_instance_is_woken(rt: HostRuntime) -> Result<(), Fail> {
    let alloc = rt.alloc();
    let script = b"Y4MSource(\"m4.y4m\").Prefetch(2, 32)";
    let clip = clip_of(alloc, 1_600)?;
    let gate = Arc::new(alloc, OneInstance(Steps::new()))?;
    let mut files = PausedFiles {
        files: files_with(alloc, script, &clip, &[], 99_999)?,
        fetched: 0,
        pause: Arc::try_clone(&gate)?,
    };
    let words = ["render", "s.avs"];
    let left = run_together(&rt, alloc, &words, &mut files, 99_999, &*gate)?;
    let OneInstance(steps) = &*gate;
    assert_eq!(rt; steps.lost.load(Ordering::SeqCst), 0);
    assert_eq!(rt; steps.arrivals.load(Ordering::SeqCst), 1_600);
    assert_eq!(rt; left.status, 0);
    assert!(rt; left.out.bytes() == clip.as_slice());
    Ok(())
}
