// `Event`: each thing that a worker does in a call of the core; and why a window stops.
ghost use Rattle.std.specs.Prelude.{◌≡◌};
ghost use Rattle.serve_machine.specs.Events.{worker_of, key_of, node_of, source_of};

use fv_plane::Key;

/// Why a window stops.
#[derive(Clone, Copy, Debug, PartialEq, Eq)]
pub enum WindowStop {
    /// The source of this node was refused by a fault.
    Read {
        node: u32,
    },
    /// The source of this node ended at place `got`, before `want`, the place just past the frame.
    Changed {
        node: u32,
        frame: u32,
        want: u64,
        got: u64,
    },
    /// Out of memory.
    Memory,
}

/// What a worker did.
#[derive(Clone, Copy, Debug, PartialEq, Eq)]
pub enum Event {
    /// The frame was cached, and came to the front of the cache.
    Hit {
        worker: u32,
        key: Key,
    },
    /// The worker is to make the frame.
    Claim {
        worker: u32,
        key: Key,
    },
    /// The worker took an instance of the node.
    Enter {
        worker: u32,
        node: u32,
        instance: u32,
    },
    /// The worker gave the instance back.
    Leave {
        worker: u32,
        node: u32,
        instance: u32,
    },
    /// The frame went from the full cache. The worker's `Publish` follows.
    Evict {
        worker: u32,
        key: Key,
    },
    /// The worker made the frame, and it came to the front of the cache.
    Publish {
        worker: u32,
        key: Key,
    },
    /// The worker won't make the frame that it claimed.
    Abandon {
        worker: u32,
        key: Key,
    },
    /// The worker is to deliver output `n`.
    Take {
        worker: u32,
        n: u32,
    },
    /// The worker delivered output `n`.
    Deliver {
        worker: u32,
        n: u32,
    },
    /// The worker stopped. The first stop of a window is kept.
    Fail {
        worker: u32,
        stop: WindowStop,
    },
}

impl Event {
    /// The number of the worker.
    pub fn worker(&self) -> u32
        ensures { result ≡ worker_of self.now }
    {
        match *self {
            Event::Hit { worker, .. } => worker,
            Event::Claim { worker, .. } => worker,
            Event::Enter { worker, .. } => worker,
            Event::Leave { worker, .. } => worker,
            Event::Evict { worker, .. } => worker,
            Event::Publish { worker, .. } => worker,
            Event::Abandon { worker, .. } => worker,
            Event::Take { worker, .. } => worker,
            Event::Deliver { worker, .. } => worker,
            Event::Fail { worker, .. } => worker,
        }
    }

    /// The key that was hit, claimed, evicted, published or abandoned.
    pub fn key(&self) -> Option<Key>
        ensures { result ≡ key_of self.now }
    {
        match *self {
            Event::Hit { key, .. } => Some(key),
            Event::Claim { key, .. } => Some(key),
            Event::Evict { key, .. } => Some(key),
            Event::Publish { key, .. } => Some(key),
            Event::Abandon { key, .. } => Some(key),
            _ => None,
        }
    }

    /// The node of the key, or the node whose instance was taken or given back.
    pub fn node(&self) -> Option<u32>
        ensures { result ≡ node_of self.now }
    {
        match *self {
            Event::Enter { node, .. } => Some(node),
            Event::Leave { node, .. } => Some(node),
            _ => self.key().map(|key| key.node),
        }
    }
}

impl WindowStop {
    /// The node of the source that stopped the window.
    pub fn source(&self) -> Option<u32>
        ensures { result ≡ source_of self.now }
    {
        match *self {
            WindowStop::Read { node } => Some(node),
            WindowStop::Changed { node, .. } => Some(node),
            WindowStop::Memory => None,
        }
    }
}
