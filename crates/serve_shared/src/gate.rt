// Where a worker may be held, for tests.
use fv_plane::Key;

/// A point in the work of a worker, outside its turns.
#[derive(Clone, Copy, Debug, PartialEq, Eq)]
pub enum GatePoint {
    /// The worker has the claim on this frame.
    Claimed(Key),
    /// The frame is made, and not published yet.
    Made(Key),
}

/// What a worker passes at each point. It may wait there.
pub trait Gate: Sync {
    fn at(&self, worker: u32, point: GatePoint);
}

/// A gate that does nothing.
pub struct OpenGate;

impl Gate for OpenGate {
    fn at(&self, _worker: u32, _point: GatePoint) {}
}
