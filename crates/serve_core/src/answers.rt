// What the calls of a core answer.
use fv_plane::Frame;
use inst_table::Lease;
use serve_machine::{Event, WindowStop};

/// What a worker learns that asks for a frame.
#[derive(Drop)]
pub enum Ask {
    /// It is cached: this is a share of it.
    Hit(Frame),
    /// The worker has the claim on it now, and is to publish or to abandon it.
    Claimed,
    /// Another worker has the claim on it.
    Taken { by: u32 },
    /// The window was stopped.
    Stopped(WindowStop),
}

/// What a worker learns that asks for its instance of a node.
pub enum Admitted<I> {
    /// The instance, which has to be given back.
    Leased(Lease<I>),
    /// Another worker has it.
    Busy { holder: u32 },
    /// The window was stopped.
    Stopped(WindowStop),
}

/// What a window left.
#[derive(Drop)]
pub struct Finished {
    /// The outputs in their order, `None` for one that was not delivered.
    pub frames: Vec<Option<Frame>>,
    /// The first stop, or `None` where there was none.
    pub stop: Option<WindowStop>,
    /// The journal.
    pub events: Vec<Event>,
}
