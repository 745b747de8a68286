// The journals of a render, window by window.
ghost use Rattle.std.specs.Prelude.{◌≡◌, []};
ghost use Rattle.serve_machine.specs.Events.{windows_of};

use crate::Event;
use std::alloc::Global;

/// The events of a window of outputs, from number `first` on.
#[derive(Drop)]
pub struct Windowed {
    pub first: u32,
    pub count: u32,
    pub events: Vec<Event>,
}

/// The windows of a render, in their order.
#[derive(Drop)]
pub struct Record {
    pub windows: Vec<Windowed>,
}

impl Record {
    /// A record without windows. It allocates nothing.
    pub fn new(alloc: Global) -> Record
        ensures { windows_of result ≡ [] }
    {
        Record {
            windows: Vec::new(alloc),
        }
    }
}
