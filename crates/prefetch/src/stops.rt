// `RenderStop`: the stop of a window, a failed write, or out of memory.
use serve_machine::WindowStop;

/// Why not all frames were put.
#[derive(Clone, Copy, Debug, PartialEq, Eq)]
pub enum RenderStop {
    /// A worker stopped.
    Stopped(WindowStop),
    /// The sink failed: its count of faults rose in the call.
    Write,
    /// Out of memory.
    Memory,
}
