// The memory of a frame that is no longer needed.
ghost use Rattle.std.specs.Prelude.{◌≡◌, None};

/// Memory for the planes of a frame to come. What it holds has no meaning.
#[derive(Drop)]
pub struct FrameMemory {
    pub luma: Option<Vec<u8>>,
    pub u: Option<Vec<u8>>,
    pub v: Option<Vec<u8>>,
}

impl FrameMemory {
    /// No memory.
    pub fn none() -> FrameMemory
        ensures { result ≡ record { luma = None; u = None; v = None } }
    {
        FrameMemory {
            luma: None,
            u: None,
            v: None,
        }
    }
}
