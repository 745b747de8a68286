// `Command`: a render, `info`, the self test, a session or a replay, with its options.
use fv_io::Text;

/// What the words of the command line ask for.
#[derive(Drop)]
pub enum Command {
    /// The clip of a script, written as a stream.
    Render {
        script: Text,
        options: RenderOptions,
    },
    /// What is known of the clip of a script.
    Info {
        script: Text,
    },
    /// A render in memory, of a clip that this number chooses.
    SelfTest {
        number: u32,
    },
    /// Frames of the clip of a script, by the requests of a list.
    Session {
        script: Text,
        list: Text,
        /// The capacity of the cache in frames, 1 to 256, where it was given.
        cache: Option<u32>,
    },
    /// Whether a text is a journal of the clip of a script.
    Replay {
        script: Text,
        journal: Text,
        /// The capacity of the cache in frames, 1 to 256, where it was given.
        cache: Option<u32>,
    },
}

/// What a render tells on standard error after its last frame.
#[derive(Clone, Copy, Debug, PartialEq, Eq)]
pub enum Tells {
    Nothing,
    /// The counts of its journal.
    Report,
    /// Its journal.
    Journal,
}

/// The options of a render.
#[derive(Clone, Copy, Debug, PartialEq, Eq)]
pub struct RenderOptions {
    /// The capacity of the cache in frames, 1 to 256, where it was given.
    pub cache: Option<u32>,
    /// The number of workers, 1 to 16, where it was given.
    pub threads: Option<u32>,
    /// One worker alone, and windows of one frame.
    pub plain: bool,
    pub tells: Tells,
}
