// How many workers and outputs a window `Prefetch` asks for.
ghost use Rattle.std.specs.Prelude.{◌≡◌, ◌≤◌};
ghost use Rattle.avs_meaning.specs.State as d;

use std::marker::Model;

/// The workers of a render, 1 to 16, and the frames of a window, 1 to 32, as `Prefetch` asks for them.
#[derive(Clone, Copy)]
pub struct Crew {
    threads: u32,
    frames: Option<u32>,
}

impl Model for Crew {
    ghost use Rattle.avs_meaning.specs.State.{IsCrew, Numbers};

    ghost Value = { Numbers };

    ghost view = { λ crew. record { threads = crew.threads; frames = crew.frames } };

    ghost inverse = { λ numbers. record { threads = numbers.threads; frames = numbers.frames } };

    ghost invariant = { λ crew. IsCrew (record { threads = crew.threads; frames = crew.frames }) };
}

impl Crew {
    /// So many workers, and windows of so many frames, if they are given. None comes where a number is out of its range.
    pub fn new(threads: u64, frames: Option<u64>) -> Option<Crew>
        ensures { result ≡ d.crew_in threads frames }
    {
        if threads < 1 || threads > 16 {
            return None;
        }
        let threads = threads as u32;
        match frames {
            None => Some(Crew {
                threads,
                frames: None,
            }),
            Some(count) if count < 1 || count > 32 => None,
            Some(count) => Some(Crew {
                threads,
                frames: Some(count as u32),
            }),
        }
    }

    /// The number of the workers.
    pub fn threads(self) -> u32
        ensures threads { result ≡ self.threads }
        ensures some { 1 ≤ result }
        ensures few { result ≤ 16 }
    {
        self.threads
    }

    /// The number of frames in a window, where it was given.
    pub fn frames(self) -> Option<u32>
        ensures { result ≡ self.frames }
    {
        self.frames
    }

    /// The number of frames in a window: twice that of the workers where none is given.
    pub fn window(self) -> u32
        ensures window { result ≡ d.window_of self }
        ensures some { 1 ≤ result }
        ensures few { result ≤ 32 }
    {
        match self.frames {
            Some(frames) => frames,
            None => 2 * self.threads,
        }
    }
}
