// The frames of each source, by the source's number, for tests.
ghost use Rattle.std.specs.Prelude.{◌≡◌, ◌<◌, [], ◌∷◌, ◌++◌, length, slice_index_or, IfOk, OnOk, OnErr};
ghost use Rattle.fv_plane.specs.declared.format.Shape.{Shape};
ghost use Rattle.clip_term.specs.Terms.{frame_in};

use fv_plane::Frame;
use std::alloc::{AllocError, Global};
use std::marker::Model;

/// The frames of each source, by the numbers of the sources.
#[derive(Drop)]
pub struct Book {
    sources: Vec<Vec<Frame>>,
}

impl Model for Book {
    ghost use Rattle.std.specs.Prelude.{List, map};
    ghost use Rattle.std.specs.Vec.{vec_items};
    ghost use Rattle.fv_plane.specs.Picture.{Picture};

    ghost Value = { List (List Picture) };

    ghost view = { λ b. map vec_items b.sources.items };
}

impl Book {
    /// A book of no source.
    pub fn new(alloc: Global) -> Book
        ensures { result ≡ [] }
    {
        Book {
            sources: Vec::new(alloc),
        }
    }

    /// Adds the frames of the next source number, from 0 on. An `Err` is out of memory.
    pub fn add(&mut self, frames: Vec<Frame>) -> Result<(), AllocError>
        ensures ok { OnOk result (self.new ≡ self.old ++ frames.items ∷ []) }
        ensures err { OnErr result (self.new ≡ self.old) }
    {
        self.sources.push(frames)?;
        Ok(())
    }

    pub(crate) fn frame(&self, number: u32, n: u32) -> Result<Frame, AllocError>
        requires number { number < length self.now }
        requires inside { n < length (slice_index_or self.now number []) }
        ensures { IfOk result (λ frame. (shape : Shape) → frame ≡ frame_in self.now number n shape) }
    {
        self.sources[number as usize][n as usize].share()
    }
}
