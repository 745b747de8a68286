// `SeqSource`: a source of bytes and its index, read frame by frame in any order.
ghost use Rattle.std.specs.Prelude.{◌≡◌, ◌<◌, ◌≤◌, length, Some, None, IsSome, IfSome, IfOk, IfErr, OnOk, OnErr, IsErrOf, slice_get, slice_index};
ghost use Rattle.std.specs.Option.{ForSome};
ghost use Rattle.fv_io.specs.Source.{IsSteady};
ghost use Rattle.y4m_stream.specs.Stream.{IsIndex};
ghost use Rattle.seq_source.specs.FrameSource.{IsAt, KeepsFrames, end_of, frames_of};
ghost use Rattle.seq_source.specs.Faults.{FaultShows, IsNoChange};

use crate::fault::SeqFault;
use crate::reading::read_indexed;
use fv_io::Source;
use fv_plane::{Frame, Info};
use std::alloc::Global;
use std::marker::Model;
use std::mem;
use y4m_stream::Index;

/// A source of bytes that is read frame by frame, in any order. Frames are counted from 0.
#[derive(Drop)]
pub struct SeqSource<S: Source> {
    alloc: Global,
    source: S,
    index: Index,
    // Where the source's next read begins. It isn't known at first, nor after a fault.
    place: Option<u64>,
    // The memory of the next frame. What it holds has no meaning.
    memory: Vec<u8>,
}

impl<S: Source> Model for SeqSource<S> {
    ghost use Rattle.std.specs.Prelude.{IfSome};
    ghost use Rattle.seq_source.specs.FrameSource.{FrameSource, IsAt};

    ghost Value = { FrameSource S };

    ghost view = { λ s. record { source = s.source; index = s.index; place = s.place } };

    ghost invariant = { λ s. IfSome s.place (IsAt S.Source s.source) };
}

impl<S: Source> SeqSource<S> {
    /// The frames of a source. The index is the one that `y4m_stream::index` made of this source. It allocates nothing,
    /// and the first call of `frame` rewinds the source.
    pub fn new(alloc: Global, source: S, index: Index) -> SeqSource<S>
        ensures { result ≡ record { source = source; index = index; place = None } }
    {
        SeqSource {
            alloc,
            source,
            index,
            place: None,
            memory: Vec::new(alloc),
        }
    }

    /// The format, the number of frames and their rate, as the index has them.
    pub fn info(&self) -> Info
        ensures info { result ≡ self.now.index.info }
        ensures index { IsIndex self.now.index }
    {
        self.index.info()
    }

    /// Takes memory for the next frame, whose bytes are overwritten. A frame for which none was given is made in new
    /// memory.
    pub fn use_memory(&mut self, memory: Vec<u8>)
        ensures { self.new ≡ self.old }
    {
        self.memory = memory;
    }

    /// Gives the source back, at any place.
    pub fn into_source(self) -> S
        ensures { result ≡ self.source }
    {
        let SeqSource {
            source,
            alloc: _,
            index: _,
            place: _,
            memory: _,
        } = self;
        source
    }

    /// The frame of this number. The source is rewound only where its place isn't known or is past the start of the
    /// frame, and at most once. Nothing past the frame is read.
    ///
    /// `Read` means that the source failed, `Changed` that its bytes end before the end of the frame, and `Memory` out
    /// of memory. No fault of the source is counted but with `Read`. After each of them the source's place isn't known,
    /// so the next call rewinds.
    pub fn frame(&mut self, n: u32) -> Result<Frame, SeqFault>
        requires { n < self.old.index.info.frames }

        // Over told bytes it is the frame at its offset, and no fault says that they changed if they have each frame. So over
        // a stream it is the stream's frame (`laws::a_stream_has_its_frames`).
        ensures told { IfOk result (λ frame. ForSome (frames_of S.Source self.old) (λ frames.
            slice_get frames n ≡ Some frame)) }
        ensures kept { IsSome (frames_of S.Source self.old) → IfErr result IsNoChange }
        ensures shape { IfOk result (λ frame. frame.shape ≡ self.old.index.info.shape) }

        // It comes only where the bytes have all of it. A fault says what happened.
        ensures whole { OnOk result (ForSome (S.bytes self.old.source) (λ told.
            end_of self.old.index n ≤ length told)) }
        ensures fault { IfErr result (FaultShows S.Source self.old.source self.new.source n (end_of self.old.index n)) }
        ensures steady { (IsErrOf result SeqFault.Read → ⊥) → IsSteady S.Source self.old.source self.new.source }

        // Where it leaves the source, and when that isn't rewound.
        ensures place { OnOk result (self.new.place ≡ Some (end_of self.old.index n)) }
        ensures unknown { OnErr result (self.new.place ≡ None) }
        ensures is_at { IfSome self.new.place (IsAt S.Source self.new.source) }
        ensures goes_on { IfSome self.old.place (λ place. place ≤ slice_index self.old.index.offsets n →
            S.rewinds self.new.source ≡ S.rewinds self.old.source) }
        ensures keeps { KeepsFrames S.Source self.old self.new }
    {
        let known = self.place.take();
        let memory = mem::replace(&mut self.memory, Vec::new(self.alloc));
        let (frame, end) = read_indexed(&mut self.source, &self.index, known, n, memory)?;
        self.place = Some(end);
        Ok(frame)
    }
}
