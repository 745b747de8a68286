// `Index`: the info of a stream, and where each frame's samples begin.
ghost use Rattle.std.specs.Prelude.{◌≡◌, ◌<◌, slice_index};
ghost use Rattle.y4m_stream.specs.Stream.{IsIndex};

use fv_plane::Info;
use std::marker::Model;

/// The info of a stream, and the offsets of its frames, which don't overlap.
#[derive(Drop)]
pub struct Index {
    info: Info,
    offsets: Vec<u64>,
}

impl Model for Index {
    ghost use Rattle.y4m_stream.specs.Stream.{Indexed, IsIndex};

    ghost Value = { Indexed };

    ghost view = { λ i. record { info = i.info; offsets = i.offsets.items } };

    ghost invariant = { λ i. IsIndex (record { info = i.info; offsets = i.offsets.items }) };
}

impl Index {
    pub(crate) fn new(info: Info, offsets: Vec<u64>) -> Index
        requires { IsIndex (record { info = info; offsets = offsets.items }) }
        ensures { result ≡ record { info = info; offsets = offsets.items } }
    {
        Index { info, offsets }
    }

    /// What the head says, with the number of frames.
    pub fn info(&self) -> Info
        ensures info { result ≡ self.now.info }
        ensures index { IsIndex self.now }
    {
        self.info
    }

    /// The offset of the first sample of frame `n`, in bytes from the start of the stream. Frames are counted from 0.
    pub fn offset(&self, n: u32) -> u64
        requires { n < self.now.info.frames }
        ensures { result ≡ slice_index self.now.offsets n }
    {
        self.offsets[n as usize]
    }
}
