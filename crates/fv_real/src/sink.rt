// A stream of the system, as a sink.
ghost use Rattle.std.specs.Prelude.{None, ◌≡◌};

use fv_io::{Failed, Sink};
use std::io::{self, Write};

/// A piece is written in parts of this number of bytes. So the reader of a pipe takes one part while the next is copied. A part
/// that fills the pipe makes each end wait for the other.
const PART: usize = 8_192;

// Writes a piece in parts, and flushes the stream.
fn write_parts<W: Write>(stream: &mut W, piece: &[u8]) -> io::Result<()> {
    for part in piece.chunks(PART) {
        stream.write_all(part)?;
    }
    stream.flush()
}

/// A standard stream. Each piece is flushed. After a fault nothing is written.
#[derive(Drop)]
pub struct RealSink<W: Write + Drop> {
    stream: W,
    faults: u64,
}

impl<W: Write + Drop> RealSink<W> {
    /// A sink over this stream.
    pub fn new(stream: W) -> RealSink<W>
        ensures { result.faults ≡ 0 }
    {
        RealSink { stream, faults: 0 }
    }
}

impl<W: Write + Drop> Sink for RealSink<W> {
    ghost bytes = { λ _. None };

    ghost faults = { λ s. s.faults };

    fn put(&mut self, piece: &[u8]) -> Result<(), Failed> {
        if self.faults == 0 && write_parts(&mut self.stream, piece).is_ok() {
            Ok(())
        } else {
            self.faults = self.faults.saturating_add(1);
            Err(Failed)
        }
    }
}
