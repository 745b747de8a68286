// The lines of answers, and `put_answer`, which puts one into a sink.
ghost use Rattle.std.specs.Prelude.{◌≡◌, ◌≤◌, length, flat_map, OnOk, OnErr};
ghost use Rattle.fv_io.specs.Sink.{Puts, PutsPrefix, IsLater, SinkFailed};
ghost use Rattle.fv_session.specs.Answers.{answer_line};

use arrayvec::ArrayString;
use fv_io::{Failed, Sink};
use itoa::Buffer;

// The most bytes of a line: a number has at most 40.
const LINE: usize = 128;

/// The line that answers a request.
#[derive(Clone, Copy, Debug, PartialEq, Eq)]
pub enum Answer {
    /// The frame of this number follows, which has so many bytes.
    Frame { n: u32, length: u64 },
    /// The clip has no frame of this number.
    RangeRefused,
    /// The line asks for nothing that there is.
    LineRefused,
    /// The session ends.
    Bye,
}

// The pieces, one after the other.
fn joined(pieces: &[&str]) -> ArrayString<LINE>
    requires { length (flat_map (λ piece. piece.now) pieces.now) ≤ LINE }
    ensures { result.bytes ≡ flat_map (λ piece. piece.now) pieces.now }
{
    let mut line = ArrayString::new();
    for piece in pieces {
        line.push_str(piece);
    }
    line
}

/// The line of an answer.
pub fn answer_line(answer: &Answer) -> ArrayString<LINE>
    ensures { result.bytes ≡ answer_line answer.now }
{
    match answer {
        Answer::Frame { n, length } => {
            let mut number = Buffer::new();
            let mut size = Buffer::new();
            joined(&["frame ", number.format(*n), " ", size.format(*length), "\n"])
        }
        Answer::RangeRefused => joined(&["refused range\n"]),
        Answer::LineRefused => joined(&["refused line\n"]),
        Answer::Bye => joined(&["bye\n"]),
    }
}

/// Puts the line of an answer, in one put. After `Failed` only a prefix of the line was put.
pub fn put_answer<K: Sink>(out: &mut K, answer: &Answer) -> Result<(), Failed>
    ensures put { OnOk result (Puts K.Sink out.old out.new (answer_line answer.now)) }
    ensures cut { OnErr result (PutsPrefix K.Sink out.old out.new (answer_line answer.now)) }
    ensures steady { OnOk result (K.faults out.new ≡ K.faults out.old) }
    ensures failed { OnErr result (SinkFailed K.Sink out.old out.new) }
    ensures later { IsLater K.Sink out.old out.new }
{
    out.put(answer_line(answer).as_str().as_bytes())
}
