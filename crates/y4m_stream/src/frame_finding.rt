// The frames after a head, one after the other.
ghost use Rattle.std.specs.Prelude.{◌≡◌, ◌<◌, ◌≤◌, ◌^◌, drop, IfOk, IfErr, IsErrOf};
ghost use Rattle.std.specs.Option.{ForSome};
ghost use Rattle.fv_io.specs.Source.{KeepsSource, IsSteady, SourceFailed};
ghost use Rattle.y4m_stream.specs.ReadAhead.{left_of};
ghost use Rattle.y4m_stream.specs.Frames.{IsFrameHead, FindsNext, CountsOn, NextFault, AreOffsets, FindsFrames, FramesFault};
ghost use Rattle.y4m_stream.specs.Stream.{may_begin};

use crate::fault::{IndexFault, Y4mFault};
use crate::head_reading::{MAX_HEAD, is_break, line_end};
use crate::read_ahead::{MOST_AHEAD, ReadAhead};
use fv_io::Source;
use fv_plane::Info;
use std::alloc::Global;

const WORD: &[u8] = b"FRAME";

/// What the bytes begin with where the head of a frame should be.
#[derive(Clone, Copy)]
pub(crate) enum FrameHead {
    /// A head of this number of bytes.
    Whole(usize),
    /// No head.
    Bad,
    /// The beginning of a head, at the end of the stream.
    Cut,
}

// Whether these bytes may begin a frame, as far as they go.
fn may_begin(bytes: &[u8]) -> bool
    ensures { result ≡ may_begin bytes.now }
{
    let count = bytes.len().min(WORD.len());
    WORD.starts_with(&bytes[..count]) && (bytes.len() <= WORD.len() || is_break(bytes[WORD.len()]))
}

// What the bytes begin with, which are the first 4,096 or more of what is left, or all of it.
fn frame_head(bytes: &[u8]) -> FrameHead
    ensures { IsFrameHead result bytes.now }
{
    if !may_begin(bytes) {
        return FrameHead::Bad;
    }
    match line_end(bytes) {
        Some(end) => FrameHead::Whole(end + 1),
        None if bytes.len() >= MAX_HEAD => FrameHead::Bad,
        None => FrameHead::Cut,
    }
}

// How many bytes to read ahead. Small frames are read many at a time. Large ones are skipped in the source.
fn most_ahead(size: usize) -> usize
    ensures least { 4096 ≤ result }
    ensures most { result ≤ 2 ^ 17 }
{
    if size < MOST_AHEAD / 2 {
        MOST_AHEAD
    } else {
        MAX_HEAD
    }
}

// Goes past frame `k`, which has `size` bytes after its head, and answers how long the head is. None comes at the end
// of the stream.
fn next_frame<S: Source>(
    source: &mut S,
    ahead: &mut ReadAhead,
    size: usize,
    k: u32,
) -> Result<Option<usize>, IndexFault>
    requires { 0 < size }
    ensures counts { IfOk result (CountsOn k) }
    ensures next { IfOk result (λ found. ForSome (S.bytes source.old) (λ told. FindsNext size
        (left_of ahead.old told (S.place source.old)) (left_of ahead.new told (S.place source.new)) found)) }
    ensures fault { IfErr result (λ fault. ForSome (S.bytes source.old) (λ told.
        NextFault size k (left_of ahead.old told (S.place source.old)) fault)) }
    ensures keeps { KeepsSource S.Source source.old source.new }
    ensures read { IsErrOf result IndexFault.Read → SourceFailed S.Source source.old source.new }
    ensures steady { (IsErrOf result IndexFault.Read → ⊥) → IsSteady S.Source source.old source.new }
{
    ahead.fill(source, MAX_HEAD, most_ahead(size))?;
    if ahead.len() == 0 {
        if k == 0 {
            return Err(IndexFault::Y4m(Y4mFault::NoFrames));
        }
        return Ok(None);
    }
    if k == Info::MAX_FRAMES {
        return Err(IndexFault::Y4m(Y4mFault::TooManyFrames));
    }
    let len = match frame_head(ahead.bytes()) {
        FrameHead::Whole(len) => len,
        FrameHead::Bad => return Err(IndexFault::Y4m(Y4mFault::BadFrame(k))),
        FrameHead::Cut => return Err(IndexFault::Y4m(Y4mFault::Truncated(k))),
    };
    ahead.consume(len);
    let count = ahead.skip(source, size)?;
    if count < size {
        return Err(IndexFault::Y4m(Y4mFault::Truncated(k)));
    }
    Ok(Some(len))
}

/// The offsets of the first samples of the frames that are left, the first of which begins at the start.
pub(crate) fn find_frames<S: Source>(
    alloc: Global,
    source: &mut S,
    ahead: &mut ReadAhead,
    size: usize,
    start: u64,
) -> Result<Vec<u64>, IndexFault>
    requires some { 0 < size }
    requires small { size ≤ 2 ^ 24 }
    requires early { start ≤ 2 ^ 12 }
    requires here { ForSome (S.bytes source.old) (λ told.
        left_of ahead.old told (S.place source.old) ≡ drop start told) }
    ensures offsets { IfOk result (λ offsets. AreOffsets size offsets.items) }
    ensures found { IfOk result (λ offsets. ForSome (S.bytes source.old) (λ told.
        FindsFrames told size start offsets.items)) }
    ensures fault { IfErr result (λ fault. ForSome (S.bytes source.old) (λ told.
        FramesFault size (drop start told) fault)) }
    ensures keeps { KeepsSource S.Source source.old source.new }
    ensures read { IsErrOf result IndexFault.Read → SourceFailed S.Source source.old source.new }
    ensures steady { (IsErrOf result IndexFault.Read → ⊥) → IsSteady S.Source source.old source.new }
{
    let mut offsets = Vec::new(alloc);
    let mut place = start;
    while let Some(len) = next_frame(source, ahead, size, offsets.len() as u32)? {
        let offset = place + len as u64;
        offsets.push(offset)?;
        place = offset + size as u64;
    }
    Ok(offsets)
}
