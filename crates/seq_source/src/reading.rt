// The bytes of a frame, read forwards.
ghost use Rattle.std.specs.Prelude.{◌≡◌, ◌+◌, ◌-◌, ◌<◌, ◌≤◌, ◌^◌, ℕ, length, take, drop, IfSome, IfOk, IfErr, OnOk, IsErrOf, slice_index};
ghost use Rattle.std.specs.Option.{ForSome};
ghost use Rattle.fv_io.specs.Source.{KeepsSource, IsSteady};
ghost use Rattle.fv_plane.specs.Picture.{in_range, row_of_bytes, AreBytes, FitsRow};
ghost use Rattle.fv_plane.specs.Format.{IsLegal, frame_bytes};
ghost use Rattle.seq_source.specs.FrameSource.{IsAt, ReadsFrame, RewindsOnce, end_of};
ghost use Rattle.seq_source.specs.Faults.{FaultShows};

use crate::fault::SeqFault;
use fv_io::{Source, read_full};
use fv_plane::{Frame, Shape, bring_in_range};
use y4m_stream::Index;

/// At most this many bytes before a frame are read with it. More are skipped. The head of a stream and the head of a
/// frame have no more together.
const MOST_BEFORE: u64 = 8_192;

/// So many bytes of samples are read at a time: an even number, since a sample may have two.
const PIECE: usize = 262_144;

// Brings the source to a place not past the start, and answers it. The source is rewound only where its place isn't
// known or is past the start.
fn go_back<S: Source>(source: &mut S, known: Option<u64>, start: u64) -> Result<u64, SeqFault>
    requires { ForSome known (IsAt S.Source source.old) }
    ensures before { IfOk result (λ place. place ≤ start) }
    ensures is_at { IfOk result (IsAt S.Source source.new) }
    ensures goes_on { IfSome known (λ place. place ≤ start → S.rewinds source.new ≡ S.rewinds source.old) }
    ensures keeps { RewindsOnce S.Source source.old source.new }
    ensures steady { (IsErrOf result SeqFault.Read → ⊥) → IsSteady S.Source source.old source.new }
    ensures fault { IfErr result (λ fault. (n past : ℕ) → FaultShows S.Source source.old source.new n past fault) }
{
    match known {
        Some(place) if place <= start => Ok(place),
        _ => {
            source.rewind()?;
            Ok(0)
        }
    }
}

// Skips from a place to the start of the samples of frame `n`, if it is more than `MOST_BEFORE` bytes further. Answers
// the source's place after that. `end` is the offset just past the frame.
fn go_on<S: Source>(
    source: &mut S,
    n: u32,
    place: u64,
    start: u64,
    end: u64,
) -> Result<u64, SeqFault>
    requires is_at { IsAt S.Source source.old place }
    requires before { place ≤ start }
    requires after { start < end }
    ensures before { IfOk result (λ now. now ≤ start) }
    ensures near { IfOk result (λ now. start ≤ now + 2 ^ 13) }
    ensures is_at { IfOk result (IsAt S.Source source.new) }
    ensures keeps { KeepsSource S.Source source.old source.new }
    ensures steady { (IsErrOf result SeqFault.Read → ⊥) → IsSteady S.Source source.old source.new }
    ensures fault { IfErr result (FaultShows S.Source source.old source.new n end) }
{
    let gap = start - place;
    if gap <= MOST_BEFORE {
        return Ok(place);
    }
    let passed = source.skip(gap)?;
    if passed < gap {
        return Err(SeqFault::Changed {
            frame: n,
            want: end,
            got: place + passed,
        });
    }
    Ok(start)
}

// Goes to a place at most `MOST_BEFORE` bytes before the start of the samples of frame `n`, and answers it. The source
// is rewound only where its place isn't known or is past the start.
fn approach<S: Source>(
    source: &mut S,
    n: u32,
    known: Option<u64>,
    start: u64,
    end: u64,
) -> Result<u64, SeqFault>
    requires is_at { ForSome known (IsAt S.Source source.old) }
    requires after { start < end }
    ensures before { IfOk result (λ place. place ≤ start) }
    ensures near { IfOk result (λ place. start ≤ place + 2 ^ 13) }
    ensures is_at { IfOk result (IsAt S.Source source.new) }
    ensures goes_on { IfSome known (λ place. place ≤ start → S.rewinds source.new ≡ S.rewinds source.old) }
    ensures keeps { RewindsOnce S.Source source.old source.new }
    ensures steady { (IsErrOf result SeqFault.Read → ⊥) → IsSteady S.Source source.old source.new }
    ensures fault { IfErr result (FaultShows S.Source source.old source.new n end) }
{
    let place = go_back(source, known, start)?;
    go_on(source, n, place, start, end)
}

// Fills the buffer with bytes of frame `n`, or before it, from the place on. `end` is the offset just past the frame.
fn read_piece<S: Source>(
    source: &mut S,
    n: u32,
    place: u64,
    end: u64,
    bytes: &mut [u8],
) -> Result<(), SeqFault>
    requires is_at { IsAt S.Source source.old place }
    requires inside { place + length bytes.old ≤ end }
    requires short { end < 2 ^ 61 }
    ensures is_at { OnOk result (IsAt S.Source source.new (place + length bytes.old)) }
    ensures bytes { OnOk result (ForSome (S.bytes source.old) (λ told.
        bytes.new ≡ take (length bytes.old) (drop place told))) }
    ensures whole { OnOk result (ForSome (S.bytes source.old) (λ told. place + length bytes.old ≤ length told)) }
    ensures are_bytes { AreBytes bytes.new }
    ensures keeps { KeepsSource S.Source source.old source.new }
    ensures steady { (IsErrOf result SeqFault.Read → ⊥) → IsSteady S.Source source.old source.new }
    ensures fault { IfErr result (FaultShows S.Source source.old source.new n end) }
{
    let got = place + read_full(source, bytes)? as u64;
    if got < place + bytes.len() as u64 {
        return Err(SeqFault::Changed {
            frame: n,
            want: end,
            got,
        });
    }
    Ok(())
}

// Fills the buffer with the samples of frame `n`, which begin at offset `start`, in range. They are read and brought into
// range piece by piece, while a piece is in the processor's cache.
fn read_samples<S: Source>(
    source: &mut S,
    n: u32,
    start: u64,
    shape: Shape,
    bytes: &mut [u8],
) -> Result<(), SeqFault>
    requires is_at { IsAt S.Source source.old start }
    requires legal { IsLegal shape }
    requires whole { length bytes.old ≡ frame_bytes shape }
    requires short { start + frame_bytes shape < 2 ^ 61 }
    ensures is_at { OnOk result (IsAt S.Source source.new (start + frame_bytes shape)) }
    ensures bytes { OnOk result (ForSome (S.bytes source.old) (λ told.
        bytes.new ≡ in_range shape (take (frame_bytes shape) (drop start told)))) }
    ensures fits { OnOk result (FitsRow shape (row_of_bytes shape bytes.new)) }
    ensures whole { OnOk result (ForSome (S.bytes source.old) (λ told. start + frame_bytes shape ≤ length told)) }
    ensures keeps { KeepsSource S.Source source.old source.new }
    ensures steady { (IsErrOf result SeqFault.Read → ⊥) → IsSteady S.Source source.old source.new }
    ensures fault { IfErr result (FaultShows S.Source source.old source.new n (start + frame_bytes shape)) }
{
    let end = start + bytes.len() as u64;
    let mut at = 0;
    while at < bytes.len() {
        let size = PIECE.min(bytes.len() - at);
        let piece = &mut bytes[at..at + size];
        read_piece(source, n, start + at as u64, end, piece)?;
        bring_in_range(shape, piece);
        at += size;
    }
    Ok(())
}

// Fills the buffer with the bytes from the place to the start of the samples of frame `n`, and with the samples, in range.
fn read_up_to<S: Source>(
    source: &mut S,
    n: u32,
    place: u64,
    start: u64,
    shape: Shape,
    bytes: &mut [u8],
) -> Result<(), SeqFault>
    requires is_at { IsAt S.Source source.old place }
    requires before { place ≤ start }
    requires legal { IsLegal shape }
    requires whole { place + length bytes.old ≡ start + frame_bytes shape }
    requires short { start + frame_bytes shape < 2 ^ 61 }
    ensures is_at { OnOk result (IsAt S.Source source.new (start + frame_bytes shape)) }
    ensures bytes { OnOk result (ForSome (S.bytes source.old) (λ told.
        drop (start - place) bytes.new ≡ in_range shape (take (frame_bytes shape) (drop start told)))) }
    ensures fits { OnOk result (FitsRow shape (row_of_bytes shape (drop (start - place) bytes.new))) }
    ensures whole { OnOk result (ForSome (S.bytes source.old) (λ told. start + frame_bytes shape ≤ length told)) }
    ensures keeps { KeepsSource S.Source source.old source.new }
    ensures steady { (IsErrOf result SeqFault.Read → ⊥) → IsSteady S.Source source.old source.new }
    ensures fault { IfErr result (FaultShows S.Source source.old source.new n (start + frame_bytes shape)) }
{
    let (before, samples) = bytes.split_at_mut((start - place) as usize);
    read_piece(source, n, place, start + samples.len() as u64, before)?;
    read_samples(source, n, start, shape, samples)
}

// The memory that a frame of this shape is to be read into. New memory gets room for all that may lie before a frame, so
// that it need not be moved where it serves again and more lies before the frame.
fn with_room(memory: Vec<u8>, shape: Shape) -> Vec<u8>
    requires { IsLegal shape }
{
    let mut memory = memory;
    if memory.is_empty() {
        // Where there is none, the caller meets that again.
        let _ = memory.reserve_exact((MOST_BEFORE + shape.bytes()) as usize);
    }
    memory
}

/// Reads frame `n` from a source that is at the known place, or anywhere. Answers the frame and the offset just past
/// it. The frame is made in `memory`, whose bytes are overwritten.
pub(crate) fn read_indexed<S: Source>(
    source: &mut S,
    index: &Index,
    known: Option<u64>,
    n: u32,
    memory: Vec<u8>,
) -> Result<(Frame, u64), SeqFault>
    requires is_at { ForSome known (IsAt S.Source source.old) }
    requires inside { n < index.now.info.frames }
    ensures read { IfOk result (λ r. ReadsFrame S.Source source.old source.new index.now n r.0 r.1) }
    ensures count { length index.now.offsets ≡ index.now.info.frames }
    ensures fault { IfErr result (FaultShows S.Source source.old source.new n (end_of index.now n)) }
    ensures goes_on { IfSome known (λ place. place ≤ slice_index index.now.offsets n →
        S.rewinds source.new ≡ S.rewinds source.old) }
    ensures keeps { RewindsOnce S.Source source.old source.new }
    ensures steady { (IsErrOf result SeqFault.Read → ⊥) → IsSteady S.Source source.old source.new }
{
    let shape = index.info().shape;
    let start = index.offset(n);
    let end = start + shape.bytes();
    let place = approach(source, n, known, start, end)?;
    let before = (start - place) as usize;
    let mut bytes = with_room(memory, shape);
    bytes.resize(before + shape.bytes() as usize, 0)?;
    read_up_to(source, n, place, start, shape, &mut bytes)?;
    let frame = Frame::from_vec_in_range(bytes, before, shape)?;
    Ok((frame, end))
}
