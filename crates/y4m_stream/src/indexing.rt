// Where the frames of a stream are.
ghost use Rattle.std.specs.Prelude.{◌≡◌, IfOk, IfErr, IsErrOf};
ghost use Rattle.std.specs.Option.{ForSome};
ghost use Rattle.fv_io.specs.Source.{KeepsSource, IsSteady, SourceFailed};
ghost use Rattle.fv_plane.specs.Picture.{Clip};
ghost use Rattle.y4m_stream.specs.Stream.{IsIndex, Indexes, HasIndexFault};

use crate::fault::IndexFault;
use crate::frame_finding::find_frames;
use crate::head_reading::{MAX_HEAD, read_head};
use crate::read_ahead::ReadAhead;
use crate::stream_index::Index;
use fv_io::Source;
use fv_plane::Info;
use std::alloc::Global;

/// Finds the frames of a source that was just fetched. It keeps no samples, and skips those of frames of 64 KiB and
/// more.
///
/// Over told bytes `Y4m` is their first fault. `Read` means that the source failed, and `Memory` out of memory. No
/// fault of the source is counted but with `Read`. The source is left at any place.
pub fn index<S: Source>(alloc: Global, source: &mut S) -> Result<Index, IndexFault>
    requires { S.place source.old ≡ 0 }
    ensures found { IfOk result (λ index. ForSome (S.bytes source.old) (λ told.
        (clip : Clip) × Indexes told index clip)) }
    ensures places { IfOk result (λ index. IsIndex index) }
    ensures fault { IfErr result (λ fault. ForSome (S.bytes source.old) (λ told. HasIndexFault told fault)) }
    ensures read { IsErrOf result IndexFault.Read → SourceFailed S.Source source.old source.new }
    ensures steady { (IsErrOf result IndexFault.Read → ⊥) → IsSteady S.Source source.old source.new }
    ensures keeps { KeepsSource S.Source source.old source.new }
{
    let mut ahead = ReadAhead::new(alloc)?;
    ahead.fill(source, MAX_HEAD, MAX_HEAD)?;
    let head = read_head(ahead.bytes())?;
    ahead.consume(head.len as usize);
    let size = head.info.shape.bytes() as usize;
    let offsets = find_frames(alloc, source, &mut ahead, size, head.len as u64)?;
    let frames = offsets.len() as u32;
    Ok(Index::new(
        Info {
            frames,
            ..head.info
        },
        offsets,
    ))
}
