// Sources of frames in memory: in and out of order, where reads and rewinds fail, and where a file was cut.
ghost use Rattle.std.specs.Prelude.{◌≡◌, ◌<◌};

use fv_io::{MemSink, MemSource, Source, Trip};
use seq_source::{SeqFault, SeqSource};
use std::alloc::{AllocError, Global};
use std::process::Abort;
use std::sync::Arc;
use std::test::Fail;
use y4m_stream::{IndexFault, index, write_frame};

// Four frames of one sample each. Their texts begin at 36, 43, 50 and 57.
const CLIP: &[u8] =
    b"YUV4MPEG2 W1 H1 F25:1 Ip A1:1 Cmono\nFRAME\n\x00FRAME\n\x01FRAME\n\x02FRAME\n\x03";

// The frames of a source, by its index.
fn indexed(alloc: Global, mut source: MemSource) -> Result<SeqSource<MemSource>, IndexFault>
    requires { source.place ≡ 0 }
{
    let index = index(alloc, &mut source)?;
    Ok(SeqSource::new(alloc, source, index))
}

// The frames of the clip, whose source gives at most `piece` bytes a read.
fn clip(alloc: Global, piece: usize, trips: &[Trip]) -> Result<SeqSource<MemSource>, Fail>
    requires { 0 < piece }
{
    let bytes = Arc::new(alloc, CLIP.to_vec(alloc)?)?;
    let source = MemSource::new(bytes, piece, trips.to_vec(alloc)?);
    Ok(indexed(alloc, source)?)
}

// Asks for frames. Each has its number as its one sample, or there is this fault.
fn gives(
    rt: &impl Abort,
    alloc: Global,
    clip: &mut SeqSource<MemSource>,
    wanted: &[(u8, Option<SeqFault>)],
) -> Result<(), AllocError> {
    for (n, want) in wanted {
        let number = u32::from(*n);
        assert!(rt; number < clip.info().frames);
        let mut sink = MemSink::new(alloc, 7)?;
        let fault = match clip.frame(number) {
            Ok(frame) => {
                assert_eq!(rt; write_frame(&mut sink, &frame), Ok(()));
                assert_eq!(rt; sink.bytes().last(), Some(n));
                None
            }
            Err(fault) => Some(fault),
        };
        assert_eq!(rt; fault, *want, "at {n}");
    }
    Ok(())
}

fn moves<T: Send>(value: T) -> T {
    value
}

// A source of frames goes to another thread where its source may.
fn moves_with_its_source<S: Source + Send>(source: SeqSource<S>) -> SeqSource<S> {
    moves(source)
}

#[test]
fn gives_frames_in_any_order(rt: HostRuntime) -> Result<(), Fail> {
    let alloc = rt.alloc();
    for piece in [1, 4_096] {
        let mut clip = moves_with_its_source(clip(alloc, piece, &[])?);
        gives(&rt, alloc, &mut clip, &[(3, None), (1, None), (1, None)])?;
    }
    Ok(())
}

// Whatever the memory holds, and however much of it there is.
#[test]
fn gives_frames_in_used_memory(rt: HostRuntime) -> Result<(), Fail> {
    let alloc = rt.alloc();
    let mut clip = clip(alloc, 4_096, &[])?;
    for size in [0, 1, 6, 7, 8, 100] {
        let mut memory = Vec::new(alloc);
        memory.resize(size, 255)?;
        clip.use_memory(memory);
        gives(&rt, alloc, &mut clip, &[(2, None), (3, None)])?;
    }
    Ok(())
}

// In order the source is rewound once, though the second rewind would fail; after its fault the frame comes. A read that
// fails just past frame 1 doesn't touch frame 1.
#[test]
fn faults_come_once_and_where_they_are(rt: HostRuntime) -> Result<(), Fail> {
    let alloc = rt.alloc();
    let read = Some(SeqFault::Read);
    let back = Trip::Rewind { rewinds: 1 };
    let past = Trip::Read {
        rewinds: 1,
        place: 50,
    };
    for (trip, wanted) in [
        (
            back,
            [(0, None), (1, None), (3, None), (2, read), (2, None)],
        ),
        (
            past,
            [(0, None), (1, None), (2, read), (2, None), (3, None)],
        ),
    ] {
        let mut clip = clip(alloc, 4_096, &[trip])?;
        gives(&rt, alloc, &mut clip, &wanted)?;
        assert_eq!(rt; clip.into_source().faults(), 1);
    }
    Ok(())
}

// The file was cut inside frame 2 after it was indexed.
#[test]
fn tells_where_a_file_was_cut(rt: HostRuntime) -> Result<(), Fail> {
    let alloc = rt.alloc();
    let first = Arc::new(alloc, CLIP.to_vec(alloc)?)?;
    let later = Arc::new(alloc, CLIP[..54].to_vec(alloc)?)?;
    let mut clip = indexed(alloc, MemSource::shrinking(first, later))?;
    let cut = |frame, want| {
        Some(SeqFault::Changed {
            frame,
            want,
            got: 54,
        })
    };
    let wanted = [(3, cut(3, 64)), (2, cut(2, 57)), (1, None)];
    gives(&rt, alloc, &mut clip, &wanted)?;
    assert_eq!(rt; clip.into_source().faults(), 0);
    Ok(())
}
