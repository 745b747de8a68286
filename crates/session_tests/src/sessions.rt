// Sessions over files in memory: the answers to a list, and the journal.
use fv_io::{MemFiles, MemSink, Text, Trip};
use fv_plane::Key;
use serve_app::{Ending, Event, run_plain};
use std::alloc::{AllocError, Global};
use std::test::Fail;

// Four frames of one sample, and their copy.
const CLIP: &[u8] =
    b"YUV4MPEG2 W1 H1 F25:1 Ip A1:1 Cmono\nFRAME\n\x00FRAME\n\x01FRAME\n\x02FRAME\n\x03";

const COPY: &[u8] = b"Y4MSource(\"m4.y4m\")";

const LIST: &[u8] = b"frame 2\nframe 0\r\nframe 9\nhello\ninfo\nquit\nframe 1\n";

const ANSWERS: &[u8] =
    b"frame 2 1\n\x02frame 0 1\n\x00refused range\nrefused line\nclip 1x1 Y8 25:1 frames 4\nbye\n";

// How many bytes a read gives at most.
const PIECES: [usize; 3] = [1, 5, 9_999];

fn start(bytes: &[u8], count: usize) -> &[u8] {
    &bytes[..count.min(bytes.len())]
}

fn add(
    files: &mut MemFiles,
    alloc: Global,
    name: &str,
    bytes: &[u8],
    piece: usize,
    trips: &[Trip],
) -> Result<(), AllocError> {
    let name = Text::from_str(alloc, name)?;
    files.add(
        name,
        bytes.to_vec(alloc)?,
        piece.max(1),
        trips.to_vec(alloc)?,
    )
}

// The copy of the clip, and a list whose reads fail at these places, if there is one.
fn files_with(
    alloc: Global,
    list: Option<&[u8]>,
    piece: usize,
    trips: &[Trip],
) -> Result<MemFiles, AllocError> {
    let mut files = MemFiles::new(alloc);
    add(&mut files, alloc, "s.avs", COPY, 9_999, &[])?;
    add(&mut files, alloc, "m4.y4m", CLIP, 9_999, &[])?;
    if let Some(list) = list {
        add(&mut files, alloc, "l.txt", list, piece, trips)?;
    }
    Ok(files)
}

// A session into an output with this much room.
fn run(
    alloc: Global,
    cache: &str,
    files: &mut MemFiles,
    room: usize,
) -> Result<(Ending, MemSink, MemSink), AllocError> {
    let mut words = Vec::new(alloc);
    for word in ["session", "s.avs", "l.txt", "--cache", cache] {
        words.push(Text::from_str(alloc, word)?)?;
    }
    let mut out = MemSink::new(alloc, room)?;
    let mut err = MemSink::new(alloc, 99)?;
    let ending = run_plain(alloc, &words, files, &mut out, &mut err);
    Ok((ending, out, err))
}

// The answers to a list: all of them, or those before a read fails, or the list ends with a fault.
#[test]
fn a_session_answers_its_list(rt: HostRuntime) -> Result<(), Fail> {
    let alloc = rt.alloc();
    let mut long = b"frame 2\n".to_vec(alloc)?;
    long.extend_from_slice(&[b'x'; 4_097])?;
    let at = |place| [Trip::Read { rewinds: 0, place }];
    let read = "read fault\n";
    let too_long = "input fault: l.txt: LineTooLong\n";
    for (list, trips, status, text, line) in [
        (LIST, &[], 0, ANSWERS, ""),
        (start(LIST, 7), &[], 0, start(ANSWERS, 11), ""),
        (b"", &[], 0, b"", ""),
        (LIST, &at(0), 4, b"", read),
        (LIST, &at(7), 4, b"", read),
        (LIST, &at(8), 4, start(ANSWERS, 11), read),
        (&long, &[], 3, start(ANSWERS, 11), too_long),
    ] as [(&[u8], &[Trip], u8, &[u8], &str); 7]
    {
        for piece in PIECES {
            let mut files = files_with(alloc, Some(list), piece, trips)?;
            let (ending, out, err) = run(alloc, "64", &mut files, 99)?;
            assert_eq!(rt; ending.status, status);
            assert!(rt; out.bytes() == text);
            assert!(rt; err.bytes() == line.as_bytes());
            assert!(rt; ending.journal.is_some());
            assert_eq!(rt; (files.fetched(), files.closed()), (3, 3));
        }
    }
    Ok(())
}

// Where the output has no more room, all that it had room for was written.
#[test]
fn a_session_writes_up_to_a_fault(rt: HostRuntime) -> Result<(), Fail> {
    let alloc = rt.alloc();
    for room in 0..ANSWERS.len() {
        let mut files = files_with(alloc, Some(LIST), 9_999, &[])?;
        let (ending, out, err) = run(alloc, "64", &mut files, room)?;
        assert_eq!(rt; ending.status, 5);
        assert!(rt; out.bytes() == start(ANSWERS, room));
        assert!(rt; err.bytes() == b"write fault\n".as_slice());
        assert_eq!(rt; (files.fetched(), files.closed()), (3, 3));
    }
    Ok(())
}

// A list that isn't there leaves no answer and no journal.
#[test]
fn a_session_names_its_list(rt: HostRuntime) -> Result<(), Fail> {
    let alloc = rt.alloc();
    let mut files = files_with(alloc, None, 1, &[])?;
    let (ending, out, err) = run(alloc, "64", &mut files, 99)?;
    assert_eq!(rt; ending.status, 3);
    assert!(rt; out.bytes().is_empty());
    assert!(rt; err.bytes() == b"input fault: l.txt: NotThere\n".as_slice());
    assert!(rt; ending.journal.is_none());
    assert_eq!(rt; (files.fetched(), files.closed()), (2, 2));
    Ok(())
}

// A frame that is asked for again comes from the cache, in a window of its own; in a cache of one frame it is made again
// where another came between.
#[test]
fn a_session_keeps_its_cache(rt: HostRuntime) -> Result<(), Fail> {
    let alloc = rt.alloc();
    let worker = 0;
    let hit = Event::Hit {
        worker,
        key: Key { node: 0, n: 2 },
    };
    for (list, cache, hits) in [
        (b"frame 2\nframe 2\n", "64", &[false, true]),
        (b"frame 2\nframe 0\nframe 2\n", "64", &[false, false, true]),
        (b"frame 2\nframe 0\nframe 2\n", "1", &[false, false, false]),
        (b"frame 9\ninfo\nframe 2\n", "64", &[false]),
    ] as [(&[u8], &str, &[bool]); 4]
    {
        let mut files = files_with(alloc, Some(list), 5, &[])?;
        let (ending, _, _) = run(alloc, cache, &mut files, 99)?;
        let Some(journal) = &ending.journal else {
            return Err(Fail::from("no journal"));
        };
        assert_eq!(rt; journal.windows.len(), hits.len());
        for (window, is_hit) in journal.windows.iter().zip(hits.iter()) {
            let first = window.first;
            let cached = [
                Event::Take { worker, n: first },
                hit,
                Event::Deliver { worker, n: first },
            ];
            assert_eq!(rt; window.count, 1);
            assert_eq!(rt; window.events.as_slice() == cached.as_slice(), *is_hit);
        }
    }
    Ok(())
}

// All answers are put, or the run was out of memory. Run it with each allocation failing in turn.
#[test]
fn a_session_out_of_memory_is_named(rt: HostRuntime) -> Result<(), Fail> {
    let alloc = rt.alloc();
    let mut files = files_with(alloc, Some(LIST), 5, &[])?;
    let (ending, out, err) = run(alloc, "64", &mut files, 99)?;
    let (text, line) = match ending.status {
        0 => (ANSWERS, ""),
        status => {
            assert_eq!(rt; status, 6);
            (start(ANSWERS, out.bytes().len()), "no memory\n")
        }
    };
    assert!(rt; out.bytes() == text);
    assert!(rt; err.bytes() == line.as_bytes());
    Ok(())
}
