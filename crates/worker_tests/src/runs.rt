// Scripts and a clip in memory, and runs over them by several workers.
use fv_io::{Files, MemFiles, MemSink, Text, Trip};
use serve_app::{Ending, Event, Gate, Record, run, run_plain};
use std::alloc::{AllocError, Global};
use std::sync::Wait;
use std::thread::Threads;

// Four frames of one sample. The head ends at 36, and the frames at 43, 50, 57 and 64.
pub const CLIP: &[u8] =
    b"YUV4MPEG2 W1 H1 F25:1 Ip A1:1 Cmono\nFRAME\n\x00FRAME\n\x01FRAME\n\x02FRAME\n\x03";

// A clip and its reverse, frame by frame.
pub const BOTH: &[u8] =
    b"a = Y4MSource(\"m4.y4m\")\nb = Y4MSource(\"m4.y4m\").Reverse\nInterleave(a, b).Prefetch(4)";

// The script as `s.avs` and the clip as `m4.y4m`, whose reads and rewinds fail at these places. Each read gives at most so many
// bytes.
pub fn files_in_pieces(
    alloc: Global,
    script: &[u8],
    trips: &[Trip],
    piece: usize,
) -> Result<MemFiles, AllocError> {
    files_with(alloc, script, CLIP, trips, piece)
}

// The same with this clip.
pub fn files_with(
    alloc: Global,
    script: &[u8],
    clip: &[u8],
    trips: &[Trip],
    piece: usize,
) -> Result<MemFiles, AllocError> {
    let mut files = MemFiles::new(alloc);
    for (name, bytes, trips) in [("s.avs", script, &[]), ("m4.y4m", clip, trips)] as [(
        &str,
        &[u8],
        &[Trip],
    ); 2]
    {
        let name = Text::from_str(alloc, name)?;
        files.add(
            name,
            bytes.to_vec(alloc)?,
            piece.max(1),
            trips.to_vec(alloc)?,
        )?;
    }
    Ok(files)
}

// The same with at most five bytes a read.
pub fn files_of(alloc: Global, script: &[u8], trips: &[Trip]) -> Result<MemFiles, AllocError> {
    files_in_pieces(alloc, script, trips, 5)
}

// What a run leaves: its status, what is on both outputs, and its journal.
#[derive(Drop)]
pub struct Left {
    pub status: u8,
    pub out: MemSink,
    pub err: MemSink,
    pub journal: Option<Record>,
}

// How many keys a journal says were claimed, and how many published.
pub fn count_keys(journal: &Option<Record>) -> (u64, u64) {
    let (mut claimed, mut published) = (0u64, 0u64);
    if let Some(journal) = journal {
        for window in &journal.windows {
            for event in &window.events {
                match event {
                    Event::Claim { .. } => claimed = claimed.saturating_add(1),
                    Event::Publish { .. } => published = published.saturating_add(1),
                    _ => {}
                }
            }
        }
    }
    (claimed, published)
}

fn words_of(alloc: Global, words: &[&str]) -> Result<Vec<Text>, AllocError> {
    let mut texts = Vec::new(alloc);
    for word in words {
        texts.push(Text::from_str(alloc, word)?)?;
    }
    Ok(texts)
}

// A run by as many workers as the words and the script ask for.
pub fn run_together<R: Threads + Wait + Sync, F: Files, G: Gate>(
    rt: &R,
    alloc: Global,
    words: &[&str],
    files: &mut F,
    room: usize,
    gate: &G,
) -> Result<Left, AllocError> {
    let texts = words_of(alloc, words)?;
    let mut out = MemSink::new(alloc, room)?;
    let mut err = MemSink::new(alloc, 999)?;
    let ending = run(rt, alloc, &texts, files, &mut out, &mut err, gate);
    let Ending { status, journal } = ending;
    Ok(Left {
        status,
        out,
        err,
        journal,
    })
}

// A run by one worker.
pub fn run_one<F: Files>(
    alloc: Global,
    words: &[&str],
    files: &mut F,
    room: usize,
) -> Result<Left, AllocError> {
    let texts = words_of(alloc, words)?;
    let mut out = MemSink::new(alloc, room)?;
    let mut err = MemSink::new(alloc, 999)?;
    let ending = run_plain(alloc, &texts, files, &mut out, &mut err);
    let Ending { status, journal } = ending;
    Ok(Left {
        status,
        out,
        err,
        journal,
    })
}
