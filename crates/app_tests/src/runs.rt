// A script and a clip in memory, and runs over them.
use fv_io::{MemFiles, MemSink, Text, Trip};
use serve_app::{Ending, run_plain};
use std::alloc::{AllocError, Global};

// Four frames, which a render copies unchanged: the head ends at 36, and the frames at 43, 50, 57 and 64.
pub const CLIP: &[u8] =
    b"YUV4MPEG2 W1 H1 F25:1 Ip A1:1 Cmono\nFRAME\n\x00FRAME\n\x01FRAME\n\x02FRAME\n\x03";

pub const COPY: &[u8] = b"Y4MSource(\"m4.y4m\")";

// The merge of the clip with its reverse, and its text.
pub const TWICE: &[u8] = b"c = Y4MSource(\"m4.y4m\")\nMerge(c, c.Reverse)";

pub const AGAIN: &[u8] =
    b"YUV4MPEG2 W1 H1 F25:1 Ip A1:1 Cmono\nFRAME\n\x02FRAME\n\x02FRAME\n\x02FRAME\n\x02";

pub fn start(bytes: &[u8], count: usize) -> &[u8] {
    &bytes[..count.min(bytes.len())]
}

// A file, and the places at which its reads and rewinds fail.
pub type Failing<'a> = (&'a [u8], &'a [Trip]);

// The script as `s.avs` and the clip as `m4.y4m`. Each read gives at most so many bytes.
pub fn files_over(
    alloc: Global,
    script: Failing,
    clip: Failing,
    piece: usize,
) -> Result<MemFiles, AllocError> {
    let mut files = MemFiles::new(alloc);
    for (name, (bytes, trips)) in [("s.avs", script), ("m4.y4m", clip)] {
        let name = Text::from_str(alloc, name)?;
        files.add(
            name,
            bytes.to_vec(alloc)?,
            piece.max(1),
            trips.to_vec(alloc)?,
        )?;
    }
    Ok(files)
}

// The script, and the clip of four frames whose source fails at these places, with at most five bytes a read.
pub fn files_of(alloc: Global, script: &[u8], trips: &[Trip]) -> Result<MemFiles, AllocError> {
    files_over(alloc, (script, &[]), (CLIP, trips), 5)
}

// A run into outputs with this much room.
pub fn run(
    alloc: Global,
    words: &[&str],
    files: &mut MemFiles,
    room: (usize, usize),
) -> Result<(Ending, MemSink, MemSink), AllocError> {
    let mut texts = Vec::new(alloc);
    for word in words {
        texts.push(Text::from_str(alloc, word)?)?;
    }
    let mut out = MemSink::new(alloc, room.0)?;
    let mut err = MemSink::new(alloc, room.1)?;
    let ending = run_plain(alloc, &texts, files, &mut out, &mut err);
    Ok((ending, out, err))
}
