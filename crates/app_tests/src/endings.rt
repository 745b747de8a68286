// How a render ends: with its text, where files and outputs fail, where an input is cut or changes, and without memory.
use crate::runs::{AGAIN, CLIP, COPY, Failing, TWICE, files_of, files_over, run, start};
use fv_io::{MemFiles, Text, Trip};
use std::alloc::{AllocError, Global};
use std::process::Abort;
use std::test::Fail;

// The clip backwards.
const BACK: &[u8] =
    b"YUV4MPEG2 W1 H1 F25:1 Ip A1:1 Cmono\nFRAME\n\x03FRAME\n\x02FRAME\n\x01FRAME\n\x00";

const RENDER: &[&str] = &["render", "s.avs"];

const REPORT: &[&str] = &["render", "s.avs", "--report"];

// How many bytes a read gives at most.
const PIECES: [usize; 3] = [1, 5, usize::MAX];

// A run ends with this status, this text and this line, and has closed what it fetched.
fn ends(
    rt: &impl Abort,
    alloc: Global,
    words: &[&str],
    files: &mut MemFiles,
    room: (usize, usize),
    want: (u8, &[u8], &str),
) -> Result<(), AllocError> {
    let (ending, out, err) = run(alloc, words, files, room)?;
    let (status, text, line) = want;
    assert_eq!(rt; ending.status, status, "for {line}");
    assert!(rt; out.bytes() == text, "for {line}");
    assert!(rt; err.bytes() == line.as_bytes(), "for {line}");
    assert_eq!(rt; files.fetched(), files.closed(), "for {line}");
    Ok(())
}

#[test]
fn a_render_succeeds(rt: HostRuntime) -> Result<(), Fail> {
    let mut files = files_of(rt.alloc(), COPY, &[])?;
    ends(&rt, rt.alloc(), RENDER, &mut files, (99, 99), (0, CLIP, ""))?;
    Ok(())
}

// The fetch of this number fails, or reads and rewinds of the script or of the clip. Each file is fetched once, so that a
// third fetch never comes.
#[test]
fn the_files_fail(rt: HostRuntime) -> Result<(), Fail> {
    let alloc = rt.alloc();
    let at = |rewinds, place| [Trip::Read { rewinds, place }];
    let back = |rewinds| [Trip::Rewind { rewinds }];
    let backwards = b"Y4MSource(\"m4.y4m\").Reverse".as_slice();
    for (fetch, script, trips, status, text) in [
        (1, (COPY, &[]), &[], 4, b"".as_slice()),
        (2, (COPY, &[]), &[], 4, b""),
        (3, (COPY, &[]), &[], 0, CLIP),
        (3, (COPY, &at(0, 7)), &[], 4, b""),
        (3, (COPY, &[]), &at(0, 0), 4, b""),
        (3, (COPY, &[]), &at(0, 64), 4, b""),
        (3, (COPY, &[]), &back(0), 4, start(CLIP, 36)),
        (3, (COPY, &[]), &at(1, 0), 4, start(CLIP, 36)),
        (3, (COPY, &[]), &at(1, 51), 4, start(CLIP, 50)),
        (3, (COPY, &[]), &at(1, 56), 4, start(CLIP, 50)),
        (3, (COPY, &[]), &at(1, 63), 4, start(CLIP, 57)),
        (3, (COPY, &[]), &at(1, 64), 0, CLIP),
        (3, (backwards, &[]), &[], 0, BACK),
        (3, (backwards, &[]), &back(1), 4, start(BACK, 43)),
    ] as [(u64, Failing, &[Trip], u8, &[u8]); 14]
    {
        let line = if status == 4 { "read fault\n" } else { "" };
        for piece in PIECES {
            let mut files = files_over(alloc, script, (CLIP, trips), piece)?;
            files.fail_fetch(fetch)?;
            let want = (status, text, line);
            ends(&rt, alloc, RENDER, &mut files, (99, 99), want)?;
            assert_eq!(rt; files.faults(), u64::from(status / 4));
        }
    }
    Ok(())
}

// The outputs have no room: for the head, for a frame, for a line, for the report.
#[test]
fn the_outputs_fail(rt: HostRuntime) -> Result<(), Fail> {
    let alloc = rt.alloc();
    let wrong = b"x = 1 / 0".as_slice();
    let report = "0 Y4MSource made 4 hit 0 evicted 0 entered 4\n";
    let fault = "write fault\n";
    for (script, words, room, status, text, line) in [
        (COPY, RENDER, (0, 99), 5, b"".as_slice(), fault),
        (COPY, RENDER, (36, 99), 5, start(CLIP, 36), fault),
        (COPY, RENDER, (60, 99), 5, start(CLIP, 60), fault),
        (COPY, RENDER, (60, 3), 5, start(CLIP, 60), "wri"),
        (wrong, RENDER, (99, 0), 2, b"", ""),
        (COPY, REPORT, (99, 99), 0, CLIP, report),
        (COPY, REPORT, (99, 5), 5, CLIP, "0 Y4M"),
    ] as [(&[u8], &[&str], (usize, usize), u8, &[u8], &str); 7]
    {
        for piece in PIECES {
            let mut files = files_over(alloc, (script, &[]), (CLIP, &[]), piece)?;
            ends(&rt, alloc, words, &mut files, room, (status, text, line))?;
        }
    }
    Ok(())
}

// Each prefix of the clip has the frames that it holds whole, or this fault: from this number of bytes on.
#[test]
fn each_prefix_of_a_clip_has_its_frames(rt: HostRuntime) -> Result<(), Fail> {
    let alloc = rt.alloc();
    for (from, to, line) in [
        (0, 10, "input fault: m4.y4m: NotY4m\n"),
        (10, 36, "input fault: m4.y4m: HeadTooLong\n"),
        (36, 37, "input fault: m4.y4m: NoFrames\n"),
        (37, 43, "input fault: m4.y4m: Truncated 0\n"),
        (43, 44, ""),
        (44, 50, "input fault: m4.y4m: Truncated 1\n"),
        (50, 51, ""),
        (51, 57, "input fault: m4.y4m: Truncated 2\n"),
        (57, 58, ""),
        (58, 64, "input fault: m4.y4m: Truncated 3\n"),
        (64, 65, ""),
    ] {
        let status = if line.is_empty() { 0 } else { 3 };
        for size in from..to {
            for piece in [1, usize::MAX] {
                let clip = start(CLIP, size);
                let mut files = files_over(alloc, (COPY, &[]), (clip, &[]), piece)?;
                let text = if status == 0 { clip } else { b"" };
                ends(
                    &rt,
                    alloc,
                    RENDER,
                    &mut files,
                    (99, 99),
                    (status, text, line),
                )?;
            }
        }
    }
    Ok(())
}

#[test]
fn a_head_has_its_fault(rt: HostRuntime) -> Result<(), Fail> {
    let alloc = rt.alloc();
    for (head, line) in [
        (
            "W99999999999 H1 F25:1 Cmono\nFRAME\n",
            "input fault: m4.y4m: BadNumber W\n",
        ),
        (
            "W0 H1 F25:1 Cmono\nFRAME\n",
            "input fault: m4.y4m: BadSize\n",
        ),
        (
            "W65535 H65535 F25:1 Cmono\nFRAME\n",
            "input fault: m4.y4m: TooLarge\n",
        ),
        (
            "W1 H1 F1:0 Cmono\nFRAME\n",
            "input fault: m4.y4m: BadNumber F\n",
        ),
        (
            "W1 H1 F25:1 C410\nFRAME\n",
            "input fault: m4.y4m: UnknownColour\n",
        ),
        (
            "W3 H2 F25:1 C420jpeg\nFRAME\n",
            "input fault: m4.y4m: BadSize\n",
        ),
        (
            "W1 H1 F25:1 Cmono\nFRAMEX\n",
            "input fault: m4.y4m: BadFrame 0\n",
        ),
    ] {
        for piece in PIECES {
            let mut clip = b"YUV4MPEG2 ".to_vec(alloc)?;
            clip.extend_from_slice(head.as_bytes())?;
            clip.extend_from_slice(&CLIP[42..])?;
            let mut files = files_over(alloc, (COPY, &[]), (&clip, &[]), piece)?;
            ends(&rt, alloc, RENDER, &mut files, (99, 99), (3, b"", line))?;
        }
    }
    Ok(())
}

#[test]
fn an_input_changes_while_it_is_read(rt: HostRuntime) -> Result<(), Fail> {
    let alloc = rt.alloc();
    for (left, put, line) in [
        (60, 57, "input fault: m4.y4m: Changed 3 want 64 got 60\n"),
        (44, 43, "input fault: m4.y4m: Changed 1 want 50 got 44\n"),
        (0, 36, "input fault: m4.y4m: Changed 0 want 43 got 0\n"),
    ] {
        let mut files = files_of(alloc, COPY, &[])?;
        let name = Text::from_str(alloc, "m4.y4m")?;
        let later = start(CLIP, left).to_vec(alloc)?;
        files.add_shrinking(name, CLIP.to_vec(alloc)?, later)?;
        let want = (3, start(CLIP, put), line);
        ends(&rt, alloc, RENDER, &mut files, (99, 99), want)?;
    }
    Ok(())
}

// A clip whose frames are each asked for twice. A cache of one frame makes some of them again. The source fails where it
// goes back once more after so many times.
#[test]
fn a_small_cache_makes_frames_again(rt: HostRuntime) -> Result<(), Fail> {
    let alloc = rt.alloc();
    for (cache, rewinds, want) in [
        ("256", 9, (0, AGAIN, "")),
        ("1", 9, (0, AGAIN, "")),
        ("256", 2, (0, AGAIN, "")),
        ("1", 2, (4, start(AGAIN, 50), "read fault\n")),
    ] {
        let mut files = files_of(alloc, TWICE, &[Trip::Rewind { rewinds }])?;
        let words = ["render", "s.avs", "--cache", cache];
        ends(&rt, alloc, &words, &mut files, (99, 99), want)?;
    }
    Ok(())
}

// Renders one after the other over the same files: the fault of one is never told by a later one.
#[test]
fn no_render_repeats_an_old_fault(rt: HostRuntime) -> Result<(), Fail> {
    let alloc = rt.alloc();
    let mut files = files_of(alloc, COPY, &[])?;
    for fetch in [2, 5] {
        files.fail_fetch(fetch)?;
    }
    for (room, faults, want) in [
        (99, 1, (4, b"".as_slice(), "read fault\n")),
        (99, 1, (0, CLIP, "")),
        (99, 2, (4, b"", "read fault\n")),
        (36, 2, (5, start(CLIP, 36), "write fault\n")),
        (99, 2, (0, CLIP, "")),
    ] as [(usize, u64, (u8, &[u8], &str)); 5]
    {
        ends(&rt, alloc, RENDER, &mut files, (room, 99), want)?;
        assert_eq!(rt; files.faults(), faults);
    }
    Ok(())
}

// The text is whole, or the run was out of memory. Run it with each allocation failing in turn.
#[test]
fn out_of_memory_is_named(rt: HostRuntime) -> Result<(), Fail> {
    let alloc = rt.alloc();
    let mut files = files_of(alloc, COPY, &[])?;
    let (ending, out, err) = run(alloc, RENDER, &mut files, (99, 99))?;
    let (text, line) = match ending.status {
        0 => (CLIP, ""),
        status => {
            assert_eq!(rt; status, 6);
            (start(CLIP, out.bytes().len()), "no memory\n")
        }
    };
    assert!(rt; out.bytes() == text);
    assert!(rt; err.bytes() == line.as_bytes());
    Ok(())
}
