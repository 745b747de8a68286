// Renders by several workers, compared with the render by one.
use crate::crowd::Crowd;
use crate::meeting::Meeting;
use crate::paused::PausedFiles;
use crate::runs::{BOTH, CLIP, Left, count_keys, files_in_pieces, files_of, run_one, run_together};
use fv_io::Trip;
use serve_app::OpenGate;
use std::sync::Arc;
use std::test::Fail;

const INTERLEAVED: &[u8] =
    b"YUV4MPEG2 W1 H1 F50:1 Ip A1:1 Cmono\nFRAME\n\x00FRAME\n\x03FRAME\n\x01FRAME\n\x02\
    FRAME\n\x02FRAME\n\x01FRAME\n\x03FRAME\n\x00";

// Each script with these words leaves this text, by one worker and by several.
#[test]
fn several_workers_write_what_one_writes(rt: HostRuntime) -> Result<(), Fail> {
    let alloc = rt.alloc();
    let every = b"YUV4MPEG2 W1 H1 F50:3 Ip A1:1 Cmono\nFRAME\n\x00FRAME\n\x02FRAME\n\x03";
    for (script, threads, text) in [
        (BOTH, "4", INTERLEAVED),
        (BOTH, "16", INTERLEAVED),
        (b"Y4MSource(\"m4.y4m\").SelectEvery(3,0,2)", "16", every),
    ] as [(&[u8], &str, &[u8]); 3]
    {
        let words = ["render", "s.avs", "--threads", threads];
        let mut files = files_of(alloc, script, &[])?;
        let many = run_together(&rt, alloc, &words, &mut files, 999, &OpenGate)?;
        let mut files = files_of(alloc, script, &[])?;
        let one = run_one(alloc, &words, &mut files, 999)?;
        for Left {
            status,
            out,
            err,
            journal: _,
        } in [many, one] {
            assert_eq!(rt; status, 0);
            assert!(rt; out.bytes() == text);
            assert!(rt; err.bytes().is_empty());
        }
    }
    Ok(())
}

// Two workers at their first claim see each other, and so do two sources whose reads wait for each other.
#[test]
fn two_workers_run_at_once(rt: HostRuntime) -> Result<(), Fail> {
    let alloc = rt.alloc();
    let words = ["render", "s.avs", "--threads", "2"];
    let gate = Meeting::new();
    let mut files = files_of(alloc, BOTH, &[])?;
    let left = run_together(&rt, alloc, &words, &mut files, 999, &gate)?;
    assert!(rt; left.status == 0 && left.out.bytes() == INTERLEAVED);
    assert_eq!(rt; gate.seen(), 2);
    let meeting = Arc::new(alloc, Meeting::new())?;
    let mut files = PausedFiles {
        files: files_of(alloc, BOTH, &[])?,
        fetched: 0,
        pause: Arc::try_clone(&meeting)?,
    };
    let left = run_together(&rt, alloc, &words, &mut files, 999, &OpenGate)?;
    assert!(rt; left.status == 0 && left.out.bytes() == INTERLEAVED);
    assert_eq!(rt; meeting.seen(), 2);
    Ok(())
}

// All workers that are asked for are at work at once: each waits at its first claim for the others. The gate is passed at each claim
// of the journal, and with each frame that is published.
#[test]
fn all_workers_run_at_once(rt: HostRuntime) -> Result<(), Fail> {
    let alloc = rt.alloc();
    for (threads, size) in [("2", 2), ("4", 4), ("16", 16)] as [(&str, u64); 3] {
        let gate = Crowd::new(size);
        let script = b"BlankClip(length=64, width=16, height=16).Invert";
        let mut files = files_of(alloc, script, &[])?;
        let words = ["render", "s.avs", "--threads", threads];
        let left = run_together(&rt, alloc, &words, &mut files, 99_999, &gate)?;
        assert_eq!(rt; left.status, 0);
        assert_eq!(rt; gate.met(), size);
        let (claimed, published) = count_keys(&left.journal);
        assert_eq!(rt; gate.claimed(), claimed);
        assert_eq!(rt; gate.made(), published);
    }
    Ok(())
}

// Each frame of the source is made once, and rewinds at most once: the fifth rewind and the third fetch would fail.
#[test]
fn each_frame_is_made_by_its_events(rt: HostRuntime) -> Result<(), Fail> {
    let alloc = rt.alloc();
    let script = b"c = Y4MSource(\"m4.y4m\")\nMerge(c, c.Reverse)";
    let mut files = files_of(alloc, script, &[Trip::Rewind { rewinds: 4 }])?;
    files.fail_fetch(3)?;
    let words = ["render", "s.avs", "--threads", "2", "--cache", "256"];
    let left = run_together(&rt, alloc, &words, &mut files, 999, &OpenGate)?;
    let text: &[u8] =
        b"YUV4MPEG2 W1 H1 F25:1 Ip A1:1 Cmono\nFRAME\n\x02FRAME\n\x02FRAME\n\x02FRAME\n\x02";
    assert!(rt; left.status == 0 && left.out.bytes() == text);
    Ok(())
}

// A source of which a read fails at frame 3: one worker writes the windows before that of the frame, and two may come to it in
// an order in which that place isn't read after one rewind.
#[test]
fn a_source_that_fails_ends_a_window(rt: HostRuntime) -> Result<(), Fail> {
    let alloc = rt.alloc();
    for (script, place, put, may_pass) in [
        (b"Y4MSource(\"m4.y4m\").Prefetch(1, 2)", 56, 50, false),
        (b"Y4MSource(\"m4.y4m\").Prefetch(1, 4)", 63, 36, false),
        (b"Y4MSource(\"m4.y4m\").Prefetch(2, 2)", 56, 50, true),
    ] as [(&[u8], u64, usize, bool); 3]
    {
        for piece in [1, 5] {
            let trip = Trip::Read { rewinds: 1, place };
            let mut files = files_in_pieces(alloc, script, &[trip], piece)?;
            let words = ["render", "s.avs"];
            let left = run_together(&rt, alloc, &words, &mut files, 999, &OpenGate)?;
            if left.status == 0 {
                assert!(rt; may_pass && left.out.bytes() == CLIP);
            } else {
                assert_eq!(rt; left.status, 4);
                assert!(rt; left.out.bytes() == &CLIP[..put]);
                assert!(rt; left.err.bytes() == b"read fault\n".as_slice());
            }
            assert_eq!(rt; files.fetched(), files.closed());
        }
    }
    Ok(())
}

// Faults of the source and of the output, with workers at work: the status is that of the fault, or the fault was not met;
// the head and whole windows are written, or a prefix where the output failed; each source is closed.
#[test]
fn faults_end_a_run_of_several(rt: HostRuntime) -> Result<(), Fail> {
    let alloc = rt.alloc();
    let read = |rewinds, place| [Trip::Read { rewinds, place }];
    let back = |rewinds| [Trip::Rewind { rewinds }];
    for (trips, room, status, line) in [
        (&read(1, 56), 999, 4, "read fault\n"),
        (&read(1, 36), 999, 4, "read fault\n"),
        (&read(2, 43), 999, 4, "read fault\n"),
        (&back(0), 999, 4, "read fault\n"),
        (&back(2), 999, 4, "read fault\n"),
        (&[], 36, 5, "write fault\n"),
        (&[], 60, 5, "write fault\n"),
        (&[], 0, 5, "write fault\n"),
    ] as [(&[Trip], usize, u8, &str); 8]
    {
        for threads in ["2", "3", "16"] {
            let mut files = files_of(alloc, BOTH, trips)?;
            let words = ["render", "s.avs", "--threads", threads, "--cache", "2"];
            let left = run_together(&rt, alloc, &words, &mut files, room, &OpenGate)?;
            let whole = left.status == 0 && status == 4;
            assert!(rt; whole || left.status == status, "status {}", left.status);
            assert!(rt; INTERLEAVED.starts_with(left.out.bytes()));
            assert!(rt; !whole || left.out.bytes() == INTERLEAVED);
            assert!(rt; left.err.bytes() == if whole { b"" } else { line.as_bytes() });
            assert_eq!(rt; files.fetched(), files.closed());
        }
    }
    Ok(())
}
