// The journal of a render, and its report.
use crate::runs::{AGAIN, COPY, TWICE, files_of, run, start};
use fv_io::Trip;
use fv_plane::Key;
use serve_app::Event;
use serve_machine::WindowStop;
use std::test::Fail;

// The frame of a source, and the frame that is made of it.
const INPUT: Key = Key { node: 0, n: 2 };

const OUTPUT: Key = Key { node: 1, n: 0 };

// The input is made and the output after it. In a cache of one frame the input goes from it first. Where the source fails
// inside the input, both claims are given up.
#[test]
fn a_render_leaves_its_journal(rt: HostRuntime) -> Result<(), Fail> {
    let alloc = rt.alloc();
    let (worker, node, instance) = (0, 0, 0);
    let (key, stop) = (INPUT, WindowStop::Read { node });
    let opening = [
        Event::Take { worker, n: 0 },
        Event::Claim {
            worker,
            key: OUTPUT,
        },
        Event::Claim { worker, key },
        Event::Enter {
            worker,
            node,
            instance,
        },
        Event::Leave {
            worker,
            node,
            instance,
        },
    ];
    let made = Event::Publish { worker, key };
    let evicted = Event::Evict { worker, key };
    let answered = Event::Publish {
        worker,
        key: OUTPUT,
    };
    let delivered = Event::Deliver { worker, n: 0 };
    let given_up = [
        Event::Abandon { worker, key },
        Event::Abandon {
            worker,
            key: OUTPUT,
        },
        Event::Fail { worker, stop },
    ];
    let trip = Trip::Read {
        rewinds: 1,
        place: 56,
    };
    for (trips, cache, status, closing) in [
        (&[], "64", 0, &[made, answered, delivered]),
        (&[], "1", 0, &[made, evicted, answered, delivered]),
        (&[trip], "64", 4, &given_up),
    ] as [(&[Trip], &str, u8, &[Event]); 3]
    {
        let script = b"Y4MSource(\"m4.y4m\").Trim(2, 2)";
        let mut files = files_of(alloc, script, trips)?;
        let words = ["render", "--cache", cache, "s.avs"];
        let (ending, _, _) = run(alloc, &words, &mut files, (99, 99))?;
        assert_eq!(rt; ending.status, status);
        let Some(journal) = &ending.journal else {
            return Err(Fail::from("no journal"));
        };
        let [window] = journal.windows.as_slice() else {
            return Err(Fail::from("no single window"));
        };
        assert_eq!(rt; (window.first, window.count), (0, 1));
        assert!(rt; window.events.starts_with(&opening));
        assert!(rt; window.events.ends_with(closing));
        assert_eq!(rt; window.events.len(), opening.len() + closing.len());
    }
    Ok(())
}

// The report comes after the whole text. Where there is no room for it the status is 5; where a render ends early there is
// none.
#[test]
fn a_render_tells_its_report(rt: HostRuntime) -> Result<(), Fail> {
    let alloc = rt.alloc();
    let large =
        "0 Y4MSource made 4 hit 4 evicted 0 entered 4\n1 Reverse made 4 hit 0 evicted 0 entered 0\n\
        2 Merge made 4 hit 0 evicted 0 entered 0\n";
    let small =
        "0 Y4MSource made 8 hit 0 evicted 8 entered 8\n1 Reverse made 4 hit 0 evicted 4 entered 0\n\
        2 Merge made 4 hit 0 evicted 3 entered 0\n";
    for (cache, room, status, line) in [
        ("256", (99, 999), 0, large),
        ("1", (99, 999), 0, small),
        ("1", (99, 60), 5, small),
        ("1", (99, 0), 5, small),
        ("1", (60, 999), 5, "write fault\n"),
    ] {
        let mut files = files_of(alloc, TWICE, &[])?;
        let words = ["render", "--report", "--cache", cache, "s.avs"];
        let (ending, out, err) = run(alloc, &words, &mut files, room)?;
        assert_eq!(rt; ending.status, status);
        assert!(rt; out.bytes() == start(AGAIN, room.0));
        assert!(rt; err.bytes() == start(line.as_bytes(), room.1));
    }
    Ok(())
}

// A script without a clip has no journal, and one whose head isn't put.
#[test]
fn what_isnt_rendered_has_no_journal(rt: HostRuntime) -> Result<(), Fail> {
    let alloc = rt.alloc();
    for (script, room) in [(b"1".as_slice(), 99), (COPY, 20)] {
        let mut files = files_of(alloc, script, &[])?;
        let (ending, _, _) = run(alloc, &["render", "s.avs"], &mut files, (room, 99))?;
        assert!(rt; ending.journal.is_none());
    }
    Ok(())
}
