// Journals of a source of four frames.
ghost use Rattle.fv_plane.specs.Info.{IsLawful};

use clip_graph::Graph;
use clip_term::Op;
use fv_io::Text;
use fv_plane::{Field, Info, Par, PixelType, Shape, Tag};
use run_check::{Verdict, check_journal};
use std::alloc::Global;
use std::test::Fail;

// A clip of four frames of one sample.
const DOTS: Info = Info {
    shape: Shape {
        kind: PixelType::Y8,
        bits: 8,
        width: 1,
        height: 1,
    },
    frames: 4,
    num: 25,
    den: 1,
    field: Field::Progressive,
    par: Par { num: 1, den: 1 },
    tag: Tag::Jpeg,
};

fn over_a_source(alloc: Global, info: Info) -> Result<Graph, Fail>
    requires { IsLawful info }
{
    let mut graph = Graph::new(alloc);
    let name = Text::from_str(alloc, "clip.y4m")?;
    let number = 0;
    graph.add(Op::Source { name, number, info }, &[], info, 3)?;
    Ok(graph)
}

// A window of output 0 by the first of two workers.
const FIRST: &[u8] =
    b"workers 2\nwindow 0 1\ntake 0 0\nclaim 0 0 0\nenter 0 0 0\nleave 0 0 0\npublish 0 0 0\ndeliver 0 0\n";

// The same without its Enter.
const WITHOUT_ENTER: &[u8] =
    b"workers 2\nwindow 0 1\ntake 0 0\nclaim 0 0 0\nleave 0 0 0\npublish 0 0 0\ndeliver 0 0\n";

// And without its last newline.
const CUT: &[u8] =
    b"workers 2\nwindow 0 1\ntake 0 0\nclaim 0 0 0\nenter 0 0 0\nleave 0 0 0\npublish 0 0 0\ndeliver 0 0";

// Two windows after it, in a cache of one frame, by the other worker.
const MORE: &[u8] =
    b"window 1 1\ntake 1 1\nclaim 1 0 1\nenter 1 0 0\nleave 1 0 0\nevict 1 0 0\npublish 1 0 1\ndeliver 1 1\nwindow 0 1\ntake 1 0\nclaim 1 0 0\nenter 1 0 0\nleave 1 0 0\nevict 1 0 1\npublish 1 0 0\ndeliver 1 0\n";

#[test]
fn accepts_what_a_render_prints(rt: HostRuntime) -> Result<(), Fail> {
    let alloc = rt.alloc();
    let graph = over_a_source(alloc, DOTS)?;
    assert!(rt; 0 < graph.len());
    let mut text = FIRST.to_vec(alloc)?;
    for _ in 0..1000 {
        text.extend_from_slice(MORE)?;
    }
    assert_eq!(rt;
        check_journal(alloc, &graph, 0, 64, b"workers 16\n")?,
        Verdict::Yes
    );
    assert_eq!(rt; check_journal(alloc, &graph, 0, 64, FIRST)?, Verdict::Yes);
    assert_eq!(rt; check_journal(alloc, &graph, 0, 1, &text)?, Verdict::Yes);
    Ok(())
}

#[test]
fn names_the_first_wrong_line(rt: HostRuntime) -> Result<(), Fail> {
    let alloc = rt.alloc();
    let graph = over_a_source(alloc, DOTS)?;
    assert!(rt; 0 < graph.len());
    let mut text = FIRST.to_vec(alloc)?;
    text.extend_from_slice(MORE)?;
    assert_eq!(rt;
        check_journal(alloc, &graph, 0, 64, b"")?,
        Verdict::No { line: 1 }
    );
    assert_eq!(rt;
        check_journal(alloc, &graph, 0, 64, b"workers 17\n")?,
        Verdict::No { line: 1 }
    );
    assert_eq!(rt;
        check_journal(alloc, &graph, 0, 64, WITHOUT_ENTER)?,
        Verdict::No { line: 5 }
    );
    assert_eq!(rt;
        check_journal(alloc, &graph, 0, 64, CUT)?,
        Verdict::No { line: 8 }
    );
    // There is room for two frames, so none may be evicted yet.
    assert_eq!(rt;
        check_journal(alloc, &graph, 0, 2, &text)?,
        Verdict::No { line: 14 }
    );
    Ok(())
}
