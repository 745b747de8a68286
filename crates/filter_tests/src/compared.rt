// Frames as the filters make them, compared with the frames of their definitions, sample by sample.
ghost use Rattle.std.specs.Prelude.{◌≡◌, length, IfOk};
ghost use Rattle.fv_plane.specs.Format.{IsLegal};
ghost use Rattle.fv_plane.specs.Info.{IsLawful};
ghost use Rattle.clip_graph.specs.Plan.{application_at, IsKeyBelow};
ghost use Rattle.clip_term.specs.Terms.{term_of, IsSoundTerm};
ghost use Rattle.clip_reference.specs.Sources.{HasSources};

use crate::clips::{book_of, info_of, picture};
use crate::plans::add_row;
use crate::terms::term_of_row;
use clip_check::info;
use clip_frames::input_at;
use clip_graph::Graph;
use clip_reference::{Book, reference_frame};
use clip_term::{Op, Term};
use flt_soft::Scratch;
use fv_plane::{Frame, FrameMemory, Info, Key, PixelType, Shape};
use serve_worker::make_frame;
use std::alloc::{AllocError, Global};
use std::process::Abort;
use std::test::Fail;

// Memory for a plane, of `more` bytes more than it has. All of them are 255.
fn plane_memory(
    alloc: Global,
    shape: Shape,
    plane: u32,
    more: Option<isize>,
) -> Result<Option<Vec<u8>>, AllocError>
    requires { IsLegal shape }
{
    let Some(more) = more else {
        return Ok(None);
    };
    let size = (shape.plane_bytes(plane) as usize).saturating_add_signed(more);
    Ok(Some(vec![in alloc; 255u8; size]?))
}

// Such memory for each plane of a frame. `None` is no memory.
fn memory_for(
    rt: &impl Abort,
    alloc: Global,
    shape: Shape,
    more: Option<isize>,
) -> Result<FrameMemory, AllocError> {
    assert!(rt; shape.is_legal(), "{shape:?}");
    Ok(FrameMemory {
        luma: plane_memory(alloc, shape, 0, more)?,
        u: plane_memory(alloc, shape, 1, more)?,
        v: plane_memory(alloc, shape, 2, more)?,
    })
}

// A frame of a node, by plain recursion. Each filter gets memory by `memory_for`.
fn frame_of(
    rt: &impl Abort,
    alloc: Global,
    graph: &Graph,
    key: Key,
    more: Option<isize>,
    scratch: &mut Scratch,
) -> Result<Frame, AllocError>
    requires { IsKeyBelow graph.now (length graph.now) key }
    ensures { IfOk result (λ frame. frame.shape ≡ (application_at graph.now key.node).info.shape) }
{
    assert!(rt; key.node < graph.len());
    let node = graph.node(key.node);
    if let Op::Source { number, .. } = &node.op {
        return picture(rt, alloc, node.info.shape, *number, key.n);
    }
    let mut frames = Vec::new(alloc);
    let mut i = 0;
    while let Some(input) = input_at(graph, key, i) {
        frames.push(frame_of(rt, alloc, graph, input, more, scratch)?)?;
        assert!(rt; i < 100);
        i += 1;
    }
    let memory = memory_for(rt, alloc, node.info.shape, more)?;
    make_frame(alloc, memory, graph, key, &frames, Some(scratch))
}

// Whether two frames are equal, row by row.
fn are_equal(made: &Frame, want: &Frame) -> bool {
    let shape = want.shape();
    if made.shape() != shape {
        return false;
    }
    for plane in 0..shape.kind.planes() {
        for y in 0..shape.plane_height(plane) {
            if made.row(plane, y) != want.row(plane, y) {
                return false;
            }
        }
    }
    true
}

// Compares all frames of a node with those of a term, whatever memory they are made in.
fn compare_frames(
    rt: &impl Abort,
    alloc: Global,
    graph: &Graph,
    node: u32,
    term: &Term,
    book: &Book,
) -> Result<Info, Fail>
    requires sound { IsSoundTerm (term_of term.now) }
    requires sources { HasSources book.now (term_of term.now) }
{
    let info = info(term)?;
    assert!(rt; node < graph.len());
    assert_eq!(rt; graph.node(node).info, info);
    let mut scratch = Scratch::new(alloc);
    for n in 0..info.frames {
        let want = reference_frame(alloc, term, n, book)?;
        for more in [None, Some(-1), Some(0), Some(100)] {
            let made = frame_of(rt, alloc, graph, Key { node, n }, more, &mut scratch)?;
            assert!(rt; are_equal(&made, &want), "at {n} of {info:?} with {more:?}");
        }
    }
    Ok(info)
}

// Compares the ops of a row over clips with this info.
fn compare(rt: &impl Abort, alloc: Global, info: Info, row: u32) -> Result<Info, Fail>
    requires { IsLawful info }
{
    let book = book_of(rt, alloc, info)?;
    let term = term_of_row(alloc, &book, info, row)?;
    let mut graph = Graph::new(alloc);
    let node = add_row(rt, alloc, &mut graph, info, row)?;
    compare_frames(rt, alloc, &graph, node, &term, &book)
}

// Behind the number of the ops stand the length and the size of what they make.
#[test]
fn makes_the_frames_of_the_definitions(rt: HostRuntime) -> Result<(), Fail> {
    for (kind, bits, width, height, row, frames, wide, high) in [
        (PixelType::YV12, 8, 6, 4, 0, 5, 6, 4),
        (PixelType::YV12, 8, 6, 4, 1, 5, 8, 2),
        (PixelType::YV24, 8, 5, 3, 2, 10, 3, 5),
        (PixelType::Y8, 8, 9, 5, 3, 5, 13, 16),
        (PixelType::YV12, 10, 6, 4, 0, 5, 6, 4),
        (PixelType::YV12, 12, 6, 4, 1, 5, 8, 2),
        (PixelType::YV24, 14, 5, 3, 2, 10, 3, 5),
        (PixelType::Y8, 16, 9, 5, 3, 5, 13, 16),
        (PixelType::YV12, 10, 6, 4, 4, 5, 6, 8),
        (PixelType::YV12, 8, 6, 4, 5, 5, 6, 4),
        (PixelType::YV16, 12, 6, 2, 5, 5, 6, 2),
        (PixelType::Y8, 8, 1, 2, 6, 2, 1, 4),
        (PixelType::YV12, 10, 6, 4, 6, 2, 6, 8),
    ] {
        let clip = info_of(&rt, kind, bits, width, height);
        let made = compare(&rt, rt.alloc(), clip, row)?;
        assert_eq!(rt;
            (made.frames, made.shape.width, made.shape.height),
            (frames, wide, high)
        );
    }
    Ok(())
}
