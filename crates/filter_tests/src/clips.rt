// Two clips of one shape, whose samples look random: as the sources of a graph, and as a book.
ghost use Rattle.std.specs.Prelude.{◌≡◌, [], slice_index_or, IfOk};
ghost use Rattle.fv_plane.specs.Picture.{IsClip, IsPicture};
ghost use Rattle.fv_plane.specs.Info.{IsLawful};

use clip_reference::Book;
use fv_plane::{Field, Frame, Info, Par, PixelType, Shape, Tag};
use std::alloc::{AllocError, Global};
use std::process::Abort;

// A clip of five frames of this shape.
pub fn info_of(rt: &impl Abort, kind: PixelType, bits: u8, width: u32, height: u32) -> Info
    ensures { IsLawful result }
{
    let shape = Shape {
        kind,
        bits,
        width,
        height,
    };
    assert!(rt; shape.is_legal(), "{shape:?}");
    Info {
        shape,
        frames: 5,
        num: 25,
        den: 1,
        field: Field::Progressive,
        par: Par { num: 1, den: 1 },
        tag: Tag::Jpeg,
    }
}

// Frame `n` of a clip, by a linear congruential generator (Numerical Recipes, "Random Numbers").
pub fn picture(
    rt: &impl Abort,
    alloc: Global,
    shape: Shape,
    number: u32,
    n: u32,
) -> Result<Frame, AllocError>
    ensures shape { IfOk result (λ frame. frame.shape ≡ shape) }
    ensures whole { IfOk result IsPicture }
{
    assert!(rt; shape.is_legal(), "{shape:?}");
    let mut state = number.wrapping_mul(64).wrapping_add(n);
    state = state.wrapping_mul(2_654_435_761);
    let mut bytes = Vec::new(alloc);
    for _ in 0..shape.bytes() {
        state = state.wrapping_mul(1_664_525).wrapping_add(1_013_904_223);
        bytes.push((state >> 24) as u8)?;
    }
    assert_eq!(rt; bytes.len() as u64, shape.bytes());
    let frame = Frame::from_bytes(alloc, shape, &bytes)?;
    let _ = frame.shape();
    Ok(frame)
}

fn pictures(
    rt: &impl Abort,
    alloc: Global,
    info: Info,
    number: u32,
) -> Result<Vec<Frame>, AllocError>
    requires { IsLawful info }
    ensures { IfOk result (λ frames. IsClip (record { info = info; pictures = frames.items })) }
{
    let mut frames = Vec::new(alloc);
    for n in 0..info.frames {
        frames.push(picture(rt, alloc, info.shape, number, n)?)?;
    }
    Ok(frames)
}

// The frames of the clips.
pub fn book_of(rt: &impl Abort, alloc: Global, info: Info) -> Result<Book, AllocError>
    requires { IsLawful info }
    ensures first { IfOk result (λ book. IsClip (record { info = info; pictures = slice_index_or book 0 [] })) }
    ensures second { IfOk result (λ book. IsClip (record { info = info; pictures = slice_index_or book 1 [] })) }
{
    let first = pictures(rt, alloc, info, 0)?;
    let second = pictures(rt, alloc, info, 1)?;
    let mut book = Book::new(alloc);
    book.add(first)?;
    book.add(second)?;
    Ok(book)
}
