// Spare memory: what is kept, and what it serves for.
use fv_plane::{Colour, Frame, PixelType, Shape};
use fv_spares::Spares;
use std::alloc::{AllocError, Global};
use std::test::Fail;

const GREY: Colour = Colour {
    y: 128,
    u: 128,
    v: 128,
};

const GREY_SHAPE: Shape = Shape {
    kind: PixelType::Y8,
    bits: 8,
    width: 128,
    height: 128,
};

const COLOURED_SHAPE: Shape = Shape {
    kind: PixelType::YV12,
    bits: 8,
    width: 4,
    height: 4,
};

// A frame of 16,384 bytes in one piece.
fn grey(alloc: Global) -> Result<Frame, AllocError> {
    Frame::blank(alloc, GREY_SHAPE, GREY)
}

// A frame with a piece of memory for each plane, of 16, 4 and 4 bytes.
fn coloured(alloc: Global) -> Result<Frame, AllocError> {
    Frame::blank(alloc, COLOURED_SHAPE, GREY)
}

#[test]
fn keeps_what_nothing_shares(rt: HostRuntime) -> Result<(), Fail> {
    let alloc = rt.alloc();
    let mut spares = Spares::new(alloc);
    let frame = grey(alloc)?;
    let share = frame.share()?;
    spares.keep(frame);
    assert_eq!(rt; spares.len(), 0);
    spares.keep(share);
    assert_eq!(rt; spares.len(), 1);
    spares.keep(coloured(alloc)?);
    assert_eq!(rt; spares.len(), 4);
    let frames = vec![in alloc; Some(grey(alloc)?), None, Some(grey(alloc)?)]?;
    spares.keep_all(frames);
    assert_eq!(rt; spares.len(), 6);
    Ok(())
}

#[test]
fn keeps_forty_eight_at_most(rt: HostRuntime) -> Result<(), Fail> {
    let alloc = rt.alloc();
    let mut spares = Spares::new(alloc);
    for _ in 0..20 {
        spares.keep(coloured(alloc)?);
    }
    assert_eq!(rt; spares.len(), 48);
    Ok(())
}

#[test]
fn hands_out_what_serves(rt: HostRuntime) -> Result<(), Fail> {
    let alloc = rt.alloc();
    let mut spares = Spares::new(alloc);
    for (size, serves) in [(16385, false), (16384, true), (8192, true), (8191, false)] {
        spares.keep(grey(alloc)?);
        let kept = spares.len();
        assert_eq!(rt; spares.take(size).is_some(), serves, "for {size}");
        assert_eq!(rt; spares.len() < kept, serves, "for {size}");
    }
    Ok(())
}

#[test]
fn hands_out_planes(rt: HostRuntime) -> Result<(), Fail> {
    let alloc = rt.alloc();
    let mut spares = Spares::new(alloc);
    spares.keep(coloured(alloc)?);
    let planes = [
        (COLOURED_SHAPE, 3, None),
        (GREY_SHAPE, 1, None),
        (COLOURED_SHAPE, 2, Some(4)),
        (GREY_SHAPE, 0, None),
        (COLOURED_SHAPE, 0, Some(16)),
        (COLOURED_SHAPE, 1, Some(4)),
        (COLOURED_SHAPE, 1, None),
    ];
    for (shape, plane, size) in planes {
        let memory = spares.take_plane(shape, plane);
        assert_eq!(rt;
            memory.map(|bytes| bytes.len()),
            size,
            "for plane {plane} of {shape:?}"
        );
    }
    assert_eq!(rt; spares.len(), 0);
    Ok(())
}
