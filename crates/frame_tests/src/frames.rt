// Frames share their bytes, and give them back.
use fv_plane::{Colour, Frame, FrameBuilder, FrameMemory, PixelType, Shape};
use std::test::Fail;

// A share, a window and a flip take no bytes of their own: while one of them is there the frame that it was made from gives no
// memory back, and after that it gives back the memory of the whole planes.
#[test]
fn shares_its_bytes(rt: HostRuntime) -> Result<(), Fail> {
    let alloc = rt.alloc();
    let shape = Shape {
        kind: PixelType::YV12,
        bits: 8,
        width: 4,
        height: 4,
    };
    for way in 0..3 {
        let frame = Frame::blank(alloc, shape, Colour { y: 7, u: 0, v: 0 })?;
        let shared = match way {
            0 => frame.share()?,
            1 => frame.window(2, 2, 2, 2)?,
            _ => frame.flipped()?,
        };
        let FrameMemory { luma, u, v } = frame.into_memory();
        assert!(rt; luma.is_none() && u.is_none() && v.is_none(), "way {way}");
        let FrameMemory { luma, u, v } = shared.into_memory();
        for (plane, size) in [(luma, 16), (u, 4), (v, 4)] {
            assert_eq!(rt; plane.map_or(0, |bytes| bytes.len()), size, "way {way}");
        }
    }
    Ok(())
}

#[test]
fn gives_back_what_it_was_made_of(rt: HostRuntime) -> Result<(), Fail> {
    let alloc = rt.alloc();
    let shape = Shape {
        kind: PixelType::YV12,
        bits: 8,
        width: 2,
        height: 2,
    };
    let bytes = Vec::from_slice(alloc, &[0, 0, 1, 2, 3, 4, 5, 6])?;
    let frame = Frame::from_vec(bytes, 2, shape)?;
    let share = frame.share()?;
    assert!(rt; frame.into_memory().luma.is_none());
    let kept = share.into_memory().luma;
    assert_eq!(rt; kept.map_or(0, |bytes| bytes.len()), 8);
    Ok(())
}

// A flip is a view: it takes no bytes of its own.
#[test]
fn shows_its_bytes_upside_down(rt: HostRuntime) -> Result<(), Fail> {
    let alloc = rt.alloc();
    let shape = Shape {
        kind: PixelType::YV12,
        bits: 8,
        width: 2,
        height: 4,
    };
    let bytes = Vec::from_slice(alloc, &[0, 1, 2, 3, 4, 5, 6, 7, 8, 9, 10, 11, 12])?;
    let frame = Frame::from_vec(bytes, 1, shape)?;
    let turned = frame.flipped()?.flipped()?.flipped()?;
    assert!(rt; frame.into_memory().luma.is_none());
    let kept = turned.into_memory().luma;
    assert_eq!(rt; kept.map_or(0, |bytes| bytes.len()), 13);
    Ok(())
}

// A builder writes into the memory that it is given, where that has room.
#[test]
fn makes_a_frame_in_memory(rt: HostRuntime) -> Result<(), Fail> {
    let alloc = rt.alloc();
    let shape = Shape {
        kind: PixelType::Y8,
        bits: 8,
        width: 4,
        height: 4,
    };
    for (size, is_used) in [(15, false), (16, true), (100, true)] {
        let bytes = vec![in alloc; 255u8; size]?;
        let room = bytes.capacity();
        let memory = FrameMemory {
            luma: Some(bytes),
            u: None,
            v: None,
        };
        let frame = FrameBuilder::new_in(alloc, memory, shape)?.finish()?;
        let kept = frame.into_memory().luma;
        let kept_room = kept.map_or(0, |bytes| bytes.capacity());
        assert_eq!(rt; kept_room == room, is_used, "for {size}");
    }
    Ok(())
}
