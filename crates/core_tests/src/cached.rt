// A cache of two frames, call by call.
use frame_cache::FrameCache;
use fv_plane::{Colour, Frame, Key, PixelType, Shape};
use std::alloc::{AllocError, Global};
use std::test::Fail;

const BLACK: Colour = Colour { y: 0, u: 0, v: 0 };

const FIRST: Key = Key { node: 0, n: 1 };

const SECOND: Key = Key { node: 0, n: 2 };

const THIRD: Key = Key { node: 0, n: 3 };

fn dot(alloc: Global) -> Result<Frame, AllocError> {
    let shape = Shape {
        kind: PixelType::Y8,
        bits: 8,
        width: 1,
        height: 1,
    };
    Frame::blank(alloc, shape, BLACK)
}

#[test]
fn drops_the_least_recently_used(rt: HostRuntime) -> Result<(), Fail> {
    let alloc = rt.alloc();
    let mut cache = FrameCache::new(alloc, 2)?;
    cache.put(FIRST, dot(alloc)?)?;
    cache.put(SECOND, dot(alloc)?)?;
    assert!(rt; cache.get(FIRST)?.is_some());
    assert!(rt; cache.take_dropped().is_none());
    let dropped = cache.put(THIRD, dot(alloc)?)?;
    assert_eq!(rt; dropped, Some(SECOND));
    assert!(rt; cache.take_dropped().is_some());
    assert!(rt; cache.take_dropped().is_none());
    let keys = cache.keys()?;
    assert_eq!(rt; keys.as_slice(), [THIRD, FIRST].as_slice());
    Ok(())
}
