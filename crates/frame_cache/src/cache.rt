// Frames by key, the most recently used first.
ghost use Rattle.std.specs.Prelude.{◌≡◌, ◌<◌, ◌≤◌, [], length, option_copied, IfOk, OnOk, OnErr};
ghost use Rattle.std.specs.Map.{keys_of};
ghost use Rattle.frame_cache.specs.Cached.{at_key, fronted, put_first, dropped_key, Differ};

use fv_plane::{Frame, Key};
use lru::LruCache;
use std::alloc::{AllocError, Global};
use std::marker::Model;
use std::num::NonZeroUsize;

/// Frames by key, a bounded number of them. A look-up takes the same time however many there are.
///
/// The cache and its callers share a frame's samples, and no call copies them.
#[derive(Drop)]
pub struct FrameCache {
    alloc: Global,
    frames: LruCache<Key, Frame>,
    // The frame that was dropped last, until it is taken.
    dropped: Option<Frame>,
}

impl Model for FrameCache {
    ghost use Rattle.frame_cache.specs.Cached.{Cached};

    ghost Value = { Cached };

    ghost view = { λ c. record { pairs = c.frames.entries; capacity = c.frames.cap } };
}

impl FrameCache {
    /// An empty cache for at most `capacity` frames. A render takes 1 to 256. An `Err` is out of memory.
    pub fn new(alloc: Global, capacity: u32) -> Result<FrameCache, AllocError>
        requires { 0 < capacity }
        ensures { IfOk result (λ cache. (cache.pairs ≡ []) × (cache.capacity ≡ capacity)) }
    {
        let capacity = NonZeroUsize::new(capacity as usize).unwrap();
        Ok(FrameCache {
            alloc,
            frames: LruCache::new(alloc, capacity)?,
            dropped: None,
        })
    }

    /// How many frames it has.
    pub fn len(&self) -> usize
        ensures len { result ≡ length self.now.pairs }

        // What is true of every cache.
        ensures bounded { length self.now.pairs ≤ self.now.capacity }
        ensures some { 0 < self.now.capacity }
        ensures differ { Differ self.now.pairs }
    {
        self.frames.len()
    }

    /// The frame of the key, shared, or `None` where the key isn't there. A key that is there comes to the front. An
    /// `Err` is more shares of the frame than can be counted, and then the order stays.
    pub fn get(&mut self, key: Key) -> Result<Option<Frame>, AllocError>
        ensures found { IfOk result (λ found. found ≡ at_key key self.old.pairs) }
        ensures pairs { OnOk result (self.new.pairs ≡ fronted key self.old.pairs) }
        ensures err { OnErr result (self.new ≡ self.old) }
        ensures capacity { self.new.capacity ≡ self.old.capacity }
    {
        let found = match self.frames.peek(&key) {
            Some(frame) => frame.share()?,
            None => return Ok(None),
        };
        self.frames.promote(&key);
        Ok(Some(found))
    }

    /// The frame of the key, or `None` where the key isn't there. The order stays.
    pub fn peek(&self, key: Key) -> Option<&Frame>
        ensures { option_copied result ≡ at_key key self.now.pairs }
    {
        self.frames.peek(&key)
    }

    /// The keys, the most recently used first. An `Err` is out of memory.
    pub fn keys(&self) -> Result<Vec<Key>, AllocError>
        ensures { IfOk result (λ keys. keys.items ≡ keys_of self.now.pairs) }
    {
        self.frames.iter().map(|(key, _)| *key).collect(self.alloc)
    }

    /// Puts a frame to the front, under a key that isn't there. A full cache drops its last frame, and answers that
    /// frame's key. An `Err` is out of memory, and then nothing is dropped.
    pub fn put(&mut self, key: Key, frame: Frame) -> Result<Option<Key>, AllocError>
        requires { at_key key self.old.pairs ≡ None }
        ensures dropped { IfOk result (λ dropped. dropped ≡ dropped_key self.old.capacity self.old.pairs) }
        ensures pairs { OnOk result (self.new.pairs ≡ put_first self.old.capacity key frame self.old.pairs) }
        ensures err { OnErr result (self.new ≡ self.old) }
        ensures capacity { self.new.capacity ≡ self.old.capacity }
    {
        match self.frames.push(key, frame) {
            Ok(Some((dropped, frame))) => {
                self.dropped = Some(frame);
                Ok(Some(dropped))
            }
            Ok(None) => Ok(None),
            Err(_) => Err(AllocError),
        }
    }

    /// Hands out the frame that was dropped last, if it wasn't taken yet: its memory may serve for others.
    pub fn take_dropped(&mut self) -> Option<Frame>
        ensures { self.new ≡ self.old }
    {
        self.dropped.take()
    }
}
