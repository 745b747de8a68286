// What the caller of a crew does before it works.
ghost use Rattle.std.specs.Prelude.{◌≡◌};
ghost use Rattle.prefetch.specs.Windows.{PutsFrames};

use crate::frames::put_frames;
use fv_io::{Failed, Sink};
use fv_plane::Frame;

/// Something to be done in the caller's thread. A crew has it as a value of a type parameter, since `thread::join` says
/// nothing of a `&mut` that a closure holds.
pub(crate) trait Chore: Drop {
    type Output;

    ghost gives: { Self → Self.Output → Type 0 };

    fn run(self) -> Self::Output
        ensures { gives self result };
}

/// Puts these frames, and gives them back with the sink.
#[derive(Drop)]
pub(crate) struct PutFrames<'a, K> {
    pub(crate) out: &'a mut K,
    pub(crate) frames: Vec<Option<Frame>>,
}

impl<'a, K: Sink> Chore for PutFrames<'a, K> {
    type Output = (&'a mut K, Vec<Option<Frame>>, Result<(), Failed>);

    ghost gives = { λ p r. (r.0.ghost_name ≡ p.out.ghost_name)
        × PutsFrames K.Sink p.out.now r.0.now p.frames.items r.2 };

    fn run(self) -> (&'a mut K, Vec<Option<Frame>>, Result<(), Failed>) {
        let PutFrames { out, frames } = self;
        let ended = put_frames(out, &frames);
        (out, frames, ended)
    }
}
