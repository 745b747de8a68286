// Frames, put one after the other.
ghost use Rattle.std.specs.Prelude.{◌≡◌, ◌∷◌, [], OnOk, OnErr};
ghost use Rattle.fv_io.specs.Sink.{PutsPrefix, IsLater, SinkFailed};
ghost use Rattle.prefetch.specs.Windows.{given, pictures_text, PutsPictures};

use fv_io::{Failed, Sink};
use fv_plane::Frame;
use y4m_stream::write_frame;

// Puts a frame where there is one.
fn put_frame<K: Sink>(out: &mut K, frame: &Option<Frame>) -> Result<(), Failed>
    ensures put { OnOk result (PutsPictures K.Sink out.old out.new (given (frame.now ∷ []))) }
    ensures cut { OnErr result (PutsPrefix K.Sink out.old out.new (pictures_text (given (frame.now ∷ [])))) }
    ensures failed { OnErr result (SinkFailed K.Sink out.old out.new) }
    ensures later { IsLater K.Sink out.old out.new }
{
    match frame {
        Some(frame) => write_frame(out, frame),
        None => Ok(()),
    }
}

/// Puts the frames that are there.
pub(crate) fn put_frames<K: Sink>(out: &mut K, frames: &[Option<Frame>]) -> Result<(), Failed>
    ensures put { OnOk result (PutsPictures K.Sink out.old out.new (given frames.now)) }
    ensures cut { OnErr result (PutsPrefix K.Sink out.old out.new (pictures_text (given frames.now))) }
    ensures failed { OnErr result (SinkFailed K.Sink out.old out.new) }
    ensures later { IsLater K.Sink out.old out.new }
{
    for frame in frames {
        match put_frame(out, frame) {
            Ok(()) => {}
            Err(Failed) => return Err(Failed),
        }
    }
    Ok(())
}
