// Laws of the definitions. Each is the contract of a function with an empty body.
ghost use Rattle.std.specs.Prelude.{◌≡◌, List, ℕ, length, Some};
ghost use Rattle.fv_plane.specs.Picture.{Clip};
ghost use Rattle.y4m_stream.specs.Stream.{Indexed, Indexes};
ghost use Rattle.seq_source.specs.FrameSource.{frames_told};

/// The frames that the bytes of a stream tell by its index are the stream's frames.
pub fn a_stream_has_its_frames()
    ensures { (told : List ℕ) (index : Indexed) (clip : Clip) → Indexes told index clip →
        length index.offsets ≡ index.info.frames → frames_told index (Some told) ≡ Some clip.pictures }
{}
