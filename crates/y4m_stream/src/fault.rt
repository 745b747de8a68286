// `Y4mFault`: what is wrong with a stream; and why it can't be indexed.
use fv_io::Failed;
use std::alloc::{AllocError, AllocFailed};
use thiserror::Error;

/// What is wrong with a stream: the first fault of its head, in the order of the variants, or else the first in its
/// frames, which are counted from 0. The format is that of yuv4mpeg(5) of mjpegtools. The limits on lengths, numbers and
/// counts are this crate's own.
#[derive(Clone, Copy, Debug, PartialEq, Eq, Error)]
pub enum Y4mFault {
    /// It doesn't begin with `YUV4MPEG2` and a space or a newline.
    #[error("the file is no YUV4MPEG2 stream")]
    NotY4m,
    /// The first 4,096 bytes have no newline.
    #[error("the head of the stream is longer than 4096 bytes")]
    HeadTooLong,
    /// The head has no width or no height.
    #[error("the head of the stream gives no width or no height")]
    NoSize,
    /// The value of this parameter is no number, or no pair of numbers, within its bounds.
    #[error("the parameter {0} of the stream's head is no number within its bounds")]
    BadNumber(char),
    /// The chroma has a format that isn't known here.
    #[error("the stream has an unknown colour format")]
    UnknownColour,
    /// A side is 0, above 65,535, or no multiple of the format's subsampling.
    #[error("the stream's width or height can't be had in its colour format")]
    BadSize,
    /// A frame has more than 16,777,216 bytes.
    #[error("a frame of the stream has more than 16777216 bytes")]
    TooLarge,
    /// No frame comes after the head.
    #[error("the stream has no frames")]
    NoFrames,
    /// More than 1,000,000 frames come after the head.
    #[error("the stream has more than 1000000 frames")]
    TooManyFrames,
    /// The bytes where this frame should begin aren't the head of a frame.
    #[error("frame {0} of the stream doesn't begin with a frame's head")]
    BadFrame(u32),
    /// The stream ends inside this frame.
    #[error("the stream ends inside frame {0}")]
    Truncated(u32),
}

impl Y4mFault {
    ghost use Rattle.std.specs.Prelude.{◌≡◌};
    ghost use Rattle.y4m_stream.specs.Stream.{fault_name};

    /// The name of the fault as it is printed, without its letter or number.
    pub fn name(self) -> &'static str
        ensures { result.now ≡ fault_name self }
    {
        match self {
            Y4mFault::NotY4m => "NotY4m",
            Y4mFault::HeadTooLong => "HeadTooLong",
            Y4mFault::NoSize => "NoSize",
            Y4mFault::BadNumber(_) => "BadNumber",
            Y4mFault::UnknownColour => "UnknownColour",
            Y4mFault::BadSize => "BadSize",
            Y4mFault::TooLarge => "TooLarge",
            Y4mFault::NoFrames => "NoFrames",
            Y4mFault::TooManyFrames => "TooManyFrames",
            Y4mFault::BadFrame(_) => "BadFrame",
            Y4mFault::Truncated(_) => "Truncated",
        }
    }
}

/// Why a stream has no index.
#[derive(Clone, Copy, Debug, PartialEq, Eq)]
pub enum IndexFault {
    /// The bytes are no stream.
    Y4m(Y4mFault),
    /// The source failed.
    Read,
    /// Out of memory.
    Memory,
}

impl From<Y4mFault> for IndexFault {
    ghost use Rattle.std.specs.Prelude.{◌≡◌};
    ghost use Rattle.y4m_stream.specs.declared.fault.IndexFault.TheVariants.{Y4m};

    ghost from_gives = { λ fault index_fault. index_fault ≡ Y4m fault };

    fn from(fault: Y4mFault) -> IndexFault {
        IndexFault::Y4m(fault)
    }
}

impl From<Failed> for IndexFault {
    ghost use Rattle.std.specs.Prelude.{◌≡◌};
    ghost use Rattle.y4m_stream.specs.declared.fault.IndexFault.TheVariants.{Read};

    ghost from_gives = { λ _ fault. fault ≡ Read };

    fn from(_: Failed) -> IndexFault {
        IndexFault::Read
    }
}

impl From<AllocError> for IndexFault {
    ghost use Rattle.std.specs.Prelude.{◌≡◌};
    ghost use Rattle.y4m_stream.specs.declared.fault.IndexFault.TheVariants.{Memory};

    ghost from_gives = { λ _ fault. fault ≡ Memory };

    fn from(_: AllocError) -> IndexFault {
        IndexFault::Memory
    }
}

impl<T: Drop> From<AllocFailed<T>> for IndexFault {
    ghost use Rattle.std.specs.Prelude.{◌≡◌};
    ghost use Rattle.y4m_stream.specs.declared.fault.IndexFault.TheVariants.{Memory};

    ghost from_gives = { λ _ fault. fault ≡ Memory };

    fn from(_: AllocFailed<T>) -> IndexFault {
        IndexFault::Memory
    }
}
