// Why a filter refuses its clips or its arguments.
use thiserror::Error;

/// A refusal of a filter, in the words that a script's author sees.
#[derive(Clone, Copy, Debug, PartialEq, Eq, Error)]
pub enum FilterFault {
    /// A number outside its range.
    #[error("a number is outside its range")]
    BadRange,
    /// A text that is none of those that the filter knows.
    #[error("a text is none of those that the filter knows")]
    BadText,
    /// A clip without frames.
    #[error("the clip has no frames")]
    EmptyClip,
    /// Clips of several formats.
    #[error("the clips have several formats")]
    FormatDiffers,
    /// Clips of several sizes.
    #[error("the clips have several sizes")]
    SizeDiffers,
    /// More than 1,000,000 frames.
    #[error("the clip has more than 1000000 frames")]
    LengthLimit,
    /// A rate with a part above 2,147,483,647 in lowest terms.
    #[error("the rate has a part above 2147483647 in lowest terms")]
    RateLimit,
    /// A size or an offset that cuts a chroma sample.
    #[error("a size or an offset cuts a chroma sample")]
    NotWholeChroma,
    /// A part that is not inside the picture.
    #[error("a part is not inside the picture")]
    OutOfPicture,
    /// A turn of a format whose chroma is not sampled alike in both directions.
    #[error("the clip's chroma is not sampled alike in both directions")]
    TurnFormat,
    /// A clip without chroma.
    #[error("the clip has no chroma")]
    NeedsChroma,
    /// A side over 65,535, or a frame over 16,777,216 bytes.
    #[error("a side is over 65535, or a frame over 16777216 bytes")]
    TooLarge,
    /// Bits of a sample that the filter or the format doesn't take.
    #[error("the filter or the format does not take samples of so many bits")]
    DepthRefused,
}

impl FilterFault {
    ghost use Rattle.std.specs.Prelude.{◌≡◌};
    ghost use Rattle.clip_term.specs.Refusals.{filter_fault_name};

    /// The name of the refusal as it is printed.
    pub fn name(self) -> &'static str
        ensures { result.now ≡ filter_fault_name self }
    {
        match self {
            FilterFault::BadRange => "BadRange",
            FilterFault::BadText => "BadText",
            FilterFault::EmptyClip => "EmptyClip",
            FilterFault::FormatDiffers => "FormatDiffers",
            FilterFault::SizeDiffers => "SizeDiffers",
            FilterFault::LengthLimit => "LengthLimit",
            FilterFault::RateLimit => "RateLimit",
            FilterFault::NotWholeChroma => "NotWholeChroma",
            FilterFault::OutOfPicture => "OutOfPicture",
            FilterFault::TurnFormat => "TurnFormat",
            FilterFault::NeedsChroma => "NeedsChroma",
            FilterFault::TooLarge => "TooLarge",
            FilterFault::DepthRefused => "DepthRefused",
        }
    }
}
