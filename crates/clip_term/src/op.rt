// The filters with their arguments, as they stand after the defaults were put in.
use crate::{FieldOp, Filter, Numbers, RunOp};
use fv_io::Text;
use fv_plane::{Colour, Info};

/// A frame of an input, by the input's place among the inputs.
#[derive(Clone, Copy, Debug, PartialEq, Eq)]
pub struct Origin {
    pub input: u32,
    pub number: u32,
}

/// Where `Trim` ends, in one of its three spellings.
#[derive(Clone, Copy, Debug, PartialEq, Eq)]
pub enum TrimBound {
    Last(i32),
    Length(i32),
    End(i32),
}

/// The planes that `Invert` names.
#[derive(Clone, Copy, Debug, PartialEq, Eq)]
pub struct Channels {
    pub y: bool,
    pub u: bool,
    pub v: bool,
}

/// A square of weights, 3 by 3 or 5 by 5, by rows.
#[derive(Drop)]
pub struct Matrix {
    pub entries: Numbers,
}

/// Which frames are shown, and how fast.
#[derive(Drop)]
pub enum TimeOp {
    Trim { first: i32, bound: TrimBound },
    Reverse,
    FreezeFrame { first: i32, last: i32, source: i32 },
    SelectEven,
    SelectOdd,
    SelectEvery { step: i32, offsets: Numbers },
    Interleave,
    UnalignedSplice,
    AlignedSplice,
    Loop { times: i32, start: i32, end: i32 },
    DuplicateFrame { frames: Numbers },
    DeleteFrame { frames: Numbers },
    AssumeFPS { num: i32, denominator: i32 },
    ChangeFPS { num: i32, denominator: i32 },
    ApplyRange { first: i32, last: i32 },
}

/// What a picture becomes.
#[derive(Drop)]
pub enum SpaceOp {
    Crop {
        left: i32,
        top: i32,
        width: i32,
        height: i32,
    },
    CropBottom {
        n: i32,
    },
    AddBorders {
        left: i32,
        top: i32,
        right: i32,
        bottom: i32,
        color_yuv: i32,
    },
    LetterBox {
        top: i32,
        bottom: i32,
        x1: i32,
        x2: i32,
        color_yuv: i32,
    },
    FlipHorizontal,
    FlipVertical,
    Turn180,
    TurnLeft,
    TurnRight,
    Greyscale,
    Invert {
        channels: Channels,
    },
    Limiter {
        min_luma: i32,
        max_luma: i32,
        min_chroma: i32,
        max_chroma: i32,
    },
    SwapUV,
    UToY8,
    VToY8,
    ConvertToY8,
    ConvertBits {
        bits: i32,
    },
}

/// What is made of a frame of each clip.
#[derive(Drop)]
pub enum JoinOp {
    StackHorizontal,
    StackVertical,
    Merge,
    MergeLuma,
    MergeChroma,
    YToUV,
}

/// What a sample becomes by its neighbours, in time or in place.
#[derive(Drop)]
pub enum SoftOp {
    TemporalSoften { radius: i32, luma: i32, chroma: i32 },
    GeneralConvolution { bias: i32, matrix: Matrix },
}

/// A source, a clip of one colour, or a filter. The fields are the arguments in the order of the script.
#[derive(Drop)]
pub enum Op {
    /// A file. `number` counts the sources opened before.
    Source { name: Text, number: u32, info: Info },
    /// A clip of one colour.
    Blank { info: Info, colour: Colour },
    Time(TimeOp),
    Space(SpaceOp),
    Join(JoinOp),
    Soft(SoftOp),
    Field(FieldOp),
    Run(RunOp),
}

impl TimeOp {
    ghost use Rattle.std.specs.Prelude.{◌≡◌};
    ghost use Rattle.clip_term.specs.Time.{time_filter};

    fn filter(&self) -> Filter
        ensures { result ≡ time_filter self.now }
    {
        match self {
            TimeOp::Trim { .. } => Filter::Trim,
            TimeOp::Reverse => Filter::Reverse,
            TimeOp::FreezeFrame { .. } => Filter::FreezeFrame,
            TimeOp::SelectEven => Filter::SelectEven,
            TimeOp::SelectOdd => Filter::SelectOdd,
            TimeOp::SelectEvery { .. } => Filter::SelectEvery,
            TimeOp::Interleave => Filter::Interleave,
            TimeOp::UnalignedSplice => Filter::UnalignedSplice,
            TimeOp::AlignedSplice => Filter::AlignedSplice,
            TimeOp::Loop { .. } => Filter::Loop,
            TimeOp::DuplicateFrame { .. } => Filter::DuplicateFrame,
            TimeOp::DeleteFrame { .. } => Filter::DeleteFrame,
            TimeOp::AssumeFPS { .. } => Filter::AssumeFPS,
            TimeOp::ChangeFPS { .. } => Filter::ChangeFPS,
            TimeOp::ApplyRange { .. } => Filter::ApplyRange,
        }
    }
}

impl SpaceOp {
    ghost use Rattle.std.specs.Prelude.{◌≡◌};
    ghost use Rattle.clip_term.specs.Space.{space_filter};

    fn filter(&self) -> Filter
        ensures { result ≡ space_filter self.now }
    {
        match self {
            SpaceOp::Crop { .. } => Filter::Crop,
            SpaceOp::CropBottom { .. } => Filter::CropBottom,
            SpaceOp::AddBorders { .. } => Filter::AddBorders,
            SpaceOp::LetterBox { .. } => Filter::LetterBox,
            SpaceOp::FlipHorizontal => Filter::FlipHorizontal,
            SpaceOp::FlipVertical => Filter::FlipVertical,
            SpaceOp::Turn180 => Filter::Turn180,
            SpaceOp::TurnLeft => Filter::TurnLeft,
            SpaceOp::TurnRight => Filter::TurnRight,
            SpaceOp::Greyscale => Filter::Greyscale,
            SpaceOp::Invert { .. } => Filter::Invert,
            SpaceOp::Limiter { .. } => Filter::Limiter,
            SpaceOp::SwapUV => Filter::SwapUV,
            SpaceOp::UToY8 => Filter::UToY8,
            SpaceOp::VToY8 => Filter::VToY8,
            SpaceOp::ConvertToY8 => Filter::ConvertToY8,
            SpaceOp::ConvertBits { .. } => Filter::ConvertBits,
        }
    }
}

impl JoinOp {
    ghost use Rattle.std.specs.Prelude.{◌≡◌};
    ghost use Rattle.clip_term.specs.Join.{join_filter};

    fn filter(&self) -> Filter
        ensures { result ≡ join_filter self.now }
    {
        match self {
            JoinOp::StackHorizontal => Filter::StackHorizontal,
            JoinOp::StackVertical => Filter::StackVertical,
            JoinOp::Merge => Filter::Merge,
            JoinOp::MergeLuma => Filter::MergeLuma,
            JoinOp::MergeChroma => Filter::MergeChroma,
            JoinOp::YToUV => Filter::YToUV,
        }
    }
}

impl SoftOp {
    ghost use Rattle.std.specs.Prelude.{◌≡◌};
    ghost use Rattle.clip_term.specs.Soft.{soft_filter};

    fn filter(&self) -> Filter
        ensures { result ≡ soft_filter self.now }
    {
        match self {
            SoftOp::TemporalSoften { .. } => Filter::TemporalSoften,
            SoftOp::GeneralConvolution { .. } => Filter::GeneralConvolution,
        }
    }
}

/// The source that an op is.
#[derive(Clone, Copy)]
pub struct SourcePart<'o> {
    /// The name of its file.
    pub name: &'o Text,
    /// How many sources were opened before.
    pub number: u32,
    /// What is known of its clip.
    pub info: Info,
}

impl Op {
    ghost use Rattle.std.specs.Prelude.{◌≡◌, option_map};
    ghost use Rattle.clip_term.specs.Terms.{act_of, filter_of, source_part};

    /// The filter that the op applies.
    pub fn filter(&self) -> Filter
        ensures { result ≡ filter_of (act_of self.now) }
    {
        match self {
            Op::Source { .. } => Filter::Y4MSource,
            Op::Blank { .. } => Filter::BlankClip,
            Op::Time(op) => op.filter(),
            Op::Space(op) => op.filter(),
            Op::Join(op) => op.filter(),
            Op::Soft(op) => op.filter(),
            Op::Field(op) => op.filter(),
            Op::Run(op) => op.filter(),
        }
    }

    /// The source that the op is.
    pub fn source_part(&self) -> Option<SourcePart<'_>>
        ensures { option_map (λ part. record { name = part.name.now; number = part.number; info = part.info }) result
            ≡ source_part (act_of self.now) }
    {
        match self {
            Op::Source { name, number, info } => Some(SourcePart {
                name,
                number: *number,
                info: *info,
            }),
            Op::Blank { .. }
            | Op::Time(_)
            | Op::Space(_)
            | Op::Join(_)
            | Op::Soft(_)
            | Op::Field(_)
            | Op::Run(_) => None,
        }
    }
}
