// `Filter`: every filter, with its number, its names, and the mode that it has unless a script sets one.

/// A filter that a script can call.
#[derive(Clone, Copy, Debug, PartialEq, Eq)]
pub enum Filter {
    Y4MSource,
    BlankClip,
    Trim,
    Reverse,
    FreezeFrame,
    SelectEven,
    SelectOdd,
    SelectEvery,
    Interleave,
    UnalignedSplice,
    AlignedSplice,
    Loop,
    DuplicateFrame,
    DeleteFrame,
    AssumeFPS,
    ChangeFPS,
    ApplyRange,
    Crop,
    CropBottom,
    AddBorders,
    LetterBox,
    FlipHorizontal,
    FlipVertical,
    Turn180,
    TurnLeft,
    TurnRight,
    Greyscale,
    Invert,
    Limiter,
    SwapUV,
    UToY8,
    VToY8,
    ConvertToY8,
    StackHorizontal,
    StackVertical,
    Merge,
    MergeLuma,
    MergeChroma,
    YToUV,
    TemporalSoften,
    GeneralConvolution,
    ConvertBits,
    SeparateFields,
    Weave,
    SwapFields,
    AssumeTFF,
    AssumeBFF,
    ComplementParity,
    ConditionalSelect,
    ConditionalFilter,
}

impl Filter {
    ghost use Rattle.std.specs.Prelude.{◌≡◌, IfSome};
    ghost use Rattle.clip_term.specs.Filters.{IsMode, declared_mode, filter_named, has_name, name_of, number_of};

    /// Each filter once. The number of a filter is its place here.
    pub const ALL: [Filter; 50] = [
        Filter::Y4MSource,
        Filter::BlankClip,
        Filter::Trim,
        Filter::Reverse,
        Filter::FreezeFrame,
        Filter::SelectEven,
        Filter::SelectOdd,
        Filter::SelectEvery,
        Filter::Interleave,
        Filter::UnalignedSplice,
        Filter::AlignedSplice,
        Filter::Loop,
        Filter::DuplicateFrame,
        Filter::DeleteFrame,
        Filter::AssumeFPS,
        Filter::ChangeFPS,
        Filter::ApplyRange,
        Filter::Crop,
        Filter::CropBottom,
        Filter::AddBorders,
        Filter::LetterBox,
        Filter::FlipHorizontal,
        Filter::FlipVertical,
        Filter::Turn180,
        Filter::TurnLeft,
        Filter::TurnRight,
        Filter::Greyscale,
        Filter::Invert,
        Filter::Limiter,
        Filter::SwapUV,
        Filter::UToY8,
        Filter::VToY8,
        Filter::ConvertToY8,
        Filter::StackHorizontal,
        Filter::StackVertical,
        Filter::Merge,
        Filter::MergeLuma,
        Filter::MergeChroma,
        Filter::YToUV,
        Filter::TemporalSoften,
        Filter::GeneralConvolution,
        Filter::ConvertBits,
        Filter::SeparateFields,
        Filter::Weave,
        Filter::SwapFields,
        Filter::AssumeTFF,
        Filter::AssumeBFF,
        Filter::ComplementParity,
        Filter::ConditionalSelect,
        Filter::ConditionalFilter,
    ];

    /// The place of the filter in `ALL`.
    pub fn number(self) -> u32
        ensures { result ≡ number_of self }
    {
        self as u32
    }

    /// The name in scripts, as it is written in reports.
    ///
    /// Scripts may write it in any case of letters.
    pub fn name(self) -> &'static str
        ensures { result.now ≡ name_of self }
    {
        match self {
            Filter::Y4MSource => "Y4MSource",
            Filter::BlankClip => "BlankClip",
            Filter::Trim => "Trim",
            Filter::Reverse => "Reverse",
            Filter::FreezeFrame => "FreezeFrame",
            Filter::SelectEven => "SelectEven",
            Filter::SelectOdd => "SelectOdd",
            Filter::SelectEvery => "SelectEvery",
            Filter::Interleave => "Interleave",
            Filter::UnalignedSplice => "UnalignedSplice",
            Filter::AlignedSplice => "AlignedSplice",
            Filter::Loop => "Loop",
            Filter::DuplicateFrame => "DuplicateFrame",
            Filter::DeleteFrame => "DeleteFrame",
            Filter::AssumeFPS => "AssumeFPS",
            Filter::ChangeFPS => "ChangeFPS",
            Filter::ApplyRange => "ApplyRange",
            Filter::Crop => "Crop",
            Filter::CropBottom => "CropBottom",
            Filter::AddBorders => "AddBorders",
            Filter::LetterBox => "LetterBox",
            Filter::FlipHorizontal => "FlipHorizontal",
            Filter::FlipVertical => "FlipVertical",
            Filter::Turn180 => "Turn180",
            Filter::TurnLeft => "TurnLeft",
            Filter::TurnRight => "TurnRight",
            Filter::Greyscale => "Greyscale",
            Filter::Invert => "Invert",
            Filter::Limiter => "Limiter",
            Filter::SwapUV => "SwapUV",
            Filter::UToY8 => "UToY8",
            Filter::VToY8 => "VToY8",
            Filter::ConvertToY8 => "ConvertToY8",
            Filter::StackHorizontal => "StackHorizontal",
            Filter::StackVertical => "StackVertical",
            Filter::Merge => "Merge",
            Filter::MergeLuma => "MergeLuma",
            Filter::MergeChroma => "MergeChroma",
            Filter::YToUV => "YToUV",
            Filter::TemporalSoften => "TemporalSoften",
            Filter::GeneralConvolution => "GeneralConvolution",
            Filter::ConvertBits => "ConvertBits",
            Filter::SeparateFields => "SeparateFields",
            Filter::Weave => "Weave",
            Filter::SwapFields => "SwapFields",
            Filter::AssumeTFF => "AssumeTFF",
            Filter::AssumeBFF => "AssumeBFF",
            Filter::ComplementParity => "ComplementParity",
            Filter::ConditionalSelect => "ConditionalSelect",
            Filter::ConditionalFilter => "ConditionalFilter",
        }
    }

    /// The mode that the filter declares, if it does: 1, 2 or 3, for MT_NICE_FILTER, MT_MULTI_INSTANCE and
    /// MT_SERIALIZED.
    pub fn declared(self) -> Option<u8>
        ensures mode { result ≡ declared_mode self }
        ensures range { IfSome result IsMode }
    {
        match self {
            Filter::Y4MSource => Some(3),
            Filter::TemporalSoften => Some(2),
            Filter::Greyscale | Filter::Invert | Filter::Limiter | Filter::GeneralConvolution =>
                None,
            Filter::BlankClip
            | Filter::Trim
            | Filter::Reverse
            | Filter::FreezeFrame
            | Filter::SelectEven
            | Filter::SelectOdd
            | Filter::SelectEvery
            | Filter::Interleave
            | Filter::UnalignedSplice
            | Filter::AlignedSplice
            | Filter::Loop
            | Filter::DuplicateFrame
            | Filter::DeleteFrame
            | Filter::AssumeFPS
            | Filter::ChangeFPS
            | Filter::ApplyRange
            | Filter::Crop
            | Filter::CropBottom
            | Filter::AddBorders
            | Filter::LetterBox
            | Filter::FlipHorizontal
            | Filter::FlipVertical
            | Filter::Turn180
            | Filter::TurnLeft
            | Filter::TurnRight
            | Filter::SwapUV
            | Filter::UToY8
            | Filter::VToY8
            | Filter::ConvertToY8
            | Filter::StackHorizontal
            | Filter::StackVertical
            | Filter::Merge
            | Filter::MergeLuma
            | Filter::MergeChroma
            | Filter::YToUV
            | Filter::ConvertBits
            | Filter::SeparateFields
            | Filter::Weave
            | Filter::SwapFields
            | Filter::AssumeTFF
            | Filter::AssumeBFF
            | Filter::ComplementParity
            | Filter::ConditionalSelect
            | Filter::ConditionalFilter => Some(1),
        }
    }

    /// Whether this is a name of the filter, in any case of letters.
    pub fn has_name(self, name: &str) -> bool
        ensures { result ≡ has_name name.now self }
    {
        if self == Filter::Greyscale && name.eq_ignore_ascii_case("Grayscale") {
            return true;
        }
        name.eq_ignore_ascii_case(self.name())
    }

    /// The filter of a name, in any case of letters.
    pub fn named(name: &str) -> Option<Filter>
        ensures { result ≡ filter_named name.now }
    {
        Filter::ALL
            .iter()
            .copied()
            .find(|filter| filter.has_name(name))
    }
}
