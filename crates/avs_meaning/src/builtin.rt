// The functions of the language, by name.
ghost use Rattle.std.specs.Prelude.{◌≡◌};
ghost use Rattle.avs_meaning.specs.Table.{clip_fn_name, maker_of, name_of};

use avs_values::PlainFn;
use clip_term::Filter;

/// A function that tells what is known of a clip.
#[derive(Clone, Copy, Debug, PartialEq, Eq)]
pub enum ClipFn {
    Width,
    Height,
    FrameCount,
    FrameRateNumerator,
    FrameRateDenominator,
    IsY8,
    IsYV12,
    IsYV16,
    IsYV24,
    IsYV411,
    PixelType,
    BitsPerComponent,
}

impl ClipFn {
    /// How the function is called in scripts, where case doesn't count.
    pub fn name(self) -> &'static str
        ensures { result.now ≡ clip_fn_name self }
    {
        match self {
            ClipFn::Width => "Width",
            ClipFn::Height => "Height",
            ClipFn::FrameCount => "FrameCount",
            ClipFn::FrameRateNumerator => "FrameRateNumerator",
            ClipFn::FrameRateDenominator => "FrameRateDenominator",
            ClipFn::IsY8 => "IsY8",
            ClipFn::IsYV12 => "IsYV12",
            ClipFn::IsYV16 => "IsYV16",
            ClipFn::IsYV24 => "IsYV24",
            ClipFn::IsYV411 => "IsYV411",
            ClipFn::PixelType => "PixelType",
            ClipFn::BitsPerComponent => "BitsPerComponent",
        }
    }
}

/// A built-in function.
#[derive(Clone, Copy, Debug, PartialEq, Eq)]
pub enum Builtin {
    Plain(PlainFn),
    Clip(ClipFn),
    Eval,
    Import,
    SetFilterMTMode,
    Prefetch,
    /// The one filter that calls a function, and so none of `Filter`.
    ApplyRange,
    Filter(Filter),
}

impl Builtin {
    /// The function that makes the clip of a filter.
    pub fn maker_of(filter: Filter) -> Builtin
        ensures { result ≡ maker_of filter }
    {
        match filter {
            Filter::ApplyRange => Builtin::ApplyRange,
            _ => Builtin::Filter(filter),
        }
    }

    /// How the function is called in scripts, where case doesn't count.
    pub fn name(self) -> &'static str
        ensures { result.now ≡ name_of self }
    {
        match self {
            Builtin::Plain(function) => function.name(),
            Builtin::Clip(function) => function.name(),
            Builtin::Eval => "Eval",
            Builtin::Import => "Import",
            Builtin::SetFilterMTMode => "SetFilterMTMode",
            Builtin::Prefetch => "Prefetch",
            Builtin::ApplyRange => Filter::ApplyRange.name(),
            Builtin::Filter(filter) => filter.name(),
        }
    }
}
