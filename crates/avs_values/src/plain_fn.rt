// The functions that need no state.
ghost use Rattle.std.specs.Prelude.{◌≡◌};
ghost use Rattle.avs_values.specs.Functions.{name};

/// A function of the language that needs no state.
#[derive(Clone, Copy, Debug, PartialEq, Eq)]
pub enum PlainFn {
    Abs,
    Sign,
    Min,
    Max,
    BitAnd,
    BitOr,
    BitXor,
    BitNot,
    Value,
    HexValue,
    Hex,
    String,
    StrLen,
    UCase,
    LCase,
    RevStr,
    LeftStr,
    RightStr,
    MidStr,
    FindStr,
    Chr,
    Ord,
    Select,
    Defined,
    Default,
    Assert,
    IsBool,
    IsInt,
    IsString,
    IsClip,
    Nop,
    MtNiceFilter,
    MtMultiInstance,
    MtSerialized,
}

impl PlainFn {
    /// How the function is called in scripts, where case doesn't count.
    pub fn name(self) -> &'static str
        ensures { result.now ≡ name self }
    {
        match self {
            PlainFn::Abs => "Abs",
            PlainFn::Sign => "Sign",
            PlainFn::Min => "Min",
            PlainFn::Max => "Max",
            PlainFn::BitAnd => "BitAnd",
            PlainFn::BitOr => "BitOr",
            PlainFn::BitXor => "BitXor",
            PlainFn::BitNot => "BitNot",
            PlainFn::Value => "Value",
            PlainFn::HexValue => "HexValue",
            PlainFn::Hex => "Hex",
            PlainFn::String => "String",
            PlainFn::StrLen => "StrLen",
            PlainFn::UCase => "UCase",
            PlainFn::LCase => "LCase",
            PlainFn::RevStr => "RevStr",
            PlainFn::LeftStr => "LeftStr",
            PlainFn::RightStr => "RightStr",
            PlainFn::MidStr => "MidStr",
            PlainFn::FindStr => "FindStr",
            PlainFn::Chr => "Chr",
            PlainFn::Ord => "Ord",
            PlainFn::Select => "Select",
            PlainFn::Defined => "Defined",
            PlainFn::Default => "Default",
            PlainFn::Assert => "Assert",
            PlainFn::IsBool => "IsBool",
            PlainFn::IsInt => "IsInt",
            PlainFn::IsString => "IsString",
            PlainFn::IsClip => "IsClip",
            PlainFn::Nop => "Nop",
            PlainFn::MtNiceFilter => "MT_NICE_FILTER",
            PlainFn::MtMultiInstance => "MT_MULTI_INSTANCE",
            PlainFn::MtSerialized => "MT_SERIALIZED",
        }
    }
}
