// The built-in functions by their names.
ghost use Rattle.std.specs.Prelude.{◌≡◌, map};
ghost use Rattle.avs_meaning.specs.Table as d;

use crate::{Builtin, ClipFn};
use avs_values::PlainFn;
use clip_term::Filter;

// Those that need more than a clip's info or a filter.
const CALLING: [Builtin; 4] = [
    Builtin::Eval,
    Builtin::Import,
    Builtin::SetFilterMTMode,
    Builtin::Prefetch,
];

const PLAIN: [Builtin; 46] = [
    Builtin::Clip(ClipFn::Width),
    Builtin::Clip(ClipFn::Height),
    Builtin::Clip(ClipFn::FrameCount),
    Builtin::Clip(ClipFn::FrameRateNumerator),
    Builtin::Clip(ClipFn::FrameRateDenominator),
    Builtin::Clip(ClipFn::IsY8),
    Builtin::Clip(ClipFn::IsYV12),
    Builtin::Clip(ClipFn::IsYV16),
    Builtin::Clip(ClipFn::IsYV24),
    Builtin::Clip(ClipFn::IsYV411),
    Builtin::Clip(ClipFn::PixelType),
    Builtin::Clip(ClipFn::BitsPerComponent),
    Builtin::Plain(PlainFn::Abs),
    Builtin::Plain(PlainFn::Sign),
    Builtin::Plain(PlainFn::Min),
    Builtin::Plain(PlainFn::Max),
    Builtin::Plain(PlainFn::BitAnd),
    Builtin::Plain(PlainFn::BitOr),
    Builtin::Plain(PlainFn::BitXor),
    Builtin::Plain(PlainFn::BitNot),
    Builtin::Plain(PlainFn::Value),
    Builtin::Plain(PlainFn::HexValue),
    Builtin::Plain(PlainFn::Hex),
    Builtin::Plain(PlainFn::String),
    Builtin::Plain(PlainFn::StrLen),
    Builtin::Plain(PlainFn::UCase),
    Builtin::Plain(PlainFn::LCase),
    Builtin::Plain(PlainFn::RevStr),
    Builtin::Plain(PlainFn::LeftStr),
    Builtin::Plain(PlainFn::RightStr),
    Builtin::Plain(PlainFn::MidStr),
    Builtin::Plain(PlainFn::FindStr),
    Builtin::Plain(PlainFn::Chr),
    Builtin::Plain(PlainFn::Ord),
    Builtin::Plain(PlainFn::Select),
    Builtin::Plain(PlainFn::Defined),
    Builtin::Plain(PlainFn::Default),
    Builtin::Plain(PlainFn::Assert),
    Builtin::Plain(PlainFn::IsBool),
    Builtin::Plain(PlainFn::IsInt),
    Builtin::Plain(PlainFn::IsString),
    Builtin::Plain(PlainFn::IsClip),
    Builtin::Plain(PlainFn::Nop),
    Builtin::Plain(PlainFn::MtNiceFilter),
    Builtin::Plain(PlainFn::MtMultiInstance),
    Builtin::Plain(PlainFn::MtSerialized),
];

// Whether a function is that of a name.
fn is_called(builtin: Builtin, name: &str) -> bool
    ensures { result ≡ d.is_called name.now builtin }
{
    match builtin {
        Builtin::Filter(filter) => filter.has_name(name),
        builtin => name.eq_ignore_ascii_case(builtin.name()),
    }
}

// The first function of a name.
fn first_named(builtins: &[Builtin], name: &str) -> Option<Builtin>
    ensures { result ≡ d.builtin_in name.now builtins.now }
{
    for builtin in builtins {
        if is_called(*builtin, name) {
            return Some(*builtin);
        }
    }
    None
}

// The function that makes the first of these filters that has a name.
fn first_filter(filters: &[Filter], name: &str) -> Option<Builtin>
    ensures { result ≡ d.builtin_in name.now (map d.maker_of filters.now) }
{
    for filter in filters {
        let builtin = Builtin::maker_of(*filter);
        if is_called(builtin, name) {
            return Some(builtin);
        }
    }
    None
}

impl Builtin {
    /// The built-in function of a name, where case doesn't count.
    #[tactic(auto, unfolding(crate::specs::Table::builtins, crate::specs::Table::builtin_of))]
    pub fn named(name: &str) -> Option<Builtin>
        ensures { result ≡ d.builtin_of name.now }
    {
        if let Some(builtin) = first_named(&CALLING, name) {
            return Some(builtin);
        }
        if let Some(builtin) = first_filter(&Filter::ALL, name) {
            return Some(builtin);
        }
        first_named(&PLAIN, name)
    }
}
