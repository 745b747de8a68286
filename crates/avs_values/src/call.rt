// Calls of the functions that need no state.
ghost use Rattle.std.specs.Prelude.{◌≡◌};
ghost use Rattle.avs_values.specs.Functions.{plain};
ghost use Rattle.avs_values.specs.Values.{Gives};
ghost use Rattle.avs_values.specs.Views.{bound_view};

use crate::{Bound, Kind, PlainFn, Value, ValueFault, any, numbers, texts};
use std::alloc::Global;

/// The value of a function for arguments that `bind` bound to its signature. Arguments of other kinds are `TypeFault`.
pub fn call_plain(alloc: Global, function: PlainFn, mut bound: Bound) -> Result<Value, ValueFault>
    ensures { Gives (plain function (bound_view bound)) result }
{
    if function == PlainFn::Assert {
        return any::assertion(bound.values.as_mut_slice());
    }
    let values = bound.values.as_slice();
    let rest = bound.rest.as_slice();
    match function {
        PlainFn::Abs => numbers::absolute(values),
        PlainFn::Sign => numbers::sign(values),
        PlainFn::Min => numbers::least(values, rest),
        PlainFn::Max => numbers::greatest(values, rest),
        PlainFn::BitAnd => numbers::bit_and(values),
        PlainFn::BitOr => numbers::bit_or(values),
        PlainFn::BitXor => numbers::bit_xor(values),
        PlainFn::BitNot => numbers::bit_not(values),
        PlainFn::Value => numbers::value(values),
        PlainFn::HexValue => numbers::hex_value(values),
        PlainFn::Hex => numbers::hex(alloc, values),
        PlainFn::String => numbers::string(alloc, values),
        PlainFn::StrLen => texts::str_len(values),
        PlainFn::UCase => texts::u_case(alloc, values),
        PlainFn::LCase => texts::l_case(alloc, values),
        PlainFn::RevStr => texts::rev_str(alloc, values),
        PlainFn::LeftStr => texts::left_str(alloc, values),
        PlainFn::RightStr => texts::right_str(alloc, values),
        PlainFn::MidStr => texts::mid_str(alloc, values),
        PlainFn::FindStr => texts::find_str(values),
        PlainFn::Chr => texts::chr(alloc, values),
        PlainFn::Ord => texts::ord(values),
        PlainFn::Select => any::select(alloc, values, rest),
        PlainFn::Defined => any::defined(values),
        PlainFn::Default => any::default(alloc, values),
        PlainFn::Assert => Err(ValueFault::TypeFault),
        PlainFn::IsBool => any::is_of_kind(Kind::Bool, values),
        PlainFn::IsInt => any::is_of_kind(Kind::Int, values),
        PlainFn::IsString => any::is_of_kind(Kind::Text, values),
        PlainFn::IsClip => any::is_of_kind(Kind::Clip, values),
        PlainFn::Nop => Ok(Value::Int(0)),
        PlainFn::MtNiceFilter => Ok(Value::Int(1)),
        PlainFn::MtMultiInstance => Ok(Value::Int(2)),
        PlainFn::MtSerialized => Ok(Value::Int(3)),
    }
}
