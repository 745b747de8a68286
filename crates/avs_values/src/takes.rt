// What the functions that need no state take.
ghost use Rattle.std.specs.Prelude.{◌≡◌, IfOk, map};
ghost use Rattle.avs_values.specs.Functions as s;
ghost use Rattle.avs_values.specs.Views.{signature_view};

use crate::{Kind, Param, PlainFn, Signature};
use std::alloc::{AllocError, Global};

// Required parameters of these kinds.
fn all_required(alloc: Global, kinds: &[Kind]) -> Result<Vec<Param>, AllocError>
    ensures { IfOk result (λ made. made.items ≡ map s.required kinds.now) }
{
    let mut params = Vec::new(alloc);
    for kind in kinds {
        params.push(Param::required(alloc, *kind)?)?;
    }
    Ok(params)
}

// Required parameters of these kinds, and then a rest.
fn takes(alloc: Global, kinds: &[Kind], rest: Option<Kind>) -> Result<Signature, AllocError>
    ensures { IfOk result (λ made. signature_view made ≡ s.takes kinds.now rest) }
{
    let params = all_required(alloc, kinds)?;
    Ok(Signature {
        params,
        rest,
        least: 0,
    })
}

// Required parameters of these kinds, and then an optional one.
fn takes_optional(
    alloc: Global,
    kinds: &[Kind],
    kind: Kind,
    name: &str,
) -> Result<Signature, AllocError>
    ensures { IfOk result (λ made. signature_view made ≡ s.takes_optional kinds.now kind name.now) }
{
    let mut made = takes(alloc, kinds, None)?;
    made.params.push(Param::optional(alloc, kind, name)?)?;
    Ok(made)
}

/// What a function takes. An `Err` means out of memory.
pub fn signature(alloc: Global, function: PlainFn) -> Result<Signature, AllocError>
    ensures { IfOk result (λ made. signature_view made ≡ s.signature function) }
{
    use Kind::{Bool, Int, Val};
    use PlainFn as F;
    match function {
        F::Abs | F::Sign | F::BitNot | F::Hex | F::Chr => takes(alloc, &[Int], None),
        F::Min | F::Max => takes(alloc, &[Int, Int], Some(Int)),
        F::BitAnd | F::BitOr | F::BitXor => takes(alloc, &[Int, Int], None),
        F::Value | F::HexValue | F::StrLen | F::Ord => takes(alloc, &[Kind::Text], None),
        F::UCase | F::LCase | F::RevStr => takes(alloc, &[Kind::Text], None),
        F::LeftStr | F::RightStr => takes(alloc, &[Kind::Text, Int], None),
        F::MidStr => takes_optional(alloc, &[Kind::Text, Int], Int, "length"),
        F::FindStr => takes(alloc, &[Kind::Text, Kind::Text], None),
        F::Select => takes(alloc, &[Int, Val], Some(Val)),
        F::String | F::Defined => takes(alloc, &[Val], None),
        F::Default => takes(alloc, &[Val, Val], None),
        F::Assert => takes_optional(alloc, &[Bool], Kind::Text, "message"),
        F::IsBool | F::IsInt | F::IsString | F::IsClip => takes(alloc, &[Val], None),
        F::Nop | F::MtNiceFilter | F::MtMultiInstance | F::MtSerialized => takes(alloc, &[], None),
    }
}
