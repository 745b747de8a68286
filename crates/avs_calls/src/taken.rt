// What each built-in function takes.
ghost use Rattle.std.specs.Prelude.{◌≡◌, map, IfOk};
ghost use Rattle.avs_values.specs.Views.{signature_view};
ghost use Rattle.avs_meaning.specs.Table as d;
ghost use Rattle.avs_meaning.specs.Table.{signatures as taken};

use crate::filter_rows::filter_signatures;
use crate::forms::{alone, clip_and_numbers, numbered, one, only};
use avs_meaning::Builtin;
use avs_values::{Kind, Param, Signature, signature};
use std::alloc::{AllocError, Global};

// What `ApplyRange` takes.
fn apply_range(alloc: Global) -> Result<Signature, AllocError>
    ensures { IfOk result (λ made. signature_view made ≡ d.apply_range) }
{
    let mut params = clip_and_numbers(alloc, 2)?;
    params.push(Param::required(alloc, Kind::Text)?)?;
    Ok(Signature {
        params,
        rest: Some(Kind::Val),
        least: 0,
    })
}

// What `SetFilterMTMode` takes.
fn set_mode(alloc: Global) -> Result<Signature, AllocError>
    ensures { IfOk result (λ made. signature_view made ≡ d.set_mode) }
{
    let mut params = Vec::new(alloc);
    params.push(Param::required(alloc, Kind::Text)?)?;
    params.push(Param::required(alloc, Kind::Int)?)?;
    params.push(Param::optional(alloc, Kind::Bool, "force")?)?;
    Ok(only(params))
}

// What `Prefetch` takes.
fn prefetch(alloc: Global) -> Result<Signature, AllocError>
    ensures { IfOk result (λ made. signature_view made ≡ d.prefetch) }
{
    numbered(alloc, 1, &["frames"])
}

/// What a built-in function takes. The first signature that fits counts. An `Err` means out of memory.
pub fn signatures(alloc: Global, builtin: Builtin) -> Result<Vec<Signature>, AllocError>
    ensures { IfOk result (λ made. map signature_view made.items ≡ taken builtin) }
{
    match builtin {
        Builtin::Plain(function) => alone(alloc, signature(alloc, function)?),
        Builtin::Clip(_) => alone(alloc, one(alloc, Kind::Clip)?),
        Builtin::Eval | Builtin::Import => alone(alloc, one(alloc, Kind::Text)?),
        Builtin::SetFilterMTMode => alone(alloc, set_mode(alloc)?),
        Builtin::Prefetch => alone(alloc, prefetch(alloc)?),
        Builtin::ApplyRange => alone(alloc, apply_range(alloc)?),
        Builtin::Filter(filter) => filter_signatures(alloc, filter),
    }
}
