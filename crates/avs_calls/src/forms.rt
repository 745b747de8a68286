// Forms of signatures.
ghost use Rattle.std.specs.Prelude.{◌≡◌, ◌∷◌, [], IfOk, map};
ghost use Rattle.avs_values.specs.Functions as v;
ghost use Rattle.avs_values.specs.Views.{signature_view};
ghost use Rattle.avs_meaning.specs.Table as d;

use avs_values::{Kind, Param, Signature};
use std::alloc::{AllocError, Global};

/// A signature without a rest.
pub(crate) fn only(params: Vec<Param>) -> Signature
    ensures { signature_view result ≡ d.only params.items }
{
    Signature {
        params,
        rest: None,
        least: 0,
    }
}

pub(crate) fn one(alloc: Global, kind: Kind) -> Result<Signature, AllocError>
    ensures { IfOk result (λ made. signature_view made ≡ d.one kind) }
{
    let mut params = Vec::new(alloc);
    params.push(Param::required(alloc, kind)?)?;
    Ok(only(params))
}

pub(crate) fn two_clips(alloc: Global) -> Result<Signature, AllocError>
    ensures { IfOk result (λ made. signature_view made ≡ d.two_clips) }
{
    let mut params = Vec::new(alloc);
    params.push(Param::required(alloc, Kind::Clip)?)?;
    params.push(Param::required(alloc, Kind::Clip)?)?;
    Ok(only(params))
}

pub(crate) fn three_clips(alloc: Global) -> Result<Signature, AllocError>
    ensures { IfOk result (λ made. signature_view made ≡ d.three_clips) }
{
    let mut taken = two_clips(alloc)?;
    taken.params.push(Param::required(alloc, Kind::Clip)?)?;
    Ok(taken)
}

/// Two clips or more.
pub(crate) fn clips(alloc: Global) -> Result<Signature, AllocError>
    ensures { IfOk result (λ made. signature_view made ≡ d.clips) }
{
    let mut taken = two_clips(alloc)?;
    taken.rest = Some(Kind::Clip);
    Ok(taken)
}

/// A clip, and then so many numbers.
pub(crate) fn clip_and_numbers(alloc: Global, count: usize) -> Result<Vec<Param>, AllocError>
    ensures { IfOk result (λ made. made.items ≡ d.clip_and_numbers count) }
{
    let mut params = Vec::new(alloc);
    params.push(Param::required(alloc, Kind::Clip)?)?;
    for _i in 0..count {
        params.push(Param::required(alloc, Kind::Int)?)?;
    }
    Ok(params)
}

/// A clip, so many numbers, and numbers of these names that a call may leave out.
pub(crate) fn numbered(alloc: Global, count: usize, names: &[&str]) -> Result<Signature, AllocError>
    ensures { IfOk result (λ made. signature_view made ≡ d.only (d.numbered count (map (λ n. n.now) names.now))) }
{
    let mut params = clip_and_numbers(alloc, count)?;
    for name in names {
        params.push(Param::optional(alloc, Kind::Int, name)?)?;
    }
    Ok(only(params))
}

/// A clip, so many numbers, and then at least one more number.
pub(crate) fn listed(alloc: Global, count: usize) -> Result<Signature, AllocError>
    ensures { IfOk result (λ made. signature_view made ≡ d.listed count) }
{
    Ok(Signature {
        params: clip_and_numbers(alloc, count)?,
        rest: Some(Kind::Int),
        least: 1,
    })
}

/// Parameters of these kinds and names, which a call may leave out.
pub(crate) fn options(alloc: Global, table: &[(Kind, &str)]) -> Result<Vec<Param>, AllocError>
    ensures { IfOk result (λ made. made.items ≡ map (λ o. v.optional o.0 o.1.now) table.now) }
{
    let mut params = Vec::new(alloc);
    for (kind, name) in table {
        params.push(Param::optional(alloc, *kind, name)?)?;
    }
    Ok(params)
}

/// What `BlankClip` takes beside its clip.
pub(crate) fn blank_options(alloc: Global) -> Result<Vec<Param>, AllocError>
    ensures { IfOk result (λ made. made.items ≡ d.blank_options) }
{
    let table = [
        (Kind::Int, "length"),
        (Kind::Int, "width"),
        (Kind::Int, "height"),
        (Kind::Text, "pixel_type"),
        (Kind::Int, "fps"),
        (Kind::Int, "fps_denominator"),
        (Kind::Int, "color_yuv"),
    ];
    options(alloc, &table)
}

/// What `ConditionalSelect` takes.
pub(crate) fn select_takes(alloc: Global) -> Result<Signature, AllocError>
    ensures { IfOk result (λ made. signature_view made ≡ d.select) }
{
    let mut params = Vec::new(alloc);
    params.push(Param::required(alloc, Kind::Clip)?)?;
    params.push(Param::required(alloc, Kind::Text)?)?;
    params.push(Param::required(alloc, Kind::Clip)?)?;
    Ok(Signature {
        params,
        rest: Some(Kind::Clip),
        least: 0,
    })
}

/// What `ConditionalFilter` takes.
pub(crate) fn decide_takes(alloc: Global) -> Result<Signature, AllocError>
    ensures { IfOk result (λ made. signature_view made ≡ d.decide) }
{
    let mut taken = three_clips(alloc)?;
    taken.params.push(Param::required(alloc, Kind::Text)?)?;
    taken.params.push(Param::required(alloc, Kind::Text)?)?;
    taken.params.push(Param::required(alloc, Kind::Text)?)?;
    Ok(taken)
}

/// The list of one signature.
pub(crate) fn alone(alloc: Global, signature: Signature) -> Result<Vec<Signature>, AllocError>
    ensures { IfOk result (λ made. made.items ≡ signature ∷ []) }
{
    let mut made = Vec::new(alloc);
    made.push(signature)?;
    Ok(made)
}
