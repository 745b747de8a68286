// The signature that a call's arguments fit, with `last` in front where they fit none as they are.
ghost use Rattle.std.specs.Prelude.{◌≡◌, map, IfOk};
ghost use Rattle.avs_values.specs.Views.{signature_view};
ghost use Rattle.avs_meaning.specs.Expressions as m;
ghost use Rattle.avs_expressions.specs.Views.{fit_view};

use avs_values::{Bound, Given, Signature, Value, bind};
use std::alloc::{AllocError, Global};

// The first signature that the arguments fit, and what they are bound to.
fn fit(
    alloc: Global,
    signatures: &[Signature],
    args: &[Given],
) -> Result<Option<(usize, Bound)>, AllocError>
    ensures { IfOk result (λ found. fit_view found ≡ m.fit 0 (map signature_view signatures.now) args.now) }
{
    for k in 0..signatures.len() {
        if let Some(bound) = bind(alloc, &signatures[k], args)? {
            return Ok(Some((k, bound)));
        }
    }
    Ok(None)
}

/// The first signature that the arguments fit, by its number, and what they are bound to; where they fit none, the same
/// with `last` first, if it is given. An `Err` is out of memory.
pub fn fit_or_last(
    alloc: Global,
    signatures: &[Signature],
    mut args: Vec<Given>,
    last: Option<Value>,
) -> Result<Option<(usize, Bound)>, AllocError>
    ensures { IfOk result (λ found.
        fit_view found ≡ m.fit_or_last (map signature_view signatures.now) args.items last) }
{
    if let Some(found) = fit(alloc, signatures, &args)? {
        return Ok(Some(found));
    }
    let Some(value) = last else {
        return Ok(None);
    };
    args.insert(0, Given { name: None, value })?;
    fit(alloc, signatures, &args)
}
