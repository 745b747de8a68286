// What `ApplyRange` is given, and the arguments of the function that it calls.
ghost use Rattle.std.specs.Prelude.{◌≡◌, ◌∷◌, map, Ok, Err, IfOk, IfErr};
ghost use Rattle.avs_values.specs.declared.value.Value.TheVariants as v;
ghost use Rattle.avs_meaning.specs.Expressions.{unnamed};
ghost use Rattle.avs_eval.specs.Ranges as g;

use avs_calls::filter_number;
use avs_meaning::ScriptKind;
use avs_values::{Given, Value};
use clip_term::FilterFault;
use fv_io::Text;
use std::alloc::{AllocError, Global};

/// What `ApplyRange` is given: a clip, the first and the last frame of the range, and the name of a function.
#[derive(Clone, Copy)]
pub(crate) struct Range<'v> {
    pub(crate) clip: u32,
    pub(crate) first: i32,
    pub(crate) last: i32,
    pub(crate) name: &'v Text,
}

// A range of these numbers, where filters take both.
fn range_of<'v>(clip: u32, first: i64, last: i64, name: &'v Text) -> Result<Range<'v>, ScriptKind>
    ensures ok { IfOk result (λ range. g.given_of clip first last name.now ≡ Ok (g.given_view range)) }
    ensures err { IfErr result (λ kind. g.given_of clip first last name.now ≡ Err kind) }
{
    match (filter_number(first), filter_number(last)) {
        (Some(first), Some(last)) => Ok(Range {
            clip,
            first,
            last,
            name,
        }),
        _ => Err(ScriptKind::Filter(FilterFault::BadRange)),
    }
}

/// The range that values are, or why they are none.
pub(crate) fn range_in(values: &[Value]) -> Result<Range<'_>, ScriptKind>
    ensures ok { IfOk result (λ range. g.given_in values.now ≡ Ok (g.given_view range)) }
    ensures err { IfErr result (λ kind. g.given_in values.now ≡ Err kind) }
{
    match values {
        [
            Value::Clip(clip),
            Value::Int(first),
            Value::Int(last),
            Value::Text(name),
        ] => range_of(*clip, *first, *last, name),
        _ => Err(ScriptKind::NoMatch),
    }
}

/// A clip and values, as arguments without names. An `Err` is out of memory.
pub(crate) fn positional_args(
    alloc: Global,
    clip: u32,
    values: &[Value],
) -> Result<Vec<Given>, AllocError>
    ensures { IfOk result (λ args. args.items ≡ map unnamed (v.Clip clip ∷ values.now)) }
{
    let mut args = Vec::new(alloc);
    args.push(Given {
        name: None,
        value: Value::Clip(clip),
    })?;
    for value in values {
        args.push(Given {
            name: None,
            value: value.try_clone(alloc)?,
        })?;
    }
    Ok(args)
}
