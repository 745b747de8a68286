// The filters that choose a clip for each frame: their expressions, and the comparison of two.
ghost use Rattle.std.specs.Prelude.{◌≡◌, [], map};
ghost use Rattle.std.specs.Option.{unwrap_or};
ghost use Rattle.avs_meaning.specs.Arguments as a;
ghost use Rattle.avs_parse.specs.Load.{script_of};
ghost use Rattle.avs_runtime.specs.Read as r;
ghost use Rattle.avs_tree.specs.Lexeme.{meaning_in};
ghost use Rattle.avs_calls.specs.Arguments.{MayRead};

use crate::arguments::text_at;
use crate::refused::Refused;
use avs_meaning::ScriptKind;
use avs_runtime::{RunFault, compile};
use avs_tree::meaning;
use avs_values::Value;
use clip_term::{FilterFault, Op, RunCompare, RunExpr, RunOp};
use fv_io::Text;
use fv_plane::Info;
use std::alloc::Global;

const COMPARISONS: [(&str, RunCompare); 6] = [
    ("equals", RunCompare::Equals),
    ("==", RunCompare::Equals),
    ("greaterthan", RunCompare::Greater),
    (">", RunCompare::Greater),
    ("lessthan", RunCompare::Less),
    ("<", RunCompare::Less),
];

// The comparison of this name.
fn comparison(name: &str) -> Option<RunCompare>
    ensures { result ≡ meaning_in a.comparisons name.now }
{
    meaning(&COMPARISONS, name)
}

// The expression that the text at a place is, over the planes of the test clip.
fn expression_at(
    alloc: Global,
    values: &[Value],
    test: &Info,
    place: usize,
) -> Result<RunExpr, RunFault>
    ensures { r.Reads (a.expression_at values.now script_of test.now place) result }
{
    let text = Text::from_str(alloc, text_at(values, place).unwrap_or(""))?;
    compile(alloc, &text, test.shape.kind.planes() != 1)
}

/// What `ConditionalSelect` does with its arguments, where the test clip has this info.
pub(crate) fn choose(alloc: Global, values: &[Value], test: &Info) -> Result<Op, Refused>
    ensures { MayRead (a.chooses (a.expression_at values.now script_of test.now 1)) result }
{
    let expr = expression_at(alloc, values, test, 1)?;
    Ok(Op::Run(RunOp::Select { expr }))
}

/// What `ConditionalFilter` does with its arguments, where the test clip has this info.
pub(crate) fn decide(alloc: Global, values: &[Value], test: &Info) -> Result<Op, Refused>
    ensures { MayRead (a.decides (a.expression_at values.now script_of test.now 3) (a.expression_at values.now script_of test.now 5)
        (meaning_in a.comparisons (unwrap_or (a.text_at values.now 4) []))) result }
{
    let left = expression_at(alloc, values, test, 3)?;
    let right = expression_at(alloc, values, test, 5)?;
    match comparison(text_at(values, 4).unwrap_or("")) {
        Some(op) => Ok(Op::Run(RunOp::Filter { left, op, right })),
        None => Err(Refused::Fault(ScriptKind::Filter(FilterFault::BadText))),
    }
}
