// The filters, with their bound arguments.
ghost use Rattle.std.specs.Prelude.{◌≡◌, ◌≤◌, OnOk};
ghost use Rattle.avs_values.specs.Values.{Text as Name};
ghost use Rattle.avs_values.specs.Views.{bound_view};
ghost use Rattle.avs_meaning.specs.Arguments as a;
ghost use Rattle.avs_meaning.specs.Table as r;
ghost use Rattle.avs_meaning.specs.Filters as f;
ghost use Rattle.avs_meaning.specs.State.{Outside};
ghost use Rattle.avs_parse.specs.Load.{script_of};
ghost use Rattle.avs_state.specs.Answers.{Gives};
ghost use Rattle.avs_state.specs.Sources.{sources_of};
ghost use Rattle.avs_state.specs.Stops.{in_text, HidesNone};
ghost use Rattle.avs_state.specs.States.{state_of, AsksNothing};
ghost use Rattle.avs_calls.specs.Within.{RunsWithin};

use crate::arguments::{add_clips, all_fit_filters};
use crate::blank::blank;
use crate::read::{op_given, takes};
use crate::refused::Refused;
use avs_meaning::{EvalError, ScriptKind};
use avs_state::{RunState, Stop};
use avs_values::{Bound, Value};
use clip_term::{Filter, FilterFault, Op, TimeOp};
use fv_io::Text;
use fv_plane::Info;
use std::alloc::Global;

// Applies a filter to clips, of which the first has this info.
#[tactic(auto, using(crate::proofs::TakesLemmas::takes_none))]
fn with_info(
    alloc: Global,
    state: &mut RunState,
    filter: Filter,
    given: &Bound,
    inputs: &[u32],
    clip: &Info,
    line: u32,
) -> Result<Value, Stop>
    requires { clip.now.frames ≤ 1000000 }
    ensures { RunsWithin (λ x. x) (λ here. f.applied_by here (r.reading script_of (bound_view given.now) clip.now
        filter) filter inputs.now line) state.old result state.new }
{
    let op = match op_given(alloc, given, clip, filter) {
        Ok(op) => op,
        Err(Refused::Fault(kind)) => return Err(Stop::Fault(kind, line)),
        Err(Refused::Memory) => return Err(Stop::Whole(EvalError::Memory)),
    };
    if !takes(&op, inputs.len()) {
        return Err(Stop::Fault(ScriptKind::NoMatch, line));
    }
    state.make(filter, op, inputs, line)
}

// Applies a filter but a source to the clips among its arguments.
fn on_clips(
    alloc: Global,
    state: &mut RunState,
    filter: Filter,
    given: &Bound,
    line: u32,
) -> Result<Value, Stop>
    ensures { RunsWithin (λ x. x) (λ here. f.applied here script_of filter (bound_view given.now) (a.clips_given
        (bound_view given.now)) line) state.old result state.new }
{
    let mut inputs = Vec::new(alloc);
    add_clips(&mut inputs, &given.values)?;
    add_clips(&mut inputs, &given.rest)?;
    let Some(first) = inputs.first() else {
        return Err(Stop::Fault(ScriptKind::NoMatch, line));
    };
    let info = state.info_of(*first, line)?;
    with_info(alloc, state, filter, given, &inputs, &info, line)
}

/// Applies a filter but `Y4MSource`, whose arguments are bound by the signature of this number.
pub fn apply_filter(
    alloc: Global,
    state: &mut RunState,
    filter: Filter,
    signature: usize,
    given: &Bound,
    line: u32,
) -> Result<Value, Stop>
    requires { filter ≡ Filter.Y4MSource → ⊥ }
    ensures gives { (here : Name) (outside : Outside) → outside.trees ≡ script_of → Gives (λ x. x)
        (f.filtered here outside filter signature (bound_view given.now) line (state_of state.old))
        (in_text here result) (state_of state.new) }
    ensures asks { AsksNothing state.old state.new }
    ensures sources { OnOk result (sources_of (state_of state.new).plan ≡ sources_of (state_of state.old).plan) }
{
    if let Filter::BlankClip = filter {
        if !all_fit_filters(&given.values) {
            return Err(Stop::Fault(ScriptKind::Filter(FilterFault::BadRange), line));
        }
        return blank(state, signature, &given.values, line);
    }
    on_clips(alloc, state, filter, given, line)
}

/// What `ApplyRange` makes of a clip and of what its function gave: that in a range of frames, and the clip elsewhere.
pub fn ranged(
    state: &mut RunState,
    clip: u32,
    first: i32,
    last: i32,
    shown: &Value,
    line: u32,
) -> Result<Value, Stop>
    ensures runs { RunsWithin (λ x. x) (λ here. f.ranged here clip first last line shown.now)
        state.old result state.new }
    ensures memory { (here : Name) → HidesNone (f.ranged here clip first last line shown.now (state_of state.old)) result }
{
    match shown {
        Value::Clip(shown) => state.make(
            Filter::ApplyRange,
            Op::Time(TimeOp::ApplyRange { first, last }),
            &[clip, *shown],
            line,
        ),
        _ => Err(Stop::Fault(ScriptKind::TypeFault, line)),
    }
}
