// The numbers of `for`, and the conditions of `if` and `while`.
ghost use Rattle.std.specs.Prelude.{◌≡◌, ◌+◌, ◌≤◌, ℤ, ◌+ℤ◌, option_map, OnOk};
ghost use Rattle.avs_tree.specs.Sizes.{size, step_size};
ghost use Rattle.avs_tree.specs.View.{expr_view};
ghost use Rattle.avs_values.specs.Values.{Text as Name};
ghost use Rattle.avs_meaning.specs.Statements as s;
ghost use Rattle.avs_state.specs.Answers.{Answers, Gives};
ghost use Rattle.avs_state.specs.Hosts.{Told};
ghost use Rattle.avs_state.specs.Sources.{sources_of};
ghost use Rattle.avs_state.specs.States.{state_of, AsksNothing};
ghost use Rattle.avs_state.specs.Stops.{in_text, HidesNone, TakesNone};
ghost use Rattle.avs_state.specs.Steps.{Works};
ghost use Rattle.avs_state.specs.Walks.{Keeps, stop_in};

use crate::evaluator::Evaluator;
use crate::executor::Executor;
use avs_meaning::ScriptKind;
use avs_state::{Host, RunState, Stop, truth};
use avs_tree::Expr;
use avs_values::Value;
use fv_io::Text;
use std::alloc::{AllocError, Global};

/// Whether a number is past the end of a loop.
#[tactic(auto, unfolding(avs_meaning::specs::Statements::is_past))]
pub(crate) fn is_past(last: i64, step: i64, i: i64) -> bool
    ensures { result ≡ s.is_past last step i }
{
    if step > 0 { i > last } else { i < last }
}

fn next_number(before: i64, step: i64) -> Option<i64>
    ensures { result ≡ s.next_number (before +ℤ step) }
{
    before.checked_add(step)
}

// The number that the variable of a loop is.
fn number_by(value: Option<&Value>, line: u32) -> Result<i64, Stop>
    ensures told { (here : Name) → Answers (λ n. n) (s.number_by here (option_map (λ value. value.now) value.entry) line) (in_text here result) }
    ensures memory { TakesNone result }
{
    match value {
        Some(Value::Int(n)) => Ok(*n),
        _ => Err(Stop::Fault(ScriptKind::TypeFault, line)),
    }
}

// The variable of a loop, read again after a turn.
fn read_number(alloc: Global, state: &RunState, name: &Text, line: u32) -> Result<i64, Stop>
    ensures gives { (here : Name) → Gives (λ n. n) (s.read_number here name.now line (state_of state.now))
        (in_text here result) (state_of state.now) }
    ensures memory { TakesNone result }
{
    number_by(state.variable(alloc, name.as_str()), line)
}

/// Sets the variable of a loop to the next number. There is none past 64 bits.
pub(crate) fn advance(
    alloc: Global,
    state: &mut RunState,
    name: &Text,
    step: i64,
    line: u32,
) -> Result<Option<i64>, Stop>
    ensures gives { (here : Name) → Gives (λ n. n) (s.advance here name.now step line (state_of state.old))
        (in_text here result) (state_of state.new) }
    ensures memory { (here : Name) → HidesNone (s.advance here name.now step line (state_of state.old)) result }
    ensures asks { AsksNothing state.old state.new }
    ensures sources { OnOk result (sources_of (state_of state.new).plan ≡ sources_of (state_of state.old).plan) }
{
    let before = read_number(alloc, state, name, line)?;
    let Some(next) = next_number(before, step) else {
        return Ok(None);
    };
    state.set(alloc, name, Value::Int(next))?;
    Ok(Some(next))
}

// The first number of a loop, the last, and the step, which is not 0.
fn numbers(first: &Value, last: &Value, step: &Value, line: u32) -> Result<(i64, i64, i64), Stop>
    ensures told { (here : Name) → Answers (λ n. n) (s.numbers here line first.now last.now step.now)
        (in_text here result) }
    ensures memory { TakesNone result }
{
    match (first, last, step) {
        (Value::Int(first), Value::Int(last), Value::Int(step)) => {
            if *step == 0 {
                return Err(Stop::Fault(ScriptKind::BadRange, line));
            }
            Ok((*first, *last, *step))
        }
        _ => Err(Stop::Fault(ScriptKind::TypeFault, line)),
    }
}

impl<'e, H: Host, E: Evaluator<H>> Executor<'e, H, E> {
    /// Whether a condition holds.
    pub(crate) fn condition(
        &self,
        state: &mut RunState,
        host: &mut H,
        e: &Expr,
        line: u32,
    ) -> Result<bool, Stop>
        requires may { E.may self.now.evaluator.now }
        ensures told { Told H.told (λ b. b)
            (s.condition (E.context self.now.evaluator.now) (E.here self.now.evaluator.now) (expr_view e.now) line)
            state.old (in_text (E.here self.now.evaluator.now) result) state.new }
        ensures kept { Keeps H.Host state.old host.old (stop_in (in_text (E.here self.now.evaluator.now) result))
            state.new host.new }
        ensures work { Works (size (expr_view e.now)) state.old state.new }
    {
        let value = self.evaluator.value_of(state, host, e)?;
        truth(&value, line)
    }

    // The step of a loop, which is 1 where none is written.
    fn step_of(
        &self,
        state: &mut RunState,
        host: &mut H,
        step: &Option<Expr>,
    ) -> Result<Value, Stop>
        requires may { E.may self.now.evaluator.now }
        ensures told { Told H.told (λ x. x) (s.step_of (E.context self.now.evaluator.now) (E.here self.now.evaluator.now)
            (option_map expr_view step.now))
            state.old (in_text (E.here self.now.evaluator.now) result) state.new }
        ensures kept { Keeps H.Host state.old host.old (stop_in (in_text (E.here self.now.evaluator.now) result))
            state.new host.new }
        ensures work { Works (step_size (option_map expr_view step.now)) state.old state.new }
    {
        match step {
            Some(e) => self.evaluator.value_of(state, host, e),
            None => Ok(Value::Int(1)),
        }
    }

    /// The first number of a loop, the last, and the step.
    pub(crate) fn bounds(
        &self,
        state: &mut RunState,
        host: &mut H,
        first: &Expr,
        last: &Expr,
        step: &Option<Expr>,
        line: u32,
    ) -> Result<(i64, i64, i64), Stop>
        requires may { E.may self.now.evaluator.now }
        ensures told { Told H.told (λ n. n) (s.bounds (E.context self.now.evaluator.now) (E.here self.now.evaluator.now)
            (expr_view first.now) (expr_view last.now) (option_map expr_view step.now) line)
            state.old (in_text (E.here self.now.evaluator.now) result) state.new }
        ensures kept { Keeps H.Host state.old host.old (stop_in (in_text (E.here self.now.evaluator.now) result))
            state.new host.new }
        ensures work { Works (size (expr_view first.now) + (size (expr_view last.now) + step_size (option_map
            expr_view step.now))) state.old state.new }
    {
        let first = self.evaluator.value_of(state, host, first)?;
        let last = self.evaluator.value_of(state, host, last)?;
        let step = self.step_of(state, host, step)?;
        numbers(&first, &last, &step, line)
    }
}
