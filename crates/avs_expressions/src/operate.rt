// Operators.
ghost use Rattle.std.specs.Prelude.{◌≡◌};
ghost use Rattle.avs_values.specs.Operators as v;
ghost use Rattle.avs_values.specs.Values.{Text as Name};
ghost use Rattle.avs_meaning.specs.Expressions as m;
ghost use Rattle.avs_state.specs.Answers.{Answers};
ghost use Rattle.avs_state.specs.States.{state_of};
ghost use Rattle.avs_state.specs.Stops.{in_text, HidesNone, TakesNone};
ghost use Rattle.avs_state.specs.Walks.{Runs};

use avs_meaning::ScriptKind;
use avs_state::{RunState, Stop, value_fault};
use avs_tree::Operator;
use avs_values::{BinaryOp, UnaryOp, Value, binary, unary};
use clip_term::{Filter, Op, TimeOp};
use std::alloc::Global;

// The operator of numbers, texts and truth values that is written so.
fn binary_of(op: Operator) -> BinaryOp
    ensures { result ≡ m.binary_of op }
{
    match op {
        Operator::Equal => BinaryOp::Equal,
        Operator::NotEqual => BinaryOp::NotEqual,
        Operator::Less => BinaryOp::Less,
        Operator::LessEqual => BinaryOp::LessEqual,
        Operator::Greater => BinaryOp::Greater,
        Operator::GreaterEqual => BinaryOp::GreaterEqual,
        Operator::Minus => BinaryOp::Subtract,
        Operator::Times => BinaryOp::Multiply,
        Operator::Divide => BinaryOp::Divide,
        Operator::Remainder => BinaryOp::Remainder,
        _ => BinaryOp::Add,
    }
}

/// An operator between two values, none of which is a clip that it joins.
pub(crate) fn compared(
    alloc: Global,
    op: Operator,
    left: &Value,
    right: &Value,
    line: u32,
) -> Result<Value, Stop>
    ensures told { (here : Name) → Answers (λ x. x) (m.placed here line (v.binary (m.binary_of op) left.now right.now))
        (in_text here result) }
    ensures memory { (here : Name) → HidesNone (m.placed here line (v.binary (m.binary_of op) left.now right.now)) result }
{
    match binary(alloc, binary_of(op), left, right) {
        Ok(value) => Ok(value),
        Err(fault) => Err(value_fault(fault, line)),
    }
}

/// An operator before a value.
pub(crate) fn prefixed(op: UnaryOp, operand: &Value, line: u32) -> Result<Value, Stop>
    ensures told { (here : Name) → Answers (λ x. x) (m.placed here line (v.unary op operand.now)) (in_text here result) }
    ensures memory { TakesNone result }
{
    match unary(op, operand) {
        Ok(value) => Ok(value),
        Err(fault) => Err(value_fault(fault, line)),
    }
}

/// An operator but `&&` and `||` between two values, clips among them.
pub(crate) fn combined(
    alloc: Global,
    state: &mut RunState,
    op: Operator,
    left: &Value,
    right: &Value,
    line: u32,
) -> Result<Value, Stop>
    ensures runs { (here : Name) → Runs (λ x. x) (m.combined here op line left.now right.now) state.old
        (in_text here result) state.new }
    ensures memory { (here : Name) → HidesNone (m.combined here op line left.now right.now (state_of state.old)) result }
{
    match (op, left, right) {
        (Operator::Plus, Value::Clip(i), Value::Clip(j)) => state.make(
            Filter::UnalignedSplice,
            Op::Time(TimeOp::UnalignedSplice),
            &[*i, *j],
            line,
        ),
        (Operator::PlusPlus, Value::Clip(i), Value::Clip(j)) => state.make(
            Filter::AlignedSplice,
            Op::Time(TimeOp::AlignedSplice),
            &[*i, *j],
            line,
        ),
        (Operator::PlusPlus, _, _) => Err(Stop::Fault(ScriptKind::TypeFault, line)),
        _ => compared(alloc, op, left, right, line),
    }
}
