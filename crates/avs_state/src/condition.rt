// The conditions of `if`, `while` and `? :`, and the operands of `&&` and `||`.
ghost use Rattle.avs_values.specs.Values.{Text as Name};
ghost use Rattle.avs_meaning.specs.Expressions as m;
ghost use Rattle.avs_state.specs.Answers.{Answers};
ghost use Rattle.avs_state.specs.Stops.{in_text, TakesNone};

use crate::Stop;
use avs_meaning::ScriptKind;
use avs_values::Value;

/// Whether a condition, or an operand of `&&` or `||`, holds.
pub fn truth(value: &Value, line: u32) -> Result<bool, Stop>
    ensures told { (here : Name) → Answers (λ holds. holds) (m.truth here line value.now) (in_text here result) }
    ensures memory { TakesNone result }
{
    match value {
        Value::Bool(holds) => Ok(*holds),
        _ => Err(Stop::Fault(ScriptKind::TypeFault, line)),
    }
}
