// The functions that need no state.
ghost use Rattle.avs_values.specs.Functions as p;
ghost use Rattle.avs_values.specs.Values.{Text as Name};
ghost use Rattle.avs_values.specs.Views.{bound_view};
ghost use Rattle.avs_meaning.specs.Expressions as m;
ghost use Rattle.avs_state.specs.Answers.{Answers};
ghost use Rattle.avs_state.specs.Stops.{in_text, HidesNone};

use avs_state::{Stop, value_fault};
use avs_values::{Bound, PlainFn, Value, call_plain};
use fv_io::Text;
use std::alloc::Global;

/// The value of a function that needs no state, for arguments that are bound.
pub fn plain(alloc: Global, function: PlainFn, given: Bound, line: u32) -> Result<Value, Stop>
    ensures told { (here : Name) → Answers (λ x. x) (m.placed here line (p.plain function (bound_view given)))
        (in_text here result) }
    ensures memory { (here : Name) → HidesNone (m.placed here line (p.plain function (bound_view given))) result }
{
    match call_plain(alloc, function, given) {
        Ok(value) => Ok(value),
        Err(fault) => Err(value_fault(fault, line)),
    }
}
