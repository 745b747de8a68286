// Names: of what is called, of variables, and of what is called with `last`.
ghost use Rattle.std.specs.Prelude.{◌≡◌};
ghost use Rattle.avs_tree.specs.Tree as t;
ghost use Rattle.avs_values.specs.Values.{Text as Name};
ghost use Rattle.avs_meaning.specs.Expressions as e;
ghost use Rattle.avs_state.specs.Answers.{Gives};
ghost use Rattle.avs_state.specs.Hosts.{Told};
ghost use Rattle.avs_state.specs.States.{state_of};
ghost use Rattle.avs_state.specs.Stops.{in_text, HidesNone};
ghost use Rattle.avs_state.specs.Steps.{Works};
ghost use Rattle.avs_state.specs.Walks.{Keeps, stop_in};
ghost use Rattle.avs_expressions.specs.Views.{callee_view};

use crate::callee::{Callee, callee_of};
use crate::calls::Calls;
use crate::evaluation::Evaluation;
use avs_meaning::ScriptKind;
use avs_state::{Host, RunState, Stop, copy_of};
use avs_values::{Given, Value};
use fv_io::Text;
use std::alloc::{AllocError, Global};

/// What a name calls, at a line.
pub fn called(alloc: Global, state: &RunState, name: &Text, line: u32) -> Result<Callee, Stop>
    ensures gives { (here : Name) → Gives callee_view (e.called here name.now line (state_of state.now))
        (in_text here result) (state_of state.now) }
    ensures memory { (here : Name) → HidesNone (e.called here name.now line (state_of state.now)) result }
{
    match callee_of(alloc, state, name)? {
        Some(callee) => Ok(callee),
        None => Err(Stop::Fault(ScriptKind::UnknownName, line)),
    }
}

impl<'c, H: Host, C: Calls<H>> Evaluation<'c, H, C> {
    /// A call with these arguments, tried again with the variable `last` first, where that is set.
    pub(crate) fn apply_last(
        &self,
        state: &mut RunState,
        host: &mut H,
        callee: &Callee,
        args: Vec<Given>,
        line: u32,
    ) -> Result<Value, Stop>
        requires may { C.may self.now.calls.now }
        ensures told { Told H.told (λ v. v) (e.apply_last (C.context self.now.calls.now) (C.here self.now.calls.now)
            (callee_view callee.now) args.items line)
            state.old (in_text (C.here self.now.calls.now) result) state.new }
        ensures kept { Keeps H.Host state.old host.old (stop_in (in_text (C.here self.now.calls.now) result))
            state.new host.new }
        ensures work { Works 0 state.old state.new }
    {
        let last = copy_of(self.alloc, state.local(self.alloc, "last"))?;
        self.calls.apply(state, host, callee, args, last, line)
    }

    /// A variable, or else a call without arguments.
    pub(crate) fn named(
        &self,
        state: &mut RunState,
        host: &mut H,
        name: &Text,
        line: u32,
    ) -> Result<Value, Stop>
        requires may { C.may self.now.calls.now }
        ensures told { Told H.told (λ v. v) (e.value_of (C.context self.now.calls.now) (C.here self.now.calls.now)
            (t.name name.now line)) state.old (in_text (C.here self.now.calls.now) result) state.new }
        ensures kept { Keeps H.Host state.old host.old (stop_in (in_text (C.here self.now.calls.now) result))
            state.new host.new }
        ensures work { Works 0 state.old state.new }
    {
        if let Some(value) = state.variable(self.alloc, name.as_str()) {
            return Ok(value.try_clone(self.alloc)?);
        }
        let callee = called(self.alloc, state, name, line)?;
        self.apply_last(state, host, &callee, Vec::new(self.alloc), line)
    }
}
