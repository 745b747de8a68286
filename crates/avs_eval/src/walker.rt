// What a run has in one text.
ghost use Rattle.avs_eval.specs.Deeper.{Deeper};
ghost use Rattle.avs_eval.specs.OutsideBy.{context_in};

use avs_expressions::{Callee, Calls, value_of};
use avs_meaning::EvalError;
use avs_state::{Host, RunState, Stop};
use avs_statements::Evaluator;
use avs_tree::{Expr, Statement};
use avs_values::{Given, Value};
use fv_io::Text;
use std::alloc::Global;
use std::marker::PhantomData;

/// What a run has in one text, at one depth of calls.
#[derive_where(Clone, Copy; F)]
pub(crate) struct Walker<'t, H, F> {
    pub(crate) alloc: Global,
    /// The name of the text.
    pub(crate) script_name: &'t Text,
    /// How many calls may still nest.
    pub(crate) depth: u32,
    /// What executes statements one call deeper.
    pub(crate) run: F,
    pub(crate) of: PhantomData<H>,
}

impl<
    't,
    H: Host,
    F: Fn(Global, &mut RunState, &mut H, u32, &Text, &[Statement]) -> Result<Value, EvalError>,
> Calls<H> for Walker<'t, H, F> {
    ghost may = { λ walker. Deeper H.Host walker.depth F.Fn walker.run };

    ghost here = { λ walker. walker.script_name.now };

    ghost context = { λ walker. context_in H.Host walker.depth };

    fn apply(
        &self,
        state: &mut RunState,
        host: &mut H,
        callee: &Callee,
        args: Vec<Given>,
        last: Option<Value>,
        line: u32,
    ) -> Result<Value, Stop> {
        self.call(state, host, callee, args, last, line)
    }
}

impl<
    't,
    H: Host,
    F: Fn(Global, &mut RunState, &mut H, u32, &Text, &[Statement]) -> Result<Value, EvalError>,
> Evaluator<H> for Walker<'t, H, F> {
    ghost may = { λ walker. Deeper H.Host walker.depth F.Fn walker.run };

    ghost here = { λ walker. walker.script_name.now };

    ghost context = { λ walker. context_in H.Host walker.depth };

    fn value_of(&self, state: &mut RunState, host: &mut H, expr: &Expr) -> Result<Value, Stop> {
        value_of(self.alloc, self, state, host, expr)
    }
}
