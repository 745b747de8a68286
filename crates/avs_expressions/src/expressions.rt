// The value of an expression: one method for each kind of list that an expression holds.
ghost use Rattle.std.specs.Prelude.{◌≡◌, ◌+◌, ◌≤◌, ◌∷◌, [], map};
ghost use Rattle.avs_tree.specs.Sizes.{size, args_size, method_calls_size, steps_size};
ghost use Rattle.avs_tree.specs.Tree as t;
ghost use Rattle.avs_tree.specs.View.{expr_view, arg_view, method_call_view, step_view, args_of, method_calls_of, steps_of};
ghost use Rattle.avs_meaning.specs.Expressions as m;
ghost use Rattle.avs_state.specs.Hosts.{Told};
ghost use Rattle.avs_state.specs.Steps.{Works, Counted};
ghost use Rattle.avs_state.specs.Stops.{in_text};
ghost use Rattle.avs_state.specs.Walks.{Keeps, stop_in};
ghost use Rattle.avs_expressions.specs.Operands as s;

use crate::calls::Calls;
use crate::evaluation::Evaluation;
use crate::names::called;
use crate::operate::{combined, compared, prefixed};
use avs_state::{Host, RunState, Stop, truth};
use avs_tree::{Arg, DotCall, Expr, Operator, Step};
use avs_values::{Given, UnaryOp, Value};
use fv_io::Text;
use std::alloc::{AllocError, Global};
use std::marker::PhantomData;

impl<'c, H: Host, C: Calls<H>> Evaluation<'c, H, C> {
    // The value of an expression, which is a step.
    #[cycle(expressions)]
    fn value_of(&self, state: &mut RunState, host: &mut H, e: &Expr) -> Result<Value, Stop>
        requires may { C.may self.now.calls.now }
        ensures told { Told H.told (λ v. v)
            (m.value_of (C.context self.now.calls.now) (C.here self.now.calls.now) (expr_view e.now))
            state.old (in_text (C.here self.now.calls.now) result) state.new }
        ensures kept { Keeps H.Host state.old host.old (stop_in (in_text (C.here self.now.calls.now) result))
            state.new host.new }
        ensures counted { Counted state.old state.new }
        ensures work { Works (size (expr_view e.now)) state.old state.new }
    {
        state.step();
        match e {
            Expr::Int(n) => Ok(Value::Int(*n)),
            Expr::Bool(holds) => Ok(Value::Bool(*holds)),
            Expr::Str(text) => Ok(Value::Text(Text::from_str(self.alloc, text.as_str())?)),
            Expr::Name { name, line } => self.named(state, host, name, *line),
            Expr::Call { name, args, line } => self.call(state, host, name, args, *line),
            Expr::Dots { first, calls } => {
                let value = self.value_of(state, host, first)?;
                self.calls_from(state, host, calls, value)
            }
            Expr::Minus { operand, line } => {
                let value = self.value_of(state, host, operand)?;
                prefixed(UnaryOp::Negative, &value, *line)
            }
            Expr::Not { operand, line } => {
                let value = self.value_of(state, host, operand)?;
                prefixed(UnaryOp::Not, &value, *line)
            }
            Expr::Chain { first, rest } => {
                let value = self.value_of(state, host, first)?;
                self.steps_from(state, host, rest, value)
            }
            Expr::Compare {
                op,
                left,
                right,
                line,
            } => {
                let a = self.value_of(state, host, left)?;
                let b = self.value_of(state, host, right)?;
                compared(self.alloc, *op, &a, &b, *line)
            }
            Expr::Pick {
                condition,
                yes,
                no,
                line,
            } => {
                let value = self.value_of(state, host, condition)?;
                if truth(&value, *line)? {
                    self.value_of(state, host, yes)
                } else {
                    self.value_of(state, host, no)
                }
            }
            Expr::Group(inner) => self.value_of(state, host, inner),
        }
    }

    // A call. Its name is looked up before its arguments are evaluated.
    #[cycle(expressions)]
    fn call(
        &self,
        state: &mut RunState,
        host: &mut H,
        name: &Text,
        args: &[Arg],
        line: u32,
    ) -> Result<Value, Stop>
        requires may { C.may self.now.calls.now }
        ensures told { Told H.told (λ v. v) (m.value_of (C.context self.now.calls.now) (C.here self.now.calls.now)
            (t.call name.now (args_of (map arg_view args.now)) line))
            state.old (in_text (C.here self.now.calls.now) result) state.new }
        ensures kept { Keeps H.Host state.old host.old (stop_in (in_text (C.here self.now.calls.now) result))
            state.new host.new }
        ensures work { Works (args_size (args_of (map arg_view args.now))) state.old state.new }
    {
        let callee = called(self.alloc, state, name, line)?;
        let given = self.givens_of(state, host, args, Vec::new(self.alloc))?;
        self.apply_last(state, host, &callee, given, line)
    }

    // Arguments, after those that are there.
    #[cycle(expressions)]
    #[tactic(auto, using(crate::proofs::Rows::args_more, crate::proofs::Rows::args_sizes))]
    fn givens_of(
        &self,
        state: &mut RunState,
        host: &mut H,
        args: &[Arg],
        mut given: Vec<Given>,
    ) -> Result<Vec<Given>, Stop>
        requires may { C.may self.now.calls.now }
        ensures told { Told H.told (λ v. v.items) (m.givens_of (C.context self.now.calls.now) (C.here self.now.calls.now)
            (args_of (map arg_view args.now)) given.items)
            state.old (in_text (C.here self.now.calls.now) result) state.new }
        ensures kept { Keeps H.Host state.old host.old (stop_in (in_text (C.here self.now.calls.now) result))
            state.new host.new }
        ensures work { Works (args_size (args_of (map arg_view args.now))) state.old state.new }
    {
        for arg in args {
            let value = self.value_of(state, host, &arg.value)?;
            let name = match &arg.name {
                Some(name) => Some(Text::from_str(self.alloc, name.as_str())?),
                None => None,
            };
            given.push(Given { name, value })?;
        }
        Ok(given)
    }

    // Method calls, each with the value before it as its first argument.
    #[cycle(expressions)]
    #[tactic(auto, using(crate::proofs::Rows::calls_more, crate::proofs::Rows::calls_fail, crate::proofs::Rows::calls_sizes))]
    fn calls_from(
        &self,
        state: &mut RunState,
        host: &mut H,
        calls: &[DotCall],
        first: Value,
    ) -> Result<Value, Stop>
        requires may { C.may self.now.calls.now }
        ensures told { Told H.told (λ v. v) (m.calls_from (C.context self.now.calls.now) (C.here self.now.calls.now)
            (method_calls_of (map method_call_view calls.now)) first)
            state.old (in_text (C.here self.now.calls.now) result) state.new }
        ensures kept { Keeps H.Host state.old host.old (stop_in (in_text (C.here self.now.calls.now) result))
            state.new host.new }
        ensures work { Works (method_calls_size (method_calls_of (map method_call_view calls.now))) state.old state.new }
    {
        let mut value = first;
        for call in calls {
            value = self.method_call(state, host, call, value)?;
        }
        Ok(value)
    }

    // A method call, which is a step.
    #[cycle(expressions)]
    fn method_call(
        &self,
        state: &mut RunState,
        host: &mut H,
        call: &DotCall,
        first: Value,
    ) -> Result<Value, Stop>
        requires may { C.may self.now.calls.now }
        ensures told { Told H.told (λ v. v) (m.calls_from (C.context self.now.calls.now) (C.here self.now.calls.now)
            (method_calls_of (method_call_view call.now ∷ [])) first)
            state.old (in_text (C.here self.now.calls.now) result) state.new }
        ensures kept { Keeps H.Host state.old host.old (stop_in (in_text (C.here self.now.calls.now) result))
            state.new host.new }
        ensures counted { Counted state.old state.new }
        ensures work { Works (method_calls_size (method_calls_of (method_call_view call.now ∷ []))) state.old state.new }
    {
        state.step();
        let callee = called(self.alloc, state, &call.name, call.line)?;
        let mut given = Vec::new(self.alloc);
        given.push(Given {
            name: None,
            value: first,
        })?;
        match &call.args {
            Some(args) => {
                let given = self.givens_of(state, host, args, given)?;
                self.calls
                    .apply(state, host, &callee, given, None, call.line)
            }
            None => self
                .calls
                .apply(state, host, &callee, given, None, call.line),
        }
    }

    // The operators of a chain, from the left.
    #[cycle(expressions)]
    #[tactic(auto, using(crate::proofs::Rows::steps_more, crate::proofs::Rows::steps_sizes))]
    fn steps_from(
        &self,
        state: &mut RunState,
        host: &mut H,
        steps: &[Step],
        first: Value,
    ) -> Result<Value, Stop>
        requires may { C.may self.now.calls.now }
        ensures told { Told H.told (λ v. v) (m.steps_from (C.context self.now.calls.now) (C.here self.now.calls.now)
            (steps_of (map step_view steps.now)) first)
            state.old (in_text (C.here self.now.calls.now) result) state.new }
        ensures kept { Keeps H.Host state.old host.old (stop_in (in_text (C.here self.now.calls.now) result))
            state.new host.new }
        ensures work { Works (steps_size (steps_of (map step_view steps.now))) state.old state.new }
    {
        let mut value = first;
        for step in steps {
            value = self.joined(state, host, &step.operand, step.op, step.line, value)?;
        }
        Ok(value)
    }

    // A value and an operand, which `&&` and `||` evaluate only where they need it.
    #[cycle(expressions)]
    fn joined(
        &self,
        state: &mut RunState,
        host: &mut H,
        operand: &Expr,
        op: Operator,
        line: u32,
        first: Value,
    ) -> Result<Value, Stop>
        requires may { C.may self.now.calls.now }
        ensures told { Told H.told (λ v. v) (s.joined (C.context self.now.calls.now) (C.here self.now.calls.now) op
            line (expr_view operand.now) first) state.old (in_text (C.here self.now.calls.now) result) state.new }
        ensures kept { Keeps H.Host state.old host.old (stop_in (in_text (C.here self.now.calls.now) result))
            state.new host.new }
        ensures work { Works (size (expr_view operand.now)) state.old state.new }
    {
        match op {
            Operator::Or | Operator::And => {
                let holds = truth(&first, line)?;
                if holds == (op == Operator::Or) {
                    return Ok(Value::Bool(holds));
                }
                self.truth_of(state, host, operand, line)
            }
            _ => {
                let second = self.value_of(state, host, operand)?;
                combined(self.alloc, state, op, &first, &second, line)
            }
        }
    }

    // An operand as a truth value.
    #[cycle(expressions)]
    fn truth_of(
        &self,
        state: &mut RunState,
        host: &mut H,
        operand: &Expr,
        line: u32,
    ) -> Result<Value, Stop>
        requires may { C.may self.now.calls.now }
        ensures told { Told H.told (λ v. v) (s.truth_of (C.context self.now.calls.now)
            (C.here self.now.calls.now) line (expr_view operand.now))
            state.old (in_text (C.here self.now.calls.now) result) state.new }
        ensures kept { Keeps H.Host state.old host.old (stop_in (in_text (C.here self.now.calls.now) result))
            state.new host.new }
        ensures work { Works (size (expr_view operand.now)) state.old state.new }
    {
        let value = self.value_of(state, host, operand)?;
        let holds = truth(&value, line)?;
        Ok(Value::Bool(holds))
    }
}

/// The value of an expression of a text.
pub fn value_of<H: Host, C: Calls<H>>(
    alloc: Global,
    calls: &C,
    state: &mut RunState,
    host: &mut H,
    e: &Expr,
) -> Result<Value, Stop>
    requires may { C.may calls.now }
    ensures told { Told H.told (λ v. v) (m.value_of (C.context calls.now) (C.here calls.now) (expr_view e.now))
        state.old (in_text (C.here calls.now) result) state.new }
    ensures kept { Keeps H.Host state.old host.old (stop_in (in_text (C.here calls.now) result))
        state.new host.new }
    ensures counted { Counted state.old state.new }
    ensures work { Works (size (expr_view e.now)) state.old state.new }
{
    let evaluation = Evaluation {
        alloc,
        calls,
        of: PhantomData,
    };
    evaluation.value_of(state, host, e)
}
