// The execution of statements and blocks: assignments, `return`, `if`, `while` and `for`.
ghost use Rattle.std.specs.Prelude.{◌+◌, ◌≤◌, map, option_map};
ghost use Rattle.avs_tree.specs.Sizes.{size, step_size, arms_size, IsShort, ArmsAreShort, AreShort};
ghost use Rattle.avs_tree.specs.Tree as t;
ghost use Rattle.avs_tree.specs.View.{expr_view, arm_view, statement_view, kind_view, block_view, arms_of};
ghost use Rattle.avs_meaning.specs.Statements as m;
ghost use Rattle.avs_state.specs.Answers.{Gives};
ghost use Rattle.avs_state.specs.Hosts.{Told};
ghost use Rattle.avs_state.specs.States.{state_of};
ghost use Rattle.avs_statements.specs.Flows.{flow_view, turn_view};
ghost use Rattle.avs_statements.specs.Turns as r;
ghost use Rattle.avs_state.specs.Steps.{Works};
ghost use Rattle.avs_state.specs.Stops.{in_text};
ghost use Rattle.avs_state.specs.Units.{steps_a_unit};
ghost use Rattle.avs_state.specs.Walks.{Keeps, Runs, stop_in};

use crate::evaluator::Evaluator;
use crate::executor::Executor;
use crate::flow::{Counter, Flow, Turn};
use crate::loops::{advance, is_past};
use avs_meaning::{EvalError, ScriptKind};
use avs_state::{Host, RunState, Stop};
use avs_tree::{Arm, Expr, Statement, StatementKind};
use avs_values::Value;
use fv_io::Text;
use std::alloc::{AllocError, Global};
use std::marker::PhantomData;

// A clip becomes `last`.
fn sets_last(alloc: Global, state: &mut RunState, value: Value) -> Result<Flow, EvalError>
    ensures { Runs flow_view (m.sets_last value) state.old result state.new }
{
    if let Value::Clip(i) = value {
        let name = Text::from_str(alloc, "last")?;
        state.set(alloc, &name, Value::Clip(i))?;
        return Ok(Flow::On(Value::Clip(i)));
    }
    Ok(Flow::On(value))
}

// The value of the final statement, or else `last`.
fn settled(alloc: Global, state: &RunState, value: Value) -> Result<Value, EvalError>
    ensures { Gives (λ x. x) (m.settled value (state_of state.now)) result (state_of state.now) }
{
    if !value.is_undefined() {
        return Ok(value);
    }
    match state.local(alloc, "last") {
        Some(value) => Ok(value.try_clone(alloc)?),
        None => Ok(Value::Undefined),
    }
}

impl<'e, H: Host, E: Evaluator<H>> Executor<'e, H, E> {
    #[cycle(statements)]
    #[tactic(auto, using(crate::proofs::Rows::trees))]
    fn effect_of(
        &self,
        state: &mut RunState,
        host: &mut H,
        kind: &StatementKind,
        line: u32,
    ) -> Result<Flow, Stop>
        requires may { E.may self.now.evaluator.now }
        requires short { IsShort steps_a_unit (kind_view kind.now) }
        ensures told { Told H.told flow_view (m.effect_of (E.context self.now.evaluator.now) (E.here self.now.evaluator.now)
            (kind_view kind.now) line)
            state.old (in_text (E.here self.now.evaluator.now) result) state.new }
        ensures kept { Keeps H.Host state.old host.old (stop_in (in_text (E.here self.now.evaluator.now) result))
            state.new host.new }
        ensures work { Works steps_a_unit state.old state.new }
    {
        match kind {
            StatementKind::Global { name, value } => {
                let value = self.evaluator.value_of(state, host, value)?;
                state.set_global(self.alloc, name, value)?;
                Ok(Flow::On(Value::Undefined))
            }
            StatementKind::Assign { name, value } => {
                let value = self.evaluator.value_of(state, host, value)?;
                state.set(self.alloc, name, value)?;
                Ok(Flow::On(Value::Undefined))
            }
            StatementKind::Return(e) => {
                let value = self.evaluator.value_of(state, host, e)?;
                Ok(Flow::Back(value))
            }
            StatementKind::If { arms, other } => match self.arms_of(state, host, arms, line)? {
                Some(flow) => Ok(flow),
                None => match other {
                    Some(body) => self.block_of(state, host, body),
                    None => Ok(Flow::On(Value::Undefined)),
                },
            },
            StatementKind::While { condition, body } => {
                self.turns(state, host, body, condition, line)
            }
            StatementKind::For {
                name,
                first,
                last,
                step,
                body,
            } => { self.count(state, host, body, name, first, last, step, line) }
            StatementKind::Value(e) => {
                let value = self.evaluator.value_of(state, host, e)?;
                Ok(sets_last(self.alloc, state, value)?)
            }
        }
    }

    // The first arm whose condition holds.
    #[cycle(statements)]
    #[tactic(auto, using(crate::proofs::Rows::arms_more, crate::proofs::Rows::arms_short, crate::proofs::Rows::arms_sizes))]
    fn arms_of(
        &self,
        state: &mut RunState,
        host: &mut H,
        arms: &[Arm],
        line: u32,
    ) -> Result<Option<Flow>, Stop>
        requires may { E.may self.now.evaluator.now }
        requires short { ArmsAreShort steps_a_unit (arms_of (map arm_view arms.now)) }
        ensures told { Told H.told (option_map flow_view) (m.arms_of (E.context self.now.evaluator.now)
            (E.here self.now.evaluator.now) (arms_of (map arm_view arms.now)) line)
            state.old (in_text (E.here self.now.evaluator.now) result) state.new }
        ensures kept { Keeps H.Host state.old host.old (stop_in (in_text (E.here self.now.evaluator.now) result))
            state.new host.new }
        ensures work { Works (arms_size (arms_of (map arm_view arms.now))) state.old state.new }
    {
        for arm in arms {
            if self.condition(state, host, &arm.condition, line)? {
                let flow = self.block_of(state, host, &arm.body)?;
                return Ok(Some(flow));
            }
        }
        Ok(None)
    }

    // The turns of `while`, of which each costs a unit.
    #[cycle(statements)]
    #[tactic(auto, using(crate::proofs::TurnLemmas::turn_more))]
    fn turns(
        &self,
        state: &mut RunState,
        host: &mut H,
        body: &[Statement],
        test: &Expr,
        line: u32,
    ) -> Result<Flow, Stop>
        requires may { E.may self.now.evaluator.now }
        requires small { size (expr_view test.now) ≤ steps_a_unit }
        requires short { AreShort steps_a_unit (block_view body.now) }
        ensures told { Told H.told flow_view (r.loop_of (E.context self.now.evaluator.now) (E.here self.now.evaluator.now)
            (expr_view test.now) line (block_view body.now))
            state.old (in_text (E.here self.now.evaluator.now) result) state.new }
        ensures kept { Keeps H.Host state.old host.old (stop_in (in_text (E.here self.now.evaluator.now) result))
            state.new host.new }
        ensures work { Works (size (expr_view test.now)) state.old state.new }
    {
        let most = state.units();
        for _turn in 0..most {
            if !self.condition(state, host, test, line)? {
                return Ok(Flow::On(Value::Undefined));
            }
            state.spend(line)?;
            match self.block_of(state, host, body)? {
                Flow::On(_) => continue,
                Flow::Back(value) => return Ok(Flow::Back(value)),
            }
        }
        if self.condition(state, host, test, line)? {
            return Err(Stop::Fault(ScriptKind::StepLimit, line));
        }
        Ok(Flow::On(Value::Undefined))
    }

    // `for`.
    #[cycle(statements)]
    fn count(
        &self,
        state: &mut RunState,
        host: &mut H,
        body: &[Statement],
        name: &Text,
        first: &Expr,
        last: &Expr,
        step: &Option<Expr>,
        line: u32,
    ) -> Result<Flow, Stop>
        requires may { E.may self.now.evaluator.now }
        requires short { AreShort steps_a_unit (block_view body.now) }
        ensures told { Told H.told flow_view (m.effect_of (E.context self.now.evaluator.now) (E.here self.now.evaluator.now)
            (t.for name.now (expr_view first.now) (expr_view last.now) (option_map expr_view step.now) (block_view
            body.now))
            line)
            state.old (in_text (E.here self.now.evaluator.now) result) state.new }
        ensures kept { Keeps H.Host state.old host.old (stop_in (in_text (E.here self.now.evaluator.now) result))
            state.new host.new }
        ensures work { Works (size (expr_view first.now) + (size (expr_view last.now) + step_size (option_map
            expr_view step.now))) state.old state.new }
    {
        let (first, last, step) = self.bounds(state, host, first, last, step, line)?;
        state.set(self.alloc, name, Value::Int(first))?;
        let counter = Counter {
            at: first,
            last,
            step,
        };
        self.counts(state, host, body, name, counter, line)
    }

    // The turns of a loop over numbers.
    #[cycle(statements)]
    #[tactic(auto, using(crate::proofs::TurnLemmas::counting))]
    fn counts(
        &self,
        state: &mut RunState,
        host: &mut H,
        body: &[Statement],
        name: &Text,
        first: Counter,
        line: u32,
    ) -> Result<Flow, Stop>
        requires may { E.may self.now.evaluator.now }
        requires short { AreShort steps_a_unit (block_view body.now) }
        ensures told { Told H.told flow_view (r.count_of (E.context self.now.evaluator.now) (E.here self.now.evaluator.now)
            name.now first.at first.last first.step line (block_view body.now))
            state.old (in_text (E.here self.now.evaluator.now) result) state.new }
        ensures kept { Keeps H.Host state.old host.old (stop_in (in_text (E.here self.now.evaluator.now) result))
            state.new host.new }
        ensures work { Works 0 state.old state.new }
    {
        let most = state.units();
        let mut counter = first;
        for _turn in 0..most {
            match self.turn(state, host, body, name, &counter, line)? {
                Turn::Next(next) => {
                    counter.at = next;
                    continue;
                }
                Turn::Done(flow) => return Ok(flow),
            }
        }
        if is_past(counter.last, counter.step, counter.at) {
            return Ok(Flow::On(Value::Undefined));
        }
        Err(Stop::Fault(ScriptKind::StepLimit, line))
    }

    // One turn of a loop over numbers, which costs a unit.
    #[cycle(statements)]
    #[tactic(auto, unfolding(avs_meaning::specs::Statements::turn))]
    fn turn(
        &self,
        state: &mut RunState,
        host: &mut H,
        body: &[Statement],
        name: &Text,
        counter: &Counter,
        line: u32,
    ) -> Result<Turn, Stop>
        requires may { E.may self.now.evaluator.now }
        requires short { AreShort steps_a_unit (block_view body.now) }
        ensures told { Told H.told turn_view (r.turn (E.context self.now.evaluator.now) (E.here self.now.evaluator.now) name.now
            counter.now.at counter.now.last counter.now.step line (block_view body.now))
            state.old (in_text (E.here self.now.evaluator.now) result) state.new }
        ensures kept { Keeps H.Host state.old host.old (stop_in (in_text (E.here self.now.evaluator.now) result))
            state.new host.new }
        ensures work { Works 0 state.old state.new }
    {
        if is_past(counter.last, counter.step, counter.at) {
            return Ok(Turn::Done(Flow::On(Value::Undefined)));
        }
        state.spend(line)?;
        match self.block_of(state, host, body)? {
            Flow::On(_) => {
                match advance(self.alloc, state, name, counter.step, line)? {
                    Some(next) => Ok(Turn::Next(next)),
                    None => Ok(Turn::Done(Flow::On(Value::Undefined))),
                }
            }
            Flow::Back(value) => Ok(Turn::Done(Flow::Back(value))),
        }
    }

    // One statement, which costs a unit.
    #[cycle(statements)]
    fn statement_of(
        &self,
        state: &mut RunState,
        host: &mut H,
        statement: &Statement,
    ) -> Result<Flow, Stop>
        requires may { E.may self.now.evaluator.now }
        requires short { IsShort steps_a_unit (statement_view statement.now).0 }
        ensures told { Told H.told flow_view (r.statement (E.context self.now.evaluator.now) (E.here self.now.evaluator.now)
            (statement_view statement.now))
            state.old (in_text (E.here self.now.evaluator.now) result) state.new }
        ensures kept { Keeps H.Host state.old host.old (stop_in (in_text (E.here self.now.evaluator.now) result))
            state.new host.new }
        ensures work { Works 0 state.old state.new }
    {
        state.spend(statement.line)?;
        self.effect_of(state, host, &statement.kind, statement.line)
    }

    // The statements of a block.
    #[cycle(statements)]
    #[tactic(auto, using(crate::proofs::Rows::block_more, crate::proofs::Rows::block_short))]
    fn block_of(&self, state: &mut RunState, host: &mut H, body: &[Statement]) -> Result<Flow, Stop>
        requires may { E.may self.now.evaluator.now }
        requires short { AreShort steps_a_unit (block_view body.now) }
        ensures told { Told H.told flow_view (m.block_of (E.context self.now.evaluator.now) (E.here self.now.evaluator.now)
            (block_view body.now))
            state.old (in_text (E.here self.now.evaluator.now) result) state.new }
        ensures kept { Keeps H.Host state.old host.old (stop_in (in_text (E.here self.now.evaluator.now) result))
            state.new host.new }
        ensures work { Works 0 state.old state.new }
    {
        for statement in body {
            match self.statement_of(state, host, statement)? {
                Flow::On(_) => continue,
                Flow::Back(value) => return Ok(Flow::Back(value)),
            }
        }
        Ok(Flow::On(Value::Undefined))
    }

    // The statements of a text or a function.
    #[tactic(auto, using(crate::proofs::Rows::block_more, crate::proofs::Rows::block_short))]
    fn body_of(&self, state: &mut RunState, host: &mut H, body: &[Statement]) -> Result<Value, Stop>
        requires may { E.may self.now.evaluator.now }
        requires short { AreShort steps_a_unit (block_view body.now) }
        ensures told { Told H.told (λ x. x) (m.body_of (E.context self.now.evaluator.now) (E.here self.now.evaluator.now)
            (block_view body.now) Value.Undefined)
            state.old (in_text (E.here self.now.evaluator.now) result) state.new }
        ensures kept { Keeps H.Host state.old host.old (stop_in (in_text (E.here self.now.evaluator.now) result))
            state.new host.new }
        ensures work { Works 0 state.old state.new }
    {
        let mut last = Value::Undefined;
        for statement in body {
            match self.statement_of(state, host, statement)? {
                Flow::On(value) => {
                    last = value;
                    continue;
                }
                Flow::Back(value) => return Ok(value),
            }
        }
        Ok(settled(self.alloc, state, last)?)
    }
}

/// Executes the statements of a text or a function. Their value is that of the final one, or else `last`.
pub fn body_of<H: Host, E: Evaluator<H>>(
    alloc: Global,
    evaluator: &E,
    state: &mut RunState,
    host: &mut H,
    body: &[Statement],
) -> Result<Value, Stop>
    requires may { E.may evaluator.now }
    requires short { AreShort steps_a_unit (block_view body.now) }
    ensures told { Told H.told (λ x. x) (m.body_of (E.context evaluator.now) (E.here evaluator.now) (block_view body.now)
        Value.Undefined)
        state.old (in_text (E.here evaluator.now) result) state.new }
    ensures kept { Keeps H.Host state.old host.old (stop_in (in_text (E.here evaluator.now) result))
        state.new host.new }
    ensures work { Works 0 state.old state.new }
{
    let executor = Executor {
        alloc,
        evaluator,
        of: PhantomData,
    };
    executor.body_of(state, host, body)
}
