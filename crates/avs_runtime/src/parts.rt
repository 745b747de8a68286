// The parts of an expression, from the tree of a text.
ghost use Rattle.std.specs.Prelude.{◌≡◌, map};
ghost use Rattle.avs_tree.specs.View as t;
ghost use Rattle.avs_meaning.specs.Arguments as c;
ghost use Rattle.avs_runtime.specs.Read.{Reads, ReadsBox, ReadsAll, ReadsSteps};

use crate::fault::RunFault;
use crate::functions::{called, in_box};
use crate::names::named;
use avs_tree::{Arg, Expr, Operator, Step};
use clip_term::{RunExpr, RunOper, RunStep};
use std::alloc::Global;

// The operator of expressions that an operator of scripts is. `++` is none.
fn oper_of(op: Operator) -> Option<RunOper>
    ensures { result ≡ c.oper_of op }
{
    match op {
        Operator::Or => Some(RunOper::Or),
        Operator::And => Some(RunOper::And),
        Operator::Equal => Some(RunOper::Equal),
        Operator::NotEqual => Some(RunOper::NotEqual),
        Operator::Less => Some(RunOper::Less),
        Operator::LessEqual => Some(RunOper::LessEqual),
        Operator::Greater => Some(RunOper::Greater),
        Operator::GreaterEqual => Some(RunOper::GreaterEqual),
        Operator::Plus => Some(RunOper::Plus),
        Operator::Minus => Some(RunOper::Minus),
        Operator::PlusPlus => None,
        Operator::Times => Some(RunOper::Times),
        Operator::Divide => Some(RunOper::Divide),
        Operator::Remainder => Some(RunOper::Remainder),
    }
}

/// The expression of the parts that an expression of a script has.
#[cycle(part)]
#[tactic(auto, using(crate::proofs::CompileLemmas::reading))]
pub fn part(alloc: Global, expr: &Expr) -> Result<RunExpr, RunFault>
    ensures { Reads (c.part_of (t.expr_view expr.now)) result }
{
    match expr {
        Expr::Int(number) => Ok(RunExpr::Int(*number)),
        Expr::Bool(truth) => Ok(RunExpr::Bool(*truth)),
        Expr::Name { name, .. } => named(name.as_str()),
        Expr::Call { name, args, .. } => called(alloc, name.as_str(), parts(alloc, args)?),
        Expr::Minus { operand, .. } => Ok(RunExpr::Minus(boxed(alloc, operand)?)),
        Expr::Not { operand, .. } => Ok(RunExpr::Not(boxed(alloc, operand)?)),
        Expr::Chain { first, rest } => {
            let first = boxed(alloc, first)?;
            let rest = operated(alloc, rest)?;
            Ok(RunExpr::Chain { first, rest })
        }
        Expr::Compare {
            op,
            left,
            right,
            ..
        } => {
            let Some(op) = oper_of(*op) else {
                return Err(RunFault::BadExpression);
            };
            let left = boxed(alloc, left)?;
            let right = boxed(alloc, right)?;
            Ok(RunExpr::Compare { op, left, right })
        }
        Expr::Group(inside) => Ok(RunExpr::Group(boxed(alloc, inside)?)),
        Expr::Str(_) | Expr::Dots { .. } | Expr::Pick { .. } => Err(RunFault::BadExpression),
    }
}

#[cycle(part)]
#[tactic(auto, using(crate::proofs::CompileLemmas::reading))]
fn boxed(alloc: Global, expr: &Expr) -> Result<Box<RunExpr>, RunFault>
    ensures { ReadsBox (c.part_of (t.expr_view expr.now)) result }
{
    Ok(in_box(alloc, part(alloc, expr)?)?)
}

// The arguments of a call, none of which has a name.
#[cycle(part)]
#[tactic(auto, using(crate::proofs::CompileLemmas::reading, crate::proofs::CompileLemmas::args_more))]
fn parts(alloc: Global, args: &[Arg]) -> Result<Vec<RunExpr>, RunFault>
    ensures { ReadsAll (c.parts_of (t.args_of (map t.arg_view args.now))) result }
{
    let mut made = Vec::new(alloc);
    for arg in args {
        if arg.name.is_some() {
            return Err(RunFault::BadExpression);
        }
        let value = part(alloc, &arg.value)?;
        match made.push(value) {
            Ok(()) => continue,
            Err(_) => return Err(RunFault::Memory),
        }
    }
    Ok(made)
}

// The operators of a chain with their operands.
#[cycle(part)]
#[tactic(auto, using(crate::proofs::CompileLemmas::reading, crate::proofs::CompileLemmas::steps_more))]
fn operated(alloc: Global, steps: &[Step]) -> Result<Vec<RunStep>, RunFault>
    ensures { ReadsSteps (c.operated (t.steps_of (map t.step_view steps.now))) result }
{
    let mut made = Vec::new(alloc);
    for step in steps {
        let Some(op) = oper_of(step.op) else {
            return Err(RunFault::BadExpression);
        };
        let operand = part(alloc, &step.operand)?;
        match made.push(RunStep { op, operand }) {
            Ok(()) => continue,
            Err(_) => return Err(RunFault::Memory),
        }
    }
    Ok(made)
}
