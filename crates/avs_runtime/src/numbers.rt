// Which expressions are numbers.
ghost use Rattle.std.specs.Prelude.{◌≡◌, map};
ghost use Rattle.clip_term.specs.Expression as e;

use clip_term::{RunExpr, RunOper, RunStep};

// Whether the operator is between numbers and gives one.
fn is_arithmetic(op: RunOper) -> bool
    ensures { result ≡ e.is_arithmetic op }
{
    matches!(
        op,
        RunOper::Plus | RunOper::Minus | RunOper::Times | RunOper::Divide | RunOper::Remainder
    )
}

/// Whether an expression is a number, and names planes below this one alone.
#[cycle(is_number)]
#[tactic(auto, using(crate::proofs::CompileLemmas::numbers))]
pub fn is_number(expr: &RunExpr, planes: u32) -> bool
    ensures { result ≡ e.is_number planes (e.expr_view expr.now) }
{
    match expr {
        RunExpr::Int(_) | RunExpr::CurrentFrame => true,
        RunExpr::Plane { plane, .. } => *plane < planes,
        RunExpr::Abs(inside) | RunExpr::Minus(inside) | RunExpr::Group(inside) => {
            is_number(inside, planes)
        }
        RunExpr::Min(all) | RunExpr::Max(all) => are_two(all, planes),
        RunExpr::Chain { first, rest } => is_number(first, planes) && are_steps(rest, planes),
        RunExpr::Bool(_) | RunExpr::Not(_) | RunExpr::Compare { .. } => false,
    }
}

// Whether these are two numbers or more.
#[cycle(is_number)]
#[tactic(auto, using(crate::proofs::CompileLemmas::numbers, crate::proofs::CompileLemmas::two_is))]
fn are_two(all: &[RunExpr], planes: u32) -> bool
    ensures { result ≡ e.are_two planes (e.exprs_of (map e.expr_view all.now)) }
{
    all.len() >= 2 && are_numbers(all, planes)
}

// Whether each of these is a number.
#[cycle(is_number)]
#[tactic(auto, using(crate::proofs::CompileLemmas::numbers, crate::proofs::CompileLemmas::exprs_more))]
fn are_numbers(all: &[RunExpr], planes: u32) -> bool
    ensures { result ≡ e.are_numbers planes (e.exprs_of (map e.expr_view all.now)) }
{
    for expr in all {
        if !is_number(expr, planes) {
            return false;
        }
    }
    true
}

// Whether each operator gives a number, and each operand is one.
#[cycle(is_number)]
#[tactic(auto, using(crate::proofs::CompileLemmas::numbers, crate::proofs::CompileLemmas::run_steps_more))]
fn are_steps(steps: &[RunStep], planes: u32) -> bool
    ensures { result ≡ e.are_steps planes (e.steps_of (map e.step_view steps.now)) }
{
    for step in steps {
        if !is_arithmetic(step.op) || !is_number(&step.operand, planes) {
            return false;
        }
    }
    true
}
