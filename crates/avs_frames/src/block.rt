// The ends of blocks.
ghost use Rattle.std.specs.Prelude.{◌≡◌, ◌∷◌, ◌++◌, [], map, IfOk};
ghost use Rattle.avs_tree.specs.View.{expr_view, arm_view, function_view, statement_view, block_view};
ghost use Rattle.avs_tree.specs.Machine as machine;
ghost use Rattle.avs_frames.specs.ScriptViews.{Steps, ended_view, inner, levels_view, owner_view, outermost_view, statement_state_view, step_view};

use crate::around::{Around, Levels};
use crate::memory::{Outcome, pushed};
use crate::script_state::{
    Ended, OpenFunction, Owner, ScriptStep, Signature, State, StatementState,
};
use avs_tree::{Arm, Expr, Function, Statement};
use std::alloc::Global;

/// The token cannot stand there. What was read is dropped here: dropped in place, each part of it would be a step of the
/// caller's proof.
pub fn refused<T: Drop>(_read: T) -> ScriptStep
    ensures { step_view result ≡ machine.stuck }
{
    ScriptStep::Refused
}

/// The script goes on with this in a statement.
pub fn goes(here: StatementState, around: Around) -> ScriptStep
    ensures { step_view result ≡ machine.goes (inner around (machine.at (statement_state_view here))) }
{
    ScriptStep::Goes(State::Statement(here, around))
}

// After a statement that ends with a brace.
fn closed(ended: Ended, around: Around) -> Outcome<ScriptStep>
    ensures { Steps result (machine.goes (machine.at machine.statement_next around.line
        (map statement_view around.before.items ++ (ended_view ended, around.line) ∷ []) (levels_view around.levels))) }
{
    match around.after(ended) {
        Ok(around) => Ok(goes(StatementState::StatementNext, around)),
        Err(error) => Err(error),
    }
}

// The arms with one more.
#[tactic(auto, using(crate::proofs::RowLemmas::arms_push))]
fn with_arm(arms: Vec<Arm>, condition: Box<Expr>, body: Vec<Statement>) -> Outcome<Vec<Arm>>
    ensures { IfOk result (λ made. map arm_view made.items
        ≡ map arm_view arms.items ++ (expr_view condition.value, block_view body.items) ∷ []) }
{
    let condition = Box::into_inner(condition);
    pushed(arms, Arm { condition, body })
}

/// The right brace of a statement.
pub fn close_level(owner: Owner, body: Vec<Statement>, around: Around) -> Outcome<ScriptStep>
    ensures { Steps result (machine.close_by (map statement_view body.items)
        (inner around (machine.level (owner_view owner)))) }
{
    match owner {
        Owner::Arm(arms, condition) => match with_arm(arms, condition, body) {
            Ok(arms) => Ok(goes(StatementState::AfterArm(arms), around)),
            Err(error) => Err(error),
        },
        Owner::Else(arms) => closed(Ended::If(arms, Some(body)), around),
        Owner::While(condition) => closed(Ended::While(condition, body), around),
        Owner::For(head) => closed(Ended::For(head, body), around),
    }
}

// The functions with one more.
#[tactic(auto, using(crate::proofs::RowLemmas::functions_push))]
fn with_function(
    functions: Vec<Function>,
    signature: Signature,
    line: u32,
    body: Vec<Statement>,
) -> Outcome<Vec<Function>>
    ensures { IfOk result (λ made. map function_view made.items ≡ map function_view functions.items
        ++ machine.function_of signature.name signature.params.items line (map statement_view body.items) ∷ []) }
{
    let Signature { name, params } = signature;
    let function = Function {
        name,
        params,
        body,
        line,
    };
    pushed(functions, function)
}

/// The right brace outside of the braces of statements: that of a function, if there is one.
pub fn close_outermost(
    alloc: Global,
    function: Option<OpenFunction>,
    body: Vec<Statement>,
    functions: Vec<Function>,
) -> Outcome<ScriptStep>
    ensures { Steps result (machine.close_by (map statement_view body.items)
        (outermost_view function (map function_view functions.items))) }
{
    let OpenFunction {
        signature,
        line,
        before,
    } = match function {
        Some(function) => function,
        None => return Ok(refused((body, functions))),
    };
    match with_function(functions, signature, line, body) {
        Ok(functions) => {
            let levels = Levels::new(alloc, functions);
            let around = Around {
                line,
                before,
                levels,
            };
            Ok(goes(StatementState::StatementNext, around))
        }
        Err(error) => Err(error),
    }
}
