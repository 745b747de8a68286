// What a token does to what is open innermost, after an expression in it.
ghost use Rattle.std.specs.Prelude.{◌≡◌, ◌∷◌, ◌++◌, [], None, map, IfOk};
ghost use Rattle.avs_tree.specs.Lexeme.{precedence_of, operator_at};
ghost use Rattle.avs_tree.specs.View.{expr_view, arg_view, step_view};
ghost use Rattle.avs_tree.specs.Machine as machine;
ghost use Rattle.avs_frames.specs.ExprViews.{Closes, callee_view, open_view, expr_state_view, closing_view};
ghost use Rattle.avs_frames.specs.Seen.{seen};

use crate::memory::{Outcome, boxed, pushed};
use crate::seen::Seen;
use crate::state::{
    COMPARISON, Callee, Closing, EXPRESSION, ExprState, Named, Open, OperatorAt, PRIMARY, UNARY,
};
use avs_tree::{Arg, DotCall, Expr, Operator, Punctuation, Step};
use fv_io::Text;
use std::alloc::Global;

// The token cannot stand there. What was read is dropped here: dropped in place, each part of it would be a step of the
// caller's proof.
fn refused<T: Drop>(_read: T) -> Closing
    ensures { closing_view result ≡ machine.no_closing }
{
    Closing::Refused
}

/// A whole primary.
pub fn primary(alloc: Global, expr: Expr) -> Outcome<ExprState>
    ensures { IfOk result (λ made. expr_state_view made ≡ machine.value_read 0 (expr_view expr)) }
{
    match boxed(alloc, expr) {
        Ok(expr) => Ok(ExprState::ValueRead(PRIMARY, expr)),
        Err(error) => Err(error),
    }
}

/// A call, after its right parenthesis.
pub fn called(alloc: Global, callee: Callee, args: Vec<Arg>) -> Outcome<ExprState>
    ensures { IfOk result (λ made. expr_state_view made ≡ machine.called (callee_view callee) (map arg_view args.items)) }
{
    match callee {
        Callee::Call(called) => {
            let Named { name, line } = called;
            primary(alloc, Expr::Call { name, args, line })
        }
        Callee::Method(receiver, called) => {
            let Named { name, line } = called;
            let args = Some(args);
            match receiver.with_call(DotCall { name, args, line }) {
                Ok(receiver) => Ok(ExprState::CallsRead(receiver)),
                Err(error) => Err(error),
            }
        }
    }
}

// What is open ends, as an expression of this precedence.
fn closed(alloc: Global, precedence: u8, whole: Expr) -> Outcome<Closing>
    ensures { Closes result (machine.closed precedence (expr_view whole)) }
{
    match boxed(alloc, whole) {
        Ok(whole) => Ok(Closing::Closed(precedence, whole)),
        Err(error) => Err(error),
    }
}

// After what is inside of parentheses.
fn close_group(inside: Box<Expr>, token: Seen<'_>) -> Outcome<Closing>
    ensures { Closes result (machine.closing (expr_view inside.value) machine.paren (seen token.entry)) }
{
    if !token.is(Punctuation::RightParen) {
        return Ok(refused(inside));
    }
    match primary(token.alloc, Expr::Group(inside)) {
        Ok(group) => Ok(Closing::Taken(group)),
        Err(error) => Err(error),
    }
}

// ---- arguments

// After `=`, where the argument is a name so far.
fn label(callee: Callee, found: Vec<Arg>, name: Option<Text>, value: Box<Expr>) -> Closing
    ensures { closing_view result
        ≡ machine.label_of name (expr_view value.value) (callee_view callee) (map arg_view found.items) }
{
    if name.is_some() {
        return refused((callee, found, name, value));
    }
    match Box::into_inner(value) {
        Expr::Name { name, line: _ } => {
            Closing::Reopened(Open::Argument(callee, found, Some(name)))
        }
        other => refused((callee, found, other)),
    }
}

// The arguments with one more.
#[tactic(auto, using(crate::proofs::RowLemmas::args_push))]
fn with_argument(found: Vec<Arg>, name: Option<Text>, value: Box<Expr>) -> Outcome<Vec<Arg>>
    ensures { IfOk result (λ made. map arg_view made.items
        ≡ map arg_view found.items ++ (name, expr_view value.value) ∷ []) }
{
    let value = Box::into_inner(value);
    pushed(found, Arg { name, value })
}

// After the comma of an argument.
fn next_argument(
    callee: Callee,
    found: Vec<Arg>,
    name: Option<Text>,
    value: Box<Expr>,
) -> Outcome<Closing>
    ensures { Closes result (machine.reopened
        (machine.argument (callee_view callee) (map arg_view found.items ++ (name, expr_view value.value) ∷ []) None)) }
{
    match with_argument(found, name, value) {
        Ok(found) => Ok(Closing::Reopened(Open::Argument(callee, found, None))),
        Err(error) => {
            // Dropped in place, each of its parts would be a step of this proof.
            drop(callee);
            Err(error)
        }
    }
}

// After the right parenthesis of arguments.
fn last_argument(
    alloc: Global,
    callee: Callee,
    found: Vec<Arg>,
    name: Option<Text>,
    value: Box<Expr>,
) -> Outcome<Closing>
    ensures { Closes result (machine.taken
        (machine.called (callee_view callee) (map arg_view found.items ++ (name, expr_view value.value) ∷ []))) }
{
    match with_argument(found, name, value) {
        Ok(args) => match called(alloc, callee, args) {
            Ok(call) => Ok(Closing::Taken(call)),
            Err(error) => Err(error),
        },
        Err(error) => {
            drop(callee);
            Err(error)
        }
    }
}

// After the value of an argument.
#[tactic(auto, unfolding(avs_tree::specs::Machine::closing_argument))]
fn close_argument(
    callee: Callee,
    found: Vec<Arg>,
    name: Option<Text>,
    value: Box<Expr>,
    token: Seen<'_>,
) -> Outcome<Closing>
    ensures { Closes result (machine.closing (expr_view value.value)
        (machine.argument (callee_view callee) (map arg_view found.items) name) (seen token.entry)) }
{
    if token.is(Punctuation::Comma) {
        return next_argument(callee, found, name, value);
    }
    if token.is(Punctuation::RightParen) {
        return last_argument(token.alloc, callee, found, name, value);
    }
    if token.is(Punctuation::Assign) {
        return Ok(label(callee, found, name, value));
    }
    Ok(refused((callee, found, name, value)))
}

// ---- operators

// The operators and operands with one more.
#[tactic(auto, using(crate::proofs::RowLemmas::steps_push))]
fn with_step(rest: Vec<Step>, last: OperatorAt, operand: Box<Expr>) -> Outcome<Vec<Step>>
    ensures { IfOk result (λ made. map step_view made.items
        ≡ map step_view rest.items ++ (last.op, (expr_view operand.value, last.line)) ∷ []) }
{
    let OperatorAt { op, line } = last;
    let operand = Box::into_inner(operand);
    pushed(rest, Step { op, operand, line })
}

// After the last operand of a chain so far: it goes on with an operator of the same precedence, or it ends.
fn after_operand(
    first: Box<Expr>,
    rest: Vec<Step>,
    last: Operator,
    token: Seen<'_>,
) -> Outcome<Closing>
    ensures { Closes result (machine.more_of (operator_at (precedence_of last) (seen token.entry)) last
        (expr_view first.value) (map step_view rest.items) token.entry.line) }
{
    let precedence = last.precedence();
    match token.operator(precedence) {
        Some(op) => {
            let line = token.line;
            Ok(Closing::Reopened(Open::Chain(first, rest, OperatorAt { op, line })))
        }
        None => closed(token.alloc, precedence, Expr::Chain { first, rest }),
    }
}

// After the operand of an operator.
fn close_chain(
    first: Box<Expr>,
    rest: Vec<Step>,
    last: OperatorAt,
    operand: Box<Expr>,
    token: Seen<'_>,
) -> Outcome<Closing>
    ensures { Closes result (machine.closing (expr_view operand.value)
        (machine.chain_of (expr_view first.value) (map step_view rest.items) last.op last.line) (seen token.entry)) }
{
    match with_step(rest, last, operand) {
        Ok(rest) => after_operand(first, rest, last.op, token),
        Err(error) => Err(error),
    }
}

// After the first branch of a `?`.
fn close_branch(condition: Box<Expr>, line: u32, yes: Box<Expr>, token: Seen<'_>) -> Closing
    ensures { closing_view result
        ≡ machine.closing (expr_view yes.value) (machine.yes_of (expr_view condition.value) line) (seen token.entry) }
{
    if !token.is(Punctuation::Colon) {
        return refused((condition, yes));
    }
    Closing::Reopened(Open::No(condition, yes, line))
}

/// What the token does to what is open innermost, after this expression in it.
pub fn close_innermost(innermost: Open, expr: Box<Expr>, token: Seen<'_>) -> Outcome<Closing>
    ensures { Closes result (machine.closing (expr_view expr.value) (open_view innermost) (seen token.entry)) }
{
    let alloc = token.alloc;
    match innermost {
        Open::Paren => close_group(expr, token),
        Open::Argument(callee, found, name) => close_argument(callee, found, name, expr, token),
        Open::Minus(line) => closed(
            alloc,
            UNARY,
            Expr::Minus {
                operand: expr,
                line,
            },
        ),
        Open::Not(line) => closed(
            alloc,
            UNARY,
            Expr::Not {
                operand: expr,
                line,
            },
        ),
        Open::Chain(first, rest, last) => close_chain(first, rest, last, expr, token),
        Open::Compare(left, last) => {
            let whole = Expr::Compare {
                op: last.op,
                left,
                right: expr,
                line: last.line,
            };
            closed(alloc, COMPARISON, whole)
        }
        Open::Yes(condition, line) => Ok(close_branch(condition, line, expr, token)),
        Open::No(condition, yes, line) => {
            let whole = Expr::Pick {
                condition,
                yes,
                no: expr,
                line,
            };
            closed(alloc, EXPRESSION, whole)
        }
    }
}
