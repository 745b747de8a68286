// What a token does to an expression.
ghost use Rattle.std.specs.Prelude.{◌≡◌, ◌∷◌, Some, map, length, IfOk};
ghost use Rattle.avs_tree.specs.View.{expr_view, method_call_view};
ghost use Rattle.avs_tree.specs.Machine as machine;
ghost use Rattle.avs_frames.specs.ExprViews.{Makes, Turns, IsFewer, callee_view, open_view, opened_view, expr_state_view};
ghost use Rattle.avs_frames.specs.Seen.{seen};
ghost use Rattle.avs_frames.specs.declared.state.ExprState.TheVariants.{DotRead, MethodRead};

use crate::closing::{called, close_innermost, primary};
use crate::memory::{Outcome, boxed, pushed};
use crate::seen::Seen;
use crate::state::{
    COMPARISON, Callee, Closing, EXPRESSION, ExprState, ExprStep, ExprTurn, Named, Open,
    OperatorAt, POSTFIX, PRIMARY, Receiver,
};
use avs_tree::{DotCall, Expr, Keyword, Operator, Punctuation, Symbol};
use std::alloc::Global;

// An operand of one token.
fn literal(value: Expr, opened: Vec<Open>, token: Seen<'_>) -> Outcome<ExprStep>
    ensures { Makes result (machine.keeps (machine.value_read 0 (expr_view value)) (opened_view opened.items)) }
{
    match primary(token.alloc, value) {
        Ok(state) => Ok(ExprStep::Keeps(state, opened)),
        Err(error) => Err(error),
    }
}

// One more is open, innermost.
#[tactic(auto, using(crate::proofs::OpenLemmas::opened_push))]
fn add_open(opened: Vec<Open>, innermost: Open) -> Outcome<ExprStep>
    ensures { Makes result (machine.keeps machine.operand_next (open_view innermost ∷ opened_view opened.items)) }
{
    match pushed(opened, innermost) {
        Ok(opened) => Ok(ExprStep::Keeps(ExprState::OperandNext, opened)),
        Err(error) => Err(error),
    }
}

// A name and its line.
fn named(token: Seen<'_>) -> Outcome<Named>
    ensures name { IfOk result (λ made. made.name ≡ token.entry.content.now) }
    ensures line { IfOk result (λ made. made.line ≡ token.entry.line) }
{
    let name = token.text()?;
    let line = token.line;
    Ok(Named { name, line })
}

/// The first token of an operand.
#[tactic(auto, unfolding(avs_tree::specs::Machine::operand))]
pub fn operand(opened: Vec<Open>, token: Seen<'_>) -> Outcome<ExprStep>
    ensures { Makes result (machine.operand (opened_view opened.items) (seen token.entry)) }
{
    let line = token.line;
    match token.symbol {
        Symbol::Int(number) => literal(Expr::Int(number), opened, token),
        Symbol::Str => match token.text() {
            Ok(text) => literal(Expr::Str(text), opened, token),
            Err(error) => Err(error),
        },
        Symbol::Keyword(Keyword::True) => literal(Expr::Bool(true), opened, token),
        Symbol::Keyword(Keyword::False) => literal(Expr::Bool(false), opened, token),
        Symbol::Name => match named(token) {
            Ok(name) => Ok(ExprStep::Keeps(ExprState::NameRead(name), opened)),
            Err(error) => Err(error),
        },
        Symbol::Punctuation(Punctuation::LeftParen) => add_open(opened, Open::Paren),
        Symbol::Operator(Operator::Minus) => add_open(opened, Open::Minus(line)),
        Symbol::Punctuation(Punctuation::Not) => add_open(opened, Open::Not(line)),
        _ => Ok(ExprStep::Refused),
    }
}

// An operator after its first operand.
fn operator(alloc: Global, first: Box<Expr>, op: Operator, line: u32) -> Open
    ensures { open_view result ≡ machine.operand_of op (expr_view first.value) line }
{
    let last = OperatorAt { op, line };
    if op.precedence() == COMPARISON {
        return Open::Compare(first, last);
    }
    Open::Chain(first, Vec::new(alloc), last)
}

// The token that continues an expression.
#[tactic(auto, unfolding(avs_tree::specs::Machine::grow))]
fn grow(first: Box<Expr>, opened: Vec<Open>, token: Seen<'_>) -> Outcome<ExprStep>
    ensures { Makes result (machine.grow (expr_view first.value) (opened_view opened.items) (seen token.entry)) }
{
    let line = token.line;
    match token.symbol {
        Symbol::Punctuation(Punctuation::Dot) => {
            let calls = Vec::new(token.alloc);
            let state = ExprState::DotRead(Receiver { first, calls });
            Ok(ExprStep::Keeps(state, opened))
        }
        Symbol::Punctuation(Punctuation::Question) => add_open(opened, Open::Yes(first, line)),
        Symbol::Operator(op) => add_open(opened, operator(token.alloc, first, op, line)),
        _ => Ok(ExprStep::Refused),
    }
}

// The highest precedence of what comes next.
#[tactic(auto, using(crate::proofs::OpenLemmas::of_hole))]
fn hole(opened: &[Open]) -> u8
    ensures { result ≡ machine.hole (opened_view opened.now) }
{
    match opened.last() {
        Some(innermost) => innermost.hole(),
        None => EXPRESSION,
    }
}

// After an expression of this precedence: the token continues it, or it closes what is open innermost.
#[tactic(auto, using(crate::proofs::OpenLemmas::of_opened))]
fn after(
    precedence: u8,
    expr: Box<Expr>,
    mut opened: Vec<Open>,
    token: Seen<'_>,
) -> Outcome<ExprTurn>
    ensures turn { Turns result (seen token.entry)
        (machine.after precedence (expr_view expr.value) (opened_view opened.items) (seen token.entry)) }
    ensures fewer { IfOk result (IsFewer (length opened.items)) }
{
    if token.continues(precedence, hole(&opened)) {
        return Ok(ExprTurn::Does(grow(expr, opened, token)?));
    }
    let innermost = match opened.pop() {
        Some(innermost) => innermost,
        None => return Ok(ExprTurn::Does(ExprStep::Leaves(expr))),
    };
    match close_innermost(innermost, expr, token) {
        Ok(Closing::Closed(made, whole)) => Ok(ExprTurn::Again(made, whole, opened)),
        Ok(Closing::Reopened(innermost)) => Ok(ExprTurn::Does(add_open(opened, innermost)?)),
        Ok(Closing::Taken(state)) => Ok(ExprTurn::Does(ExprStep::Keeps(state, opened))),
        Ok(Closing::Refused) => Ok(ExprTurn::Does(ExprStep::Refused)),
        Err(error) => Err(error),
    }
}

// After a name.
fn after_name(called: Named, opened: Vec<Open>, token: Seen<'_>) -> Outcome<ExprTurn>
    ensures turn { Turns result (seen token.entry) (machine.expr_step (machine.name_read called.name called.line)
        (opened_view opened.items) (seen token.entry)) }
    ensures fewer { IfOk result (IsFewer (length opened.items)) }
{
    if token.is(Punctuation::LeftParen) {
        let state = ExprState::ArgsOpened(Callee::Call(called));
        return Ok(ExprTurn::Does(ExprStep::Keeps(state, opened)));
    }
    let Named { name, line } = called;
    match boxed(token.alloc, Expr::Name { name, line }) {
        Ok(name) => after(PRIMARY, name, opened, token),
        Err(error) => Err(error),
    }
}

// After the left parenthesis of arguments.
#[tactic(auto, using(crate::proofs::OpenLemmas::opened_push))]
fn first_argument(callee: Callee, opened: Vec<Open>, token: Seen<'_>) -> Outcome<ExprStep>
    ensures { Makes result (machine.expr_step (machine.args_opened (callee_view callee))
        (opened_view opened.items) (seen token.entry)) }
{
    let found = Vec::new(token.alloc);
    if token.is(Punctuation::RightParen) {
        return match called(token.alloc, callee, found) {
            Ok(state) => Ok(ExprStep::Keeps(state, opened)),
            Err(error) => Err(error),
        };
    }
    match pushed(opened, Open::Argument(callee, found, None)) {
        Ok(opened) => operand(opened, token),
        Err(error) => Err(error),
    }
}

// After a dot.
fn method_name(receiver: Receiver, opened: Vec<Open>, token: Seen<'_>) -> Outcome<ExprStep>
    ensures { Makes result (machine.expr_step (expr_state_view (DotRead receiver))
        (opened_view opened.items) (seen token.entry)) }
{
    match token.symbol {
        Symbol::Name => match named(token) {
            Ok(name) => Ok(ExprStep::Keeps(ExprState::MethodRead(receiver, name), opened)),
            Err(error) => Err(error),
        },
        _ => Ok(ExprStep::Refused),
    }
}

// After method calls.
fn after_calls(receiver: Receiver, opened: Vec<Open>, token: Seen<'_>) -> Outcome<ExprTurn>
    ensures turn { Turns result (seen token.entry) (machine.after_calls (expr_view receiver.first.value)
        (map method_call_view receiver.calls.items) (opened_view opened.items) (seen token.entry)) }
    ensures fewer { IfOk result (IsFewer (length opened.items)) }
{
    if token.is(Punctuation::Dot) {
        return Ok(ExprTurn::Does(ExprStep::Keeps(ExprState::DotRead(receiver), opened)));
    }
    let Receiver { first, calls } = receiver;
    match boxed(token.alloc, Expr::Dots { first, calls }) {
        Ok(whole) => after(POSTFIX, whole, opened, token),
        Err(error) => Err(error),
    }
}

// After the name of a method.
fn after_method(
    receiver: Receiver,
    method: Named,
    opened: Vec<Open>,
    token: Seen<'_>,
) -> Outcome<ExprTurn>
    ensures turn { Turns result (seen token.entry) (machine.expr_step (expr_state_view (MethodRead receiver method))
        (opened_view opened.items) (seen token.entry)) }
    ensures fewer { IfOk result (IsFewer (length opened.items)) }
{
    if token.is(Punctuation::LeftParen) {
        let state = ExprState::ArgsOpened(Callee::Method(receiver, method));
        return Ok(ExprTurn::Does(ExprStep::Keeps(state, opened)));
    }
    let Named { name, line } = method;
    let args = None;
    match receiver.with_call(DotCall { name, args, line }) {
        Ok(receiver) => after_calls(receiver, opened, token),
        Err(error) => Err(error),
    }
}

/// What a turn does to an expression: what the token does, or it closes one of what is open.
pub fn expr_step(state: ExprState, opened: Vec<Open>, token: Seen<'_>) -> Outcome<ExprTurn>
    ensures turn { Turns result (seen token.entry)
        (machine.expr_step (expr_state_view state) (opened_view opened.items) (seen token.entry)) }
    ensures fewer { IfOk result (IsFewer (length opened.items)) }
{
    match state {
        ExprState::OperandNext => Ok(ExprTurn::Does(operand(opened, token)?)),
        ExprState::ValueRead(precedence, expr) => after(precedence, expr, opened, token),
        ExprState::NameRead(name) => after_name(name, opened, token),
        ExprState::ArgsOpened(callee) => Ok(ExprTurn::Does(first_argument(callee, opened, token)?)),
        ExprState::DotRead(receiver) => {
            Ok(ExprTurn::Does(method_name(receiver, opened, token)?))
        }
        ExprState::MethodRead(receiver, name) => after_method(receiver, name, opened, token),
        ExprState::CallsRead(receiver) => after_calls(receiver, opened, token),
    }
}
