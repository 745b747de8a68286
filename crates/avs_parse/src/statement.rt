// What a token does to a statement.
ghost use Rattle.std.specs.Prelude.{◌≡◌, ◌∷◌, ◌++◌, [], Some, map, length, IfOk, if◌then◌else◌};
ghost use Rattle.avs_tree.specs.View.{expr_view, arm_view, statement_view};
ghost use Rattle.avs_tree.specs.declared.symbol.Punctuation.TheVariants.{RightParen};
ghost use Rattle.avs_tree.specs.Lexeme.{is_punctuation};
ghost use Rattle.avs_tree.specs.Machine as machine;
ghost use Rattle.avs_frames.specs.ExprViews.{expr_state_view, opened_view};
ghost use Rattle.avs_frames.specs.ScriptViews.{Steps, ended_view, inner, levels_view, owner_view, statement_state_view, step_view, use_view};
ghost use Rattle.avs_parse.specs.Turns.{Turns, IsFewer, open_here};
ghost use Rattle.avs_frames.specs.Seen.{seen};

use crate::turn::{Turn, did};
use avs_frames::{
    Around, Ended, ExprState, ExprStep, ExprTurn, ForHead, HeadState, Open, Outcome, Owner,
    ScriptStep, Seen, State, StatementState, Use, expr_step, goes, operand, refused,
};
use avs_tree::{Arm, Expr, Keyword, Punctuation, Symbol};
use fv_io::Text;
use std::alloc::Global;

// An expression comes next, for this.
#[tactic(auto, using(avs_frames::proofs::OpenLemmas::of_opened))]
fn expression_next(alloc: Global, purpose: Use, around: Around) -> ScriptStep
    ensures { step_view result ≡ machine.goes
        (inner around (machine.at (machine.in_expression (use_view purpose) machine.operand_next []))) }
{
    let opened = Vec::new(alloc);
    let here = StatementState::InExpression(purpose, ExprState::OperandNext, opened);
    goes(here, around)
}

// The token has to be this punctuation, and then an expression comes next.
fn expression_after(mark: Punctuation, purpose: Use, around: Around, token: Seen<'_>) -> ScriptStep
    ensures { step_view result ≡ (if is_punctuation mark (seen token.entry) then machine.goes
        (inner around (machine.at (machine.in_expression (use_view purpose) machine.operand_next []))) else machine.stuck) }
{
    if !token.is(mark) {
        return refused((purpose, around));
    }
    expression_next(token.alloc, purpose, around)
}

// The right parenthesis before braces.
fn braces_after(owner: Owner, around: Around, token: Seen<'_>) -> ScriptStep
    ensures { step_view result ≡ (if is_punctuation RightParen (seen token.entry)
        then machine.goes (inner around (machine.at (machine.braces_next (owner_view owner)))) else machine.stuck) }
{
    if !token.is(Punctuation::RightParen) {
        return refused((owner, around));
    }
    goes(StatementState::BracesNext(owner), around)
}

// ---- the first token of a statement

// `function`
#[tactic(auto, using(avs_frames::proofs::LevelLemmas::top_within, avs_frames::proofs::LevelLemmas::no_function))]
fn function(around: Around) -> ScriptStep
    ensures { step_view result ≡ inner around machine.function_by }
{
    if around.levels.depth() > 0 {
        return refused(around);
    }
    ScriptStep::Goes(State::Head(HeadState::AfterFunction, around))
}

// The first token of an expression that is a statement, or of the name before `=`.
#[tactic(auto, using(avs_frames::proofs::OpenLemmas::opened_none))]
fn value(around: Around, token: Seen<'_>) -> Outcome<ScriptStep>
    ensures { Steps result (inner around (machine.in_statement (machine.operand [] (seen token.entry)) machine.to_value)) }
{
    match operand(Vec::new(token.alloc), token) {
        Ok(ExprStep::Keeps(state, opened)) => {
            let here = StatementState::InExpression(Use::Value, state, opened);
            Ok(goes(here, around))
        }
        Ok(ExprStep::Refused) => Ok(refused(around)),
        Ok(ExprStep::Leaves(expr)) => Ok(refused((expr, around))),
        Err(error) => Err(error),
    }
}

// The first token of a statement.
fn statement(mut around: Around, token: Seen<'_>) -> Outcome<ScriptStep>
    ensures { Steps result (machine.items_by (Some token.entry.symbol) (machine.operand [] (seen token.entry))
        token.entry.line (map statement_view around.before.items) (levels_view around.levels)) }
{
    let alloc = token.alloc;
    around.line = token.line;
    match token.symbol {
        Symbol::Punctuation(Punctuation::Newline) => Ok(goes(
            StatementState::StatementNext,
            around,
        )),
        Symbol::Punctuation(Punctuation::RightBrace) => around.close(alloc),
        Symbol::Punctuation(Punctuation::End) => Ok(around.end()),
        Symbol::Keyword(Keyword::Function) => Ok(function(around)),
        Symbol::Keyword(Keyword::If) => {
            let purpose = Use::Arm(Vec::new(alloc));
            Ok(goes(StatementState::ParenthesisNext(purpose), around))
        }
        Symbol::Keyword(Keyword::While) => {
            Ok(goes(StatementState::ParenthesisNext(Use::While), around))
        }
        Symbol::Keyword(Keyword::For) => Ok(goes(StatementState::AfterFor, around)),
        Symbol::Keyword(Keyword::Return) => Ok(expression_next(alloc, Use::Return, around)),
        Symbol::Keyword(Keyword::Global) => Ok(goes(StatementState::AfterGlobal, around)),
        _ => value(around, token),
    }
}

// ---- after an expression

// The token after a statement: a newline, `}` or the end.
fn done(around: Around, token: Seen<'_>) -> Outcome<ScriptStep>
    ensures { Steps result (machine.done_by (Some token.entry.symbol)
        (map statement_view around.before.items) around.line (levels_view around.levels)) }
{
    match token.symbol {
        Symbol::Punctuation(Punctuation::Newline) => Ok(goes(
            StatementState::StatementNext,
            around,
        )),
        Symbol::Punctuation(Punctuation::RightBrace) => around.close(token.alloc),
        Symbol::Punctuation(Punctuation::End) => Ok(around.end()),
        _ => Ok(refused(around)),
    }
}

// After the last expression of a statement.
fn finish(ended: Ended, around: Around, token: Seen<'_>) -> Outcome<ScriptStep>
    ensures { Steps result (machine.done_by (Some token.entry.symbol)
        (map statement_view around.before.items ++ (ended_view ended, around.line) ∷ [])
        around.line (levels_view around.levels)) }
{
    match around.after(ended) {
        Ok(around) => done(around, token),
        Err(error) => Err(error),
    }
}

// After an expression that is a statement, unless it is the name before `=`.
fn after_value(expr: Box<Expr>, around: Around, token: Seen<'_>) -> Outcome<ScriptStep>
    ensures { Steps result (inner around (machine.used machine.to_value (expr_view expr.value)) (seen token.entry)) }
{
    if !token.is(Punctuation::Assign) {
        return finish(Ended::Value(expr), around, token);
    }
    match Box::into_inner(expr) {
        Expr::Name { name, line: _ } => Ok(expression_next(token.alloc, Use::Assign(name), around)),
        other => Ok(refused((other, around))),
    }
}

// After the last number of a `for`, unless its step follows.
fn after_last(
    name: Text,
    first: Box<Expr>,
    last: Box<Expr>,
    around: Around,
    token: Seen<'_>,
) -> ScriptStep
    ensures { step_view result
        ≡ inner around (machine.used (machine.to_last name (expr_view first.value)) (expr_view last.value)) (seen token.entry) }
{
    if token.is(Punctuation::Comma) {
        return expression_next(token.alloc, Use::Step(name, first, last), around);
    }
    let head = ForHead {
        name,
        first,
        last,
        step: None,
    };
    braces_after(Owner::For(head), around, token)
}

// After a whole expression.
fn after_expression(
    purpose: Use,
    value: Box<Expr>,
    around: Around,
    token: Seen<'_>,
) -> Outcome<ScriptStep>
    ensures { Steps result (inner around (machine.used (use_view purpose) (expr_view value.value)) (seen token.entry)) }
{
    match purpose {
        Use::Value => after_value(value, around, token),
        Use::Global(name) => finish(Ended::Global(name, value), around, token),
        Use::Assign(name) => finish(Ended::Assign(name, value), around, token),
        Use::Return => finish(Ended::Return(value), around, token),
        Use::Arm(arms) => Ok(braces_after(Owner::Arm(arms, value), around, token)),
        Use::While => Ok(braces_after(Owner::While(value), around, token)),
        Use::First(name) => {
            let purpose = Use::Last(name, value);
            Ok(expression_after(Punctuation::Comma, purpose, around, token))
        }
        Use::Last(name, first) => Ok(after_last(name, first, value, around, token)),
        Use::Step(name, first, last) => {
            let step = Some(value);
            let head = ForHead {
                name,
                first,
                last,
                step,
            };
            Ok(braces_after(Owner::For(head), around, token))
        }
    }
}

// In an expression.
fn in_expression(
    purpose: Use,
    state: ExprState,
    opened: Vec<Open>,
    around: Around,
    token: Seen<'_>,
) -> Outcome<Turn>
    ensures turn { Turns result (seen token.entry) (inner around (machine.advance_statement
        (machine.in_expression (use_view purpose) (expr_state_view state) (opened_view opened.items))) (seen token.entry)) }
    ensures fewer { IfOk result (IsFewer (length opened.items)) }
{
    match expr_step(state, opened, token) {
        Ok(ExprTurn::Does(ExprStep::Refused)) => Ok(Turn::Does(refused((purpose, around)))),
        Ok(ExprTurn::Does(ExprStep::Keeps(state, opened))) => {
            let here = StatementState::InExpression(purpose, state, opened);
            Ok(Turn::Does(goes(here, around)))
        }
        Ok(ExprTurn::Does(ExprStep::Leaves(expr))) => {
            did(after_expression(purpose, expr, around, token))
        }
        Ok(ExprTurn::Again(precedence, expr, opened)) => {
            let state = ExprState::ValueRead(precedence, expr);
            let here = StatementState::InExpression(purpose, state, opened);
            Ok(Turn::Again(State::Statement(here, around)))
        }
        Err(error) => {
            // Dropped in place, each of its parts would be a step of this proof.
            drop(purpose);
            Err(error)
        }
    }
}

// ---- braces

// Newlines and the left brace of a statement.
fn body(owner: Owner, around: Around, token: Seen<'_>) -> Outcome<ScriptStep>
    ensures { Steps result (inner around (machine.body_by (Some token.entry.symbol) (owner_view owner))) }
{
    match token.symbol {
        Symbol::Punctuation(Punctuation::Newline) => {
            Ok(goes(StatementState::BracesNext(owner), around))
        }
        Symbol::Punctuation(Punctuation::LeftBrace) => around.open(token.alloc, owner),
        _ => Ok(refused((owner, around))),
    }
}

// After an arm: newlines, `else`, or the next statement.
fn after_arm(arms: Vec<Arm>, around: Around, token: Seen<'_>) -> Outcome<ScriptStep>
    ensures { Steps result (inner around (machine.arms_by (Some token.entry.symbol)
        (machine.operand [] (seen token.entry)) token.entry.line (map arm_view arms.items))) }
{
    match token.symbol {
        Symbol::Punctuation(Punctuation::Newline) => Ok(goes(
            StatementState::AfterArm(arms),
            around,
        )),
        Symbol::Keyword(Keyword::Else) => Ok(goes(StatementState::AfterElse(arms), around)),
        _ => match around.after(Ended::If(arms, None)) {
            Ok(around) => statement(around, token),
            Err(error) => Err(error),
        },
    }
}

// After `else`.
fn after_else(arms: Vec<Arm>, around: Around, token: Seen<'_>) -> Outcome<ScriptStep>
    ensures { Steps result (inner around (machine.other_by (Some token.entry.symbol) (map arm_view arms.items))) }
{
    match token.symbol {
        Symbol::Keyword(Keyword::If) => {
            Ok(goes(StatementState::ParenthesisNext(Use::Arm(arms)), around))
        }
        _ => body(Owner::Else(arms), around, token),
    }
}

// ---- one token

// The name after `global`.
fn global_name(around: Around, token: Seen<'_>) -> Outcome<ScriptStep>
    ensures { Steps result (inner around (machine.advance_statement machine.after_global) (seen token.entry)) }
{
    match token.symbol {
        Symbol::Name => match token.text() {
            Ok(name) => Ok(goes(StatementState::AfterGlobalName(name), around)),
            Err(error) => Err(error),
        },
        _ => Ok(refused(around)),
    }
}

// The name after `for (`.
fn for_name(around: Around, token: Seen<'_>) -> Outcome<ScriptStep>
    ensures { Steps result (inner around (machine.advance_statement machine.for_opened) (seen token.entry)) }
{
    match token.symbol {
        Symbol::Name => match token.text() {
            Ok(name) => Ok(goes(StatementState::AfterForName(name), around)),
            Err(error) => Err(error),
        },
        _ => Ok(refused(around)),
    }
}

// The parenthesis after `for`.
fn for_parenthesis(around: Around, token: Seen<'_>) -> ScriptStep
    ensures { step_view result ≡ inner around (machine.advance_statement machine.after_for) (seen token.entry) }
{
    if !token.is(Punctuation::LeftParen) {
        return refused(around);
    }
    goes(StatementState::ForOpened, around)
}

/// What a turn does to a statement.
pub fn advance_statement(here: StatementState, around: Around, token: Seen<'_>) -> Outcome<Turn>
    ensures turn { Turns result (seen token.entry)
        (inner around (machine.advance_statement (statement_state_view here)) (seen token.entry)) }
    ensures fewer { IfOk result (IsFewer (open_here here)) }
{
    match here {
        StatementState::StatementNext => did(statement(around, token)),
        StatementState::InExpression(purpose, state, opened) => {
            in_expression(purpose, state, opened, around, token)
        }
        StatementState::ParenthesisNext(purpose) => Ok(Turn::Does(expression_after(
            Punctuation::LeftParen,
            purpose,
            around,
            token,
        ))),
        StatementState::BracesNext(owner) => did(body(owner, around, token)),
        StatementState::AfterArm(arms) => did(after_arm(arms, around, token)),
        StatementState::AfterElse(arms) => did(after_else(arms, around, token)),
        StatementState::AfterGlobal => did(global_name(around, token)),
        StatementState::AfterGlobalName(name) => Ok(Turn::Does(expression_after(
            Punctuation::Assign,
            Use::Global(name),
            around,
            token,
        ))),
        StatementState::AfterFor => Ok(Turn::Does(for_parenthesis(around, token))),
        StatementState::ForOpened => did(for_name(around, token)),
        StatementState::AfterForName(name) => Ok(Turn::Does(expression_after(
            Punctuation::Assign,
            Use::First(name),
            around,
            token,
        ))),
    }
}
