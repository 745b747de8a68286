// What is open in an expression, and what was read of it last.
ghost use Rattle.std.specs.Prelude.{◌≡◌, ◌∷◌, ◌++◌, [], map, IfOk};
ghost use Rattle.avs_tree.specs.View.{method_call_view};
ghost use Rattle.avs_tree.specs.Machine as machine;
ghost use Rattle.avs_frames.specs.ExprViews.{open_view};
ghost use Rattle.avs_frames.specs.Open.{opens};

use crate::memory::{Outcome, pushed};
use avs_tree::{Arg, DotCall, Expr, Operator, Step};
use fv_io::Text;

/// The precedence of a literal, a name, a call or a group.
pub const PRIMARY: u8 = 0;
/// The precedence of an expression with method calls.
pub const POSTFIX: u8 = 1;
/// The precedence of an expression with `-` or `!` before it.
pub const UNARY: u8 = 2;

pub const COMPARISON: u8 = 5;
/// The precedence of a conditional, and so of any expression.
pub const EXPRESSION: u8 = 8;

/// A name and its line.
#[derive(Drop)]
pub struct Named {
    pub name: Text,
    pub line: u32,
}

/// An operator and its line.
#[derive(Clone, Copy)]
pub struct OperatorAt {
    pub op: Operator,
    pub line: u32,
}

/// `e.f(..).g`: an expression and the method calls after it.
#[derive(Drop)]
pub struct Receiver {
    pub first: Box<Expr>,
    pub calls: Vec<DotCall>,
}

/// What arguments belong to.
#[derive(Drop)]
pub enum Callee {
    /// `f`
    Call(Named),
    /// `e.f`
    Method(Receiver, Named),
}

/// What is open, with the lines of operators. An expression comes next in it.
#[derive(Drop)]
pub enum Open {
    /// `(`
    Paren,
    /// `f(a, b,` or `f(a, b, name =`
    Argument(Callee, Vec<Arg>, Option<Text>),
    /// `-`
    Minus(u32),
    /// `!`
    Not(u32),
    /// `a + b -`
    Chain(Box<Expr>, Vec<Step>, OperatorAt),
    /// `a <`
    Compare(Box<Expr>, OperatorAt),
    /// `c ?`
    Yes(Box<Expr>, u32),
    /// `c ? a :`
    No(Box<Expr>, Box<Expr>, u32),
}

/// What was read last of an expression.
#[derive(Drop)]
pub enum ExprState {
    /// Nothing, or what is open innermost.
    OperandNext,
    /// An expression of this precedence.
    ValueRead(u8, Box<Expr>),
    /// `f`
    NameRead(Named),
    /// `f(` or `e.f(`
    ArgsOpened(Callee),
    /// `e.`
    DotRead(Receiver),
    /// `e.f`
    MethodRead(Receiver, Named),
    /// `e.f(..)`
    CallsRead(Receiver),
}

/// What a token does to an expression.
pub enum ExprStep {
    /// The token cannot stand there.
    Refused,
    /// It is taken.
    Keeps(ExprState, Vec<Open>),
    /// The expression ends before it.
    Leaves(Box<Expr>),
}

/// What a turn does to an expression.
pub enum ExprTurn {
    /// What the token does.
    Does(ExprStep),
    /// What was open innermost ends before the token, which is read again. This expression of this precedence is read, and
    /// what else is open is open still.
    Again(u8, Box<Expr>, Vec<Open>),
}

/// What a token does to what is open innermost, after an expression in it.
pub enum Closing {
    /// The token cannot stand there.
    Refused,
    /// It closes it.
    Taken(ExprState),
    /// Something else is open in its place.
    Reopened(Open),
    /// What is open ends before it, as an expression of this precedence.
    Closed(u8, Box<Expr>),
}

impl Receiver {
    /// One more method call.
    #[tactic(auto, using(crate::proofs::RowLemmas::calls_push))]
    pub fn with_call(self, call: DotCall) -> Outcome<Receiver>
        ensures first { IfOk result (λ made. made.first ≡ self.first) }
        ensures calls { IfOk result (λ made. made.calls.items ≡ self.calls.items ++ call ∷ []) }
        ensures view { IfOk result (λ made. map method_call_view made.calls.items
            ≡ map method_call_view self.calls.items ++ method_call_view call ∷ []) }
    {
        let Receiver { first, calls } = self;
        let calls = pushed(calls, call)?;
        Ok(Receiver { first, calls })
    }
}

impl Open {
    /// The highest precedence of what comes next in it.
    pub fn hole(&self) -> u8
        ensures { result ≡ machine.hole_of (open_view self.now) }
    {
        match self {
            Open::Minus(_) | Open::Not(_) => UNARY,
            Open::Chain(_, _, last) => last.op.precedence() - 1,
            Open::Compare(_, _) => COMPARISON - 1,
            _ => EXPRESSION,
        }
    }

    /// How many levels of nesting it opens.
    pub fn opens(&self) -> usize
        ensures { result ≡ opens self.now }
    {
        match self {
            Open::Chain(_, _, _) | Open::Compare(_, _) => 0,
            _ => 1,
        }
    }
}
