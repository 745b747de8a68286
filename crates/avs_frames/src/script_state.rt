// What was read of a script: what is open in it, and the parts of its tree so far.
use crate::around::Around;
use crate::state::{ExprState, Open};
use avs_tree::{Arm, Expr, Parameter, Script, Statement, TypeWord};
use fv_io::Text;

/// What an expression is for.
#[derive(Drop)]
pub enum Use {
    /// A statement of its own, or the name before `=`.
    Value,
    /// `global x =`
    Global(Text),
    /// `x =`
    Assign(Text),
    /// `return`
    Return,
    /// `if (`, or `else if (` after these arms
    Arm(Vec<Arm>),
    /// `while (`
    While,
    /// `for (x =`
    First(Text),
    /// `for (x = a,`
    Last(Text, Box<Expr>),
    /// `for (x = a, b,`
    Step(Text, Box<Expr>, Box<Expr>),
}

/// `for (x = a, b)` or `for (x = a, b, c)`
#[derive(Drop)]
pub struct ForHead {
    pub name: Text,
    pub first: Box<Expr>,
    pub last: Box<Expr>,
    pub step: Option<Box<Expr>>,
}

/// What braces in a statement belong to.
#[derive(Drop)]
pub enum Owner {
    /// `if (c)`, or `else if (c)` after these arms
    Arm(Vec<Arm>, Box<Expr>),
    /// `else` after these arms
    Else(Vec<Arm>),
    /// `while (c)`
    While(Box<Expr>),
    For(ForHead),
}

/// What a whole statement does. Its expressions are still in boxes.
pub enum Ended {
    Value(Box<Expr>),
    Global(Text, Box<Expr>),
    Assign(Text, Box<Expr>),
    Return(Box<Expr>),
    If(Vec<Arm>, Option<Vec<Statement>>),
    While(Box<Expr>, Vec<Statement>),
    For(ForHead, Vec<Statement>),
}

/// Open braces of a statement: its line, and the statements before it.
#[derive(Drop)]
pub struct Level {
    pub owner: Owner,
    pub line: u32,
    pub before: Vec<Statement>,
}

/// `function f(int a, int b`: a name and the parameters so far.
#[derive(Drop)]
pub struct Signature {
    pub name: Text,
    pub params: Vec<Parameter>,
}

/// Open braces of a function: its line, and the statements of the script before it.
#[derive(Drop)]
pub struct OpenFunction {
    pub signature: Signature,
    pub line: u32,
    pub before: Vec<Statement>,
}

/// What was read last of a statement.
#[derive(Drop)]
pub enum StatementState {
    /// A whole statement or nothing: a statement or newlines come next.
    StatementNext,
    /// A part of an expression.
    InExpression(Use, ExprState, Vec<Open>),
    /// `if`, `else if` or `while`: a parenthesis comes next.
    ParenthesisNext(Use),
    /// What braces belong to: newlines and a left brace come next.
    BracesNext(Owner),
    /// `if (c) {..}`, which `else` may follow
    AfterArm(Vec<Arm>),
    /// `if (c) {..} else`
    AfterElse(Vec<Arm>),
    /// `global`
    AfterGlobal,
    /// `global x`
    AfterGlobalName(Text),
    /// `for`
    AfterFor,
    /// `for (`
    ForOpened,
    /// `for (x`
    AfterForName(Text),
}

/// What was read last of the head of a function. A truth value says that further parameters have to be optional.
#[derive(Drop)]
pub enum HeadState {
    /// `function`
    AfterFunction,
    /// `function f`
    AfterName(Text),
    /// `function f(`
    Opened(Text),
    /// `function f(int a, int`
    AfterType(Signature, bool, TypeWord),
    /// `function f(int a`
    AfterParameter(Signature, bool),
    /// `function f(int a,`
    ParameterNext(Signature, bool),
    /// `function f(int a)`
    BracesNext(Signature),
}

/// What was read of a script. A function stands in no braces.
#[derive(Drop)]
pub enum State {
    Statement(StatementState, Around),
    Head(HeadState, Around),
}

/// What a token does to a script.
pub enum ScriptStep {
    /// The token cannot stand there.
    Refused,
    /// It is taken.
    Goes(State),
    /// It ends the script.
    Whole(Script),
}
