// The types of the trees of scripts: expressions, statements, functions.
use crate::words::TypeWord;
use fv_io::Text;

/// A script. Its functions and its statements are each in the order of the text.
#[derive(Drop)]
pub struct Script {
    pub functions: Vec<Function>,
    pub statements: Vec<Statement>,
}

/// A function with its parameters and the statements of its body.
#[derive(Drop)]
pub struct Function {
    pub name: Text,
    pub params: Vec<Parameter>,
    pub body: Vec<Statement>,
    pub line: u32,
}

/// A parameter. An optional one is written as a string.
#[derive(Drop)]
pub struct Parameter {
    pub name: Text,
    pub word: TypeWord,
    pub optional: bool,
}

/// A statement and the line of its first token.
#[cycle(statements)]
#[derive(Drop)]
pub struct Statement {
    pub kind: StatementKind,
    pub line: u32,
}

/// What a statement does.
#[cycle(statements)]
#[derive(Drop)]
pub enum StatementKind {
    Global {
        name: Text,
        value: Expr,
    },
    Assign {
        name: Text,
        value: Expr,
    },
    Return(Expr),
    /// `if`, with one more arm for each `else if`.
    If {
        arms: Vec<Arm>,
        other: Option<Vec<Statement>>,
    },
    While {
        condition: Expr,
        body: Vec<Statement>,
    },
    For {
        name: Text,
        first: Expr,
        last: Expr,
        step: Option<Expr>,
        body: Vec<Statement>,
    },
    Value(Expr),
}

/// A condition and what is done where it holds.
#[cycle(statements)]
#[derive(Drop)]
pub struct Arm {
    pub condition: Expr,
    pub body: Vec<Statement>,
}

/// An expression. A chain of operators of one precedence is a list, and parentheses are a group. A line is that of the
/// name, the operator or the `?`.
#[cycle(expressions)]
#[derive(Drop)]
pub enum Expr {
    Int(i64),
    Bool(bool),
    Str(Text),
    Name {
        name: Text,
        line: u32,
    },
    Call {
        name: Text,
        args: Vec<Arg>,
        line: u32,
    },
    /// Method calls: `first.f(..).g`.
    Dots {
        first: Box<Expr>,
        calls: Vec<DotCall>,
    },
    Minus {
        operand: Box<Expr>,
        line: u32,
    },
    Not {
        operand: Box<Expr>,
        line: u32,
    },
    Chain {
        first: Box<Expr>,
        rest: Vec<Step>,
    },
    Compare {
        op: Operator,
        left: Box<Expr>,
        right: Box<Expr>,
        line: u32,
    },
    /// `condition ? yes : no`
    Pick {
        condition: Box<Expr>,
        yes: Box<Expr>,
        no: Box<Expr>,
        line: u32,
    },
    Group(Box<Expr>),
}

/// An argument, with a name or without.
#[cycle(expressions)]
#[derive(Drop)]
pub struct Arg {
    pub name: Option<Text>,
    pub value: Expr,
}

/// A method call: a name after a dot, with arguments or without.
#[cycle(expressions)]
#[derive(Drop)]
pub struct DotCall {
    pub name: Text,
    pub args: Option<Vec<Arg>>,
    pub line: u32,
}

/// An operator of a chain and the operand after it.
#[cycle(expressions)]
#[derive(Drop)]
pub struct Step {
    pub op: Operator,
    pub operand: Expr,
    pub line: u32,
}

/// An operator between two operands.
#[derive(Clone, Copy, Debug, PartialEq, Eq)]
pub enum Operator {
    Or,
    And,
    Equal,
    NotEqual,
    Less,
    LessEqual,
    Greater,
    GreaterEqual,
    Plus,
    Minus,
    PlusPlus,
    Times,
    Divide,
    Remainder,
}

impl Operator {
    ghost use Rattle.std.specs.Prelude.{◌≡◌};
    ghost use Rattle.avs_tree.specs.Lexeme.{precedence_of};

    /// The precedence of the operator. A product binds tightest.
    pub fn precedence(self) -> u8
        ensures { result ≡ precedence_of self }
    {
        match self {
            Operator::Times | Operator::Divide | Operator::Remainder => 3,
            Operator::Plus | Operator::Minus | Operator::PlusPlus => 4,
            Operator::Equal
            | Operator::NotEqual
            | Operator::Less
            | Operator::LessEqual
            | Operator::Greater
            | Operator::GreaterEqual => 5,
            Operator::And => 6,
            Operator::Or => 7,
        }
    }
}
