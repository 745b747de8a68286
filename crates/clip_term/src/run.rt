// The filters that choose a clip for each frame, with their expressions.
use crate::Filter;

/// A statistic of the samples of a plane.
#[derive(Clone, Copy, Debug, PartialEq, Eq)]
pub enum PlaneStat {
    Least,
    Greatest,
    /// The least value such that at least half of the samples are no greater.
    Median,
}

/// An operator between two parts of an expression.
#[derive(Clone, Copy, Debug, PartialEq, Eq)]
pub enum RunOper {
    Or,
    And,
    Equal,
    NotEqual,
    Less,
    LessEqual,
    Greater,
    GreaterEqual,
    Plus,
    Minus,
    Times,
    Divide,
    Remainder,
}

/// An expression that is evaluated for each frame.
#[cycle(run_expressions)]
#[derive(Drop)]
pub enum RunExpr {
    Int(i64),
    Bool(bool),
    /// The number of the frame.
    CurrentFrame,
    /// A statistic of a plane of the test clip's frame. Plane 0 is Y, 1 is U, 2 is V.
    Plane {
        plane: u32,
        stat: PlaneStat,
    },
    Abs(Box<RunExpr>),
    Min(Vec<RunExpr>),
    Max(Vec<RunExpr>),
    Minus(Box<RunExpr>),
    Not(Box<RunExpr>),
    Chain {
        first: Box<RunExpr>,
        rest: Vec<RunStep>,
    },
    Compare {
        op: RunOper,
        left: Box<RunExpr>,
        right: Box<RunExpr>,
    },
    Group(Box<RunExpr>),
}

/// An operator of a chain and the operand after it.
#[cycle(run_expressions)]
#[derive(Drop)]
pub struct RunStep {
    pub op: RunOper,
    pub operand: RunExpr,
}

/// A comparison of two expressions.
#[derive(Clone, Copy, Debug, PartialEq, Eq)]
pub enum RunCompare {
    Equals,
    Greater,
    Less,
}

/// A clip is chosen for each frame.
pub enum RunOp {
    /// The source of this number, or the test.
    Select {
        expr: RunExpr,
    },
    /// The first of two sources where the comparison holds, else the second.
    Filter {
        left: RunExpr,
        op: RunCompare,
        right: RunExpr,
    },
}

// Written, so that who drops an op has one call in its proof, and not the parts of each expression.
impl Drop for RunOp {
    fn drop(self) {
        match self {
            RunOp::Select { expr: _ } => {}
            RunOp::Filter {
                left: _,
                op: _,
                right: _,
            } => {}
        }
    }
}

impl RunOp {
    ghost use Rattle.std.specs.Prelude.{◌≡◌};
    ghost use Rattle.clip_term.specs.Choice.{run_act};
    ghost use Rattle.clip_term.specs.Choice.{run_filter};

    /// The filter that it is.
    pub(crate) fn filter(&self) -> Filter
        ensures { result ≡ run_filter (run_act self.now) }
    {
        match self {
            RunOp::Select { .. } => Filter::ConditionalSelect,
            RunOp::Filter { .. } => Filter::ConditionalFilter,
        }
    }
}
