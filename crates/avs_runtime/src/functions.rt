// Names with arguments: functions of numbers.
ghost use Rattle.std.specs.Prelude.{◌≡◌, map, IfOk};
ghost use Rattle.clip_term.specs.Expression as e;
ghost use Rattle.avs_meaning.specs.Arguments as c;
ghost use Rattle.avs_runtime.specs.Read.{Reads};

use crate::fault::RunFault;
use crate::names::named;
use clip_term::RunExpr;
use std::alloc::{AllocError, Global};

/// An expression in a box.
pub fn in_box(alloc: Global, expr: RunExpr) -> Result<Box<RunExpr>, AllocError>
    ensures { IfOk result (λ made. made.value ≡ expr) }
{
    Ok(Box::new(alloc, expr)?)
}

// `Abs`, of one argument.
fn absolute(alloc: Global, args: Vec<RunExpr>) -> Result<RunExpr, RunFault>
    ensures { Reads (c.absolute (map e.expr_view args.items)) result }
{
    let mut args = args;
    if args.len() != 1 {
        return Err(RunFault::BadExpression);
    }
    match args.pop() {
        Some(one) => Ok(RunExpr::Abs(in_box(alloc, one)?)),
        None => Err(RunFault::BadExpression),
    }
}

// `Min`, of two arguments or more.
fn least(args: Vec<RunExpr>) -> Result<RunExpr, RunFault>
    ensures { Reads (c.least (map e.expr_view args.items)) result }
{
    if args.len() < 2 {
        return Err(RunFault::BadExpression);
    }
    Ok(RunExpr::Min(args))
}

// `Max`, of two arguments or more.
fn greatest(args: Vec<RunExpr>) -> Result<RunExpr, RunFault>
    ensures { Reads (c.greatest (map e.expr_view args.items)) result }
{
    if args.len() < 2 {
        return Err(RunFault::BadExpression);
    }
    Ok(RunExpr::Max(args))
}

/// The expression that a name with arguments is. Without any it is as the name alone.
pub fn called(alloc: Global, name: &str, args: Vec<RunExpr>) -> Result<RunExpr, RunFault>
    ensures { Reads (c.called name.now (map e.expr_view args.items)) result }
{
    if args.is_empty() {
        return named(name);
    }
    if name.eq_ignore_ascii_case("Abs") {
        return absolute(alloc, args);
    }
    if name.eq_ignore_ascii_case("Min") {
        return least(args);
    }
    if name.eq_ignore_ascii_case("Max") {
        return greatest(args);
    }
    Err(RunFault::BadExpression)
}
