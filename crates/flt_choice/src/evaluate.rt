// The value of an expression, by the statistics that it names.
ghost use Rattle.std.specs.Prelude.{◌≡◌, map};
ghost use Rattle.std.specs.Int.{int_min, int_max};
ghost use Rattle.clip_term.specs.Expression as e;
ghost use Rattle.clip_term.specs.Expression.{expr_view, step_view, exprs_of, steps_of};
ghost use Rattle.flt_choice.specs.Table.{stats_in, stat_number};

use clip_term::{PlaneStat, RunExpr, RunOper, RunStep};

/// The place of a statistic among those of a plane.
pub(crate) fn stat_number(stat: PlaneStat) -> usize
    ensures { result ≡ stat_number stat }
{
    match stat {
        PlaneStat::Least => 0,
        PlaneStat::Greatest => 1,
        PlaneStat::Median => 2,
    }
}

// The statistic of a plane that the table has, or 0.
fn statistic(table: &[u16], plane: u32, stat: PlaneStat) -> u16
    ensures { result ≡ stats_in table.now plane stat }
{
    match table.get(3 * plane as usize + stat_number(stat)) {
        Some(value) => *value,
        None => 0,
    }
}

fn quotient(a: i64, b: i64) -> Option<i64>
    ensures { result ≡ e.by_oper RunOper.Divide a b }
{
    if b == 0 {
        return None;
    }
    a.checked_div(b)
}

fn remainder(a: i64, b: i64) -> Option<i64>
    ensures { result ≡ e.by_oper RunOper.Remainder a b }
{
    if b == 0 {
        return None;
    }
    Some(a.wrapping_rem(b))
}

fn operated(op: RunOper, a: i64, b: i64) -> Option<i64>
    ensures { result ≡ e.by_oper op a b }
{
    match op {
        RunOper::Plus => a.checked_add(b),
        RunOper::Minus => a.checked_sub(b),
        RunOper::Times => a.checked_mul(b),
        RunOper::Divide => quotient(a, b),
        RunOper::Remainder => remainder(a, b),
        _ => None,
    }
}

fn both_operated(op: RunOper, a: Option<i64>, b: Option<i64>) -> Option<i64>
    ensures { result ≡ e.both_of (e.by_oper op) a b }
{
    match (a, b) {
        (Some(a), Some(b)) => operated(op, a, b),
        _ => None,
    }
}

fn lesser(a: Option<i64>, b: Option<i64>) -> Option<i64>
    ensures { result ≡ e.both_of (e.picked int_min) a b }
{
    match (a, b) {
        (Some(a), Some(b)) => Some(a.min(b)),
        _ => None,
    }
}

fn greater(a: Option<i64>, b: Option<i64>) -> Option<i64>
    ensures { result ≡ e.both_of (e.picked int_max) a b }
{
    match (a, b) {
        (Some(a), Some(b)) => Some(a.max(b)),
        _ => None,
    }
}

fn absolute(a: Option<i64>) -> Option<i64>
    ensures { result ≡ e.one_of e.absolute a }
{
    match a {
        Some(a) => a.checked_abs(),
        None => None,
    }
}

fn negative(a: Option<i64>) -> Option<i64>
    ensures { result ≡ e.one_of e.negative a }
{
    match a {
        Some(a) => a.checked_neg(),
        None => None,
    }
}

/// The value of an expression at frame `n`, by a table of the statistics that it names.
#[cycle(evaluate)]
#[tactic(auto, using(crate::proofs::EvaluateLemmas::evaluating))]
pub(crate) fn evaluate(expr: &RunExpr, n: u32, table: &[u16]) -> Option<i64>
    ensures { result ≡ e.value n (stats_in table.now) (expr_view expr.now) }
{
    match expr {
        RunExpr::Int(number) => Some(*number),
        RunExpr::CurrentFrame => Some(n as i64),
        RunExpr::Plane { plane, stat } => Some(statistic(table, *plane, *stat) as i64),
        RunExpr::Abs(inside) => absolute(evaluate(inside, n, table)),
        RunExpr::Min(all) => least_of(all, n, table),
        RunExpr::Max(all) => greatest_of(all, n, table),
        RunExpr::Minus(inside) => negative(evaluate(inside, n, table)),
        RunExpr::Chain { first, rest } => along(evaluate(first, n, table), rest, n, table),
        RunExpr::Group(inside) => evaluate(inside, n, table),
        RunExpr::Bool(_) | RunExpr::Not(_) | RunExpr::Compare { .. } => None,
    }
}

#[cycle(evaluate)]
#[tactic(auto, using(crate::proofs::EvaluateLemmas::evaluating, crate::proofs::EvaluateLemmas::exprs_more))]
fn least_of(all: &[RunExpr], n: u32, table: &[u16]) -> Option<i64>
    ensures { result ≡ e.of_all int_min n (stats_in table.now) (exprs_of (map expr_view all.now)) }
{
    let [first, rest @ ..] = all else {
        return None;
    };
    let mut least = evaluate(first, n, table);
    for expr in rest {
        least = lesser(least, evaluate(expr, n, table));
    }
    least
}

#[cycle(evaluate)]
#[tactic(auto, using(crate::proofs::EvaluateLemmas::evaluating, crate::proofs::EvaluateLemmas::exprs_more))]
fn greatest_of(all: &[RunExpr], n: u32, table: &[u16]) -> Option<i64>
    ensures { result ≡ e.of_all int_max n (stats_in table.now) (exprs_of (map expr_view all.now)) }
{
    let [first, rest @ ..] = all else {
        return None;
    };
    let mut greatest = evaluate(first, n, table);
    for expr in rest {
        greatest = greater(greatest, evaluate(expr, n, table));
    }
    greatest
}

// The operators of a chain, from the left.
#[cycle(evaluate)]
#[tactic(auto, using(crate::proofs::EvaluateLemmas::evaluating, crate::proofs::EvaluateLemmas::steps_more))]
fn along(first: Option<i64>, rest: &[RunStep], n: u32, table: &[u16]) -> Option<i64>
    ensures { result ≡ e.along n (stats_in table.now) first (steps_of (map step_view rest.now)) }
{
    let mut value = first;
    for step in rest {
        value = both_operated(step.op, value, evaluate(&step.operand, n, table));
    }
    value
}

/// Whether an expression names this statistic.
#[cycle(asks)]
#[tactic(auto, using(crate::proofs::EvaluateLemmas::evaluating))]
pub(crate) fn asks(expr: &RunExpr, plane: u32, stat: PlaneStat) -> bool
    ensures { result ≡ e.asks plane stat (expr_view expr.now) }
{
    match expr {
        RunExpr::Plane {
            plane: other,
            stat: named,
        } => plane == *other && same_stat(stat, *named),
        RunExpr::Abs(inside) | RunExpr::Minus(inside) | RunExpr::Group(inside) => {
            asks(inside, plane, stat)
        }
        RunExpr::Min(all) | RunExpr::Max(all) => any_asks(all, plane, stat),
        RunExpr::Chain { first, rest } => {
            asks(first, plane, stat) || steps_ask(rest, plane, stat)
        }
        RunExpr::Int(_)
        | RunExpr::CurrentFrame
        | RunExpr::Bool(_)
        | RunExpr::Not(_)
        | RunExpr::Compare { .. } => false,
    }
}

fn same_stat(a: PlaneStat, b: PlaneStat) -> bool
    ensures { result ≡ e.same_stat a b }
{
    a == b
}

#[cycle(asks)]
#[tactic(auto, using(crate::proofs::EvaluateLemmas::evaluating, crate::proofs::EvaluateLemmas::exprs_more))]
fn any_asks(all: &[RunExpr], plane: u32, stat: PlaneStat) -> bool
    ensures { result ≡ e.any_asks plane stat (exprs_of (map expr_view all.now)) }
{
    for expr in all {
        if asks(expr, plane, stat) {
            return true;
        }
    }
    false
}

#[cycle(asks)]
#[tactic(auto, using(crate::proofs::EvaluateLemmas::evaluating, crate::proofs::EvaluateLemmas::steps_more))]
fn steps_ask(rest: &[RunStep], plane: u32, stat: PlaneStat) -> bool
    ensures { result ≡ e.steps_ask plane stat (steps_of (map step_view rest.now)) }
{
    for step in rest {
        if asks(&step.operand, plane, stat) {
            return true;
        }
    }
    false
}
