// The value of an expression for a frame.
ghost use Rattle.std.specs.Prelude.{◌≡◌, ◌<◌, ◌||◌, true, IfOk};
ghost use Rattle.clip_term.specs.Expression.{asks, expr_view, value};
ghost use Rattle.flt_choice.specs.Table.{stat_number, stats_of, HasNamed};

use crate::evaluate::{asks, evaluate, stat_number};
use crate::stats::statistic;
use clip_term::{PlaneStat, RunExpr};
use fv_plane::Frame;
use std::alloc::{AllocError, Global};

// The statistic of this place among those of a plane.
fn stat_at(place: usize) -> PlaneStat
    requires { place < 3 }
    ensures { stat_number result ≡ place }
{
    match place {
        0 => PlaneStat::Least,
        1 => PlaneStat::Greatest,
        _ => PlaneStat::Median,
    }
}

// A statistic of a plane, where it is named and the format has the plane.
fn statistic_if(
    alloc: Global,
    frame: &Frame,
    plane: u32,
    stat: PlaneStat,
    named: bool,
) -> Result<u16, AllocError>
    ensures { IfOk result (λ v. named ≡ true → v ≡ stats_of frame.now plane stat) }
{
    if !named || plane >= frame.shape().kind.planes() {
        return Ok(0);
    }
    statistic(alloc, frame, plane, stat)
}

// Whether one of two expressions names this statistic.
fn either_asks(first: &RunExpr, second: &RunExpr, plane: u32, stat: PlaneStat) -> bool
    ensures { result ≡ asks plane stat (expr_view first.now) || asks plane stat (expr_view second.now) }
{
    asks(first, plane, stat) || asks(second, plane, stat)
}

/// The statistics of a frame that two expressions name, each in one pass. An `Err` is out of memory.
pub(crate) fn named_statistics(
    alloc: Global,
    frame: &Frame,
    first: &RunExpr,
    second: &RunExpr,
) -> Result<[u16; 9], AllocError>
    ensures { IfOk result (λ table. HasNamed frame.now (expr_view first.now) (expr_view second.now) table) }
{
    let mut table = [0u16; 9];
    for place in 0..9usize {
        let plane = (place / 3) as u32;
        let stat = stat_at(place % 3);
        let named = either_asks(first, second, plane, stat);
        table[place] = statistic_if(alloc, frame, plane, stat, named)?;
    }
    Ok(table)
}

/// The value of an expression at frame `n` by the test clip's frame. `None` comes exactly where a result leaves 64 bits,
/// a divisor is 0, or a part is no number. Only the statistics that the expression names are made, each once. An `Err` is
/// out of memory.
pub fn value_of(
    alloc: Global,
    expr: &RunExpr,
    n: u32,
    test: &Frame,
) -> Result<Option<i64>, AllocError>
    ensures { IfOk result (λ found. found ≡ value n (stats_of test.now) (expr_view expr.now)) }
{
    let table = named_statistics(alloc, test, expr, expr)?;
    Ok(evaluate(expr, n, &table))
}
