// `compile`: the expression that a text is.
ghost use Rattle.std.specs.Prelude.{Some};
ghost use Rattle.avs_parse.specs.Load.{script_of};
ghost use Rattle.avs_tree.specs.View as t;
ghost use Rattle.clip_term.specs.Expression as e;
ghost use Rattle.avs_meaning.specs.Arguments as c;
ghost use Rattle.avs_runtime.specs.Read.{Reads};

use crate::fault::RunFault;
use crate::numbers::is_number;
use crate::parts::part;
use avs_parse::{LoadFault, load};
use avs_tree::{Statement, StatementKind};
use clip_term::RunExpr;
use fv_io::Text;
use std::alloc::Global;

// How many bytes a text may have.
const LENGTH_LIMIT: usize = 4096;

/// The expression that a text is, for a test clip with chroma or without. `BadExpression` comes exactly where the text is
/// none.
#[tactic(auto, unfolding(avs_meaning::specs::Arguments::expression_in))]
pub fn compile(alloc: Global, text: &Text, chroma: bool) -> Result<RunExpr, RunFault>
    ensures { Reads (c.expression_in script_of chroma text.now) result }
{
    if text.as_str().len() > LENGTH_LIMIT {
        return Err(RunFault::BadExpression);
    }
    let loaded = match load(alloc, text.as_str()) {
        Ok(loaded) => loaded,
        Err(LoadFault::Memory) => return Err(RunFault::Memory),
        Err(_) => return Err(RunFault::BadExpression),
    };
    if !loaded.script.functions.is_empty() {
        return Err(RunFault::BadExpression);
    }
    of_statements(alloc, &loaded.script.statements, chroma)
}

// The expression of statements, where there is one alone.
#[tactic(auto, using(crate::proofs::CompileLemmas::alone, crate::proofs::CompileLemmas::not_alone))]
fn of_statements(alloc: Global, statements: &[Statement], chroma: bool) -> Result<RunExpr, RunFault>
    ensures { Reads (c.of_statements chroma (t.block_view statements.now)) result }
{
    let [only] = statements else {
        return Err(RunFault::BadExpression);
    };
    of_kind(alloc, &only.kind, chroma)
}

// The expression of a statement.
#[tactic(auto, using(crate::proofs::CompileLemmas::kinds))]
fn of_kind(alloc: Global, kind: &StatementKind, chroma: bool) -> Result<RunExpr, RunFault>
    ensures { Reads (c.of_kind chroma (t.kind_view kind.now)) result }
{
    match kind {
        StatementKind::Value(expr) => typed(part(alloc, expr)?, chroma),
        _ => Err(RunFault::BadExpression),
    }
}

// An expression that is a number.
fn typed(made: RunExpr, chroma: bool) -> Result<RunExpr, RunFault>
    ensures { Reads (c.typed chroma (Some (e.expr_view made))) result }
{
    let planes = if chroma { 3 } else { 1 };
    if is_number(&made, planes) {
        Ok(made)
    } else {
        Err(RunFault::BadExpression)
    }
}
