// Statements, where so many calls may nest.
ghost use Rattle.std.specs.Prelude.{◌+◌, ◌≤◌};
ghost use Rattle.avs_tree.specs.Sizes.{AreShort};
ghost use Rattle.avs_tree.specs.View.{block_view};
ghost use Rattle.avs_meaning.specs.Meaning as m;
ghost use Rattle.avs_state.specs.Hosts.{Told};
ghost use Rattle.avs_eval.specs.OutsideBy.{outside_by};
ghost use Rattle.avs_state.specs.Steps.{Works};
ghost use Rattle.avs_state.specs.Units.{steps_a_unit};
ghost use Rattle.avs_state.specs.Walks.{Keeps, stop_in};

use crate::walker::Walker;
use avs_meaning::EvalError;
use avs_state::{Host, RunState};
use avs_statements::body_of;
use avs_tree::Statement;
use avs_values::Value;
use fv_io::Text;
use std::alloc::Global;
use std::marker::PhantomData;

/// Executes the statements of a text or a function, where so many calls may nest. The name of the text is copied first, so
/// that no fault takes memory.
pub(crate) fn run<H: Host>(
    alloc: Global,
    state: &mut RunState,
    host: &mut H,
    depth: u32,
    script_name: &Text,
    body: &[Statement],
) -> Result<Value, EvalError>
    requires short { AreShort steps_a_unit (block_view body.now) }
    ensures told { Told H.told (λ x. x) (m.run (outside_by H.clips H.scripts) depth script_name.now (block_view
        body.now))
        state.old result state.new }
    ensures kept { Keeps H.Host state.old host.old (stop_in result) state.new host.new }
    ensures work { Works 0 state.old state.new }
{
    let name = Text::from_str(alloc, script_name.as_str())?;
    let walker = Walker {
        alloc,
        script_name,
        depth,
        run: run::<H>,
        of: PhantomData,
    };
    match body_of(alloc, &walker, state, host, body) {
        Ok(value) => Ok(value),
        Err(stop) => Err(stop.named(name)),
    }
}
