// The public call `eval`: a text becomes the graph of its clip, or a stop.
ghost use Rattle.std.specs.Prelude.{◌≡◌, ◌+◌, ◌*◌, ◌≤◌, ◌<◌, [], length, IsTrue, IfOk, OnOk};
ghost use Rattle.avs_tree.specs.Sizes.{AreShort};
ghost use Rattle.avs_tree.specs.View.{block_view};
ghost use Rattle.avs_values.specs.Values.{text_limit, Text as Name};
ghost use Rattle.avs_meaning.specs.Meaning.{clip_or_not, executed, text_meaning, to_clip};
ghost use Rattle.avs_state.specs.Answers.{Gives};
ghost use Rattle.avs_state.specs.Hosts.{Told};
ghost use Rattle.avs_eval.specs.OutsideBy.{outside_by};
ghost use Rattle.avs_state.specs.States.{state_of};
ghost use Rattle.avs_eval.specs.Evaluates.{Evaluates, Opens, CountsFaults, FetchesAll, text_units};
ghost use Rattle.avs_state.specs.Stops.{in_text, TakesNone};
ghost use Rattle.avs_state.specs.Steps.{Works};
ghost use Rattle.avs_state.specs.Units.{steps_a_unit};
ghost use Rattle.avs_state.specs.Walks.{Keeps, stop_in};

use crate::depth::run;
use crate::texts::load_body;
use avs_meaning::{Crew, EvalError, ScriptKind};
use avs_state::{Host, RunState, Stop};
use avs_tree::Statement;
use avs_values::Value;
use clip_graph::Graph;
use fv_io::Text;
use std::alloc::Global;

/// How many calls may nest.
const CALL_LIMIT: u32 = 64;

/// The graph of a script's clips, the node of its clip, and the workers that the last call of `Prefetch` asked for.
#[derive(Drop)]
pub struct Opened {
    pub graph: Graph,
    pub root: u32,
    pub prefetch: Option<Crew>,
}

// The place of the clip that the value of a script is.
fn clip_of(state: &RunState, value: Value, line: u32) -> Result<u32, Stop>
    ensures gives { (here : Name) → Gives (λ i. i) (clip_or_not here line value (state_of state.now))
        (in_text here result) (state_of state.now) }
    ensures memory { TakesNone result }
    ensures inside { IfOk result (λ i. i < length (state_of state.now).plan) }
{
    let Value::Clip(i) = value else {
        return Err(Stop::Fault(ScriptKind::NotClip, line));
    };
    state.info_of(i, line)?;
    Ok(i)
}

// Executes the statements of a script, whose value is a clip.
#[tactic(auto, using(crate::proofs::RunLemmas::run_fails, crate::proofs::RunLemmas::run_ends))]
fn clip_of_run<H: Host>(
    alloc: Global,
    state: &mut RunState,
    host: &mut H,
    name: &Text,
    statements: &[Statement],
    last_line: u32,
) -> Result<u32, Stop>
    requires { AreShort steps_a_unit (block_view statements.now) }
    ensures told { Told H.told (λ i. i) (to_clip (outside_by H.clips H.scripts) name.now (block_view statements.now)
        last_line) state.old (in_text name.now result) state.new }
    ensures kept { Keeps H.Host state.old host.old (stop_in (in_text name.now result)) state.new host.new }
    ensures inside { IfOk result (λ i. i < length (state_of state.new).plan) }
    ensures work { Works 0 state.old state.new }
{
    let value = run(alloc, state, host, CALL_LIMIT, name, statements)?;
    clip_of(state, value, last_line)
}

// Executes a text as the script of this name.
fn execute<H: Host>(
    alloc: Global,
    state: &mut RunState,
    host: &mut H,
    name: &Text,
    text: &Text,
) -> Result<u32, Stop>
    requires { length text.now ≤ text_limit }
    ensures told { Told H.told (λ i. i) (executed (outside_by H.clips H.scripts) name.now text.now)
        state.old (in_text name.now result) state.new }
    ensures kept { Keeps H.Host state.old host.old (stop_in (in_text name.now result)) state.new host.new }
    ensures inside { IfOk result (λ i. i < length (state_of state.new).plan) }
    ensures work { Works 0 state.old state.new }
{
    let body = load_body(alloc, state, name, text)?;
    clip_of_run(alloc, state, host, name, &body.statements, body.last_line)
}

// The place of the clip of a text, as the script of this name, which is copied first, so that no fault takes memory.
fn root_of<H: Host>(
    alloc: Global,
    state: &mut RunState,
    host: &mut H,
    name: &Text,
    text: &Text,
) -> Result<u32, EvalError>
    requires { length text.now ≤ text_limit }
    ensures told { Told H.told (λ i. i) (executed (outside_by H.clips H.scripts) name.now text.now)
        state.old result state.new }
    ensures kept { Keeps H.Host state.old host.old (stop_in result) state.new host.new }
    ensures inside { IfOk result (λ i. i < length (state_of state.new).plan) }
    ensures work { Works 0 state.old state.new }
{
    let script_name = Text::from_str(alloc, name.as_str())?;
    match execute(alloc, state, host, name, text) {
        Ok(root) => Ok(root),
        Err(stop) => Err(stop.named(script_name)),
    }
}

/// What `eval` answers, how many steps it took, and how many units were paid.
pub struct Evaluated {
    pub answer: Result<Opened, EvalError>,
    pub steps: u64,
    pub units: u32,
}

/// The same as `eval`, with how many steps it took, whatever the answer is. A step is that an expression is given its
/// value, or that a method call is made. A unit is paid for each statement and each turn of a loop.
pub fn eval_in_steps<H: Host>(alloc: Global, host: &mut H, name: &Text, text: &Text) -> Evaluated
    requires short { length text.now ≤ text_limit }
    requires none { H.opened host.old ≡ [] }
    ensures told { IsTrue H.told
        → Evaluates (text_meaning (outside_by H.clips H.scripts) name.now text.now) result.answer }
    ensures opened { IfOk result.answer (λ opened. Opens opened (H.opened host.new)) }
    ensures fetched { IsTrue H.told → OnOk result.answer (FetchesAll H.Host name.now text.now host.old host.new) }
    ensures later { H.faults host.old ≤ H.faults host.new }
    ensures more { H.fetched host.old ≤ H.fetched host.new }
    ensures faults { CountsFaults result.answer (H.faults host.old) (H.faults host.new) }
    // A unit pays for at most so many steps, and at most so many units are paid: as many as the script's meaning pays.
    ensures steps { result.steps ≤ 1048576 * result.units }
    ensures units { result.units ≤ 1000000 }
    ensures paid { IsTrue H.told → OnOk result.answer (result.units ≡ text_units (outside_by H.clips H.scripts)
        name.now text.now) }
{
    let mut state = RunState::new(alloc);
    let root = root_of(alloc, &mut state, host, name, text);
    let steps = state.steps();
    let units = state.paid();
    match root {
        Ok(root) => {
            let prefetch = state.crew();
            let graph = state.into_graph();
            let answer = Ok(Opened {
                graph,
                root,
                prefetch,
            });
            Evaluated {
                answer,
                steps,
                units,
            }
        }
        Err(stop) => Evaluated {
            answer: Err(stop),
            steps,
            units,
        },
    }
}

/// Evaluates a text as the script of this name, over a host that has opened nothing.
///
/// The host keeps the clips that it opened, whatever the answer is. A text has at most 1,048,576 bytes.
pub fn eval<H: Host>(
    alloc: Global,
    host: &mut H,
    name: &Text,
    text: &Text,
) -> Result<Opened, EvalError>
    requires short { length text.now ≤ text_limit }
    requires none { H.opened host.old ≡ [] }
    // Where the host tells its files, the answer is the script's meaning there.
    ensures told { IsTrue H.told → Evaluates (text_meaning (outside_by H.clips H.scripts) name.now text.now) result }
    // The sources of the graph are the clips that the host gave, in their order.
    ensures opened { IfOk result (λ opened. Opens opened (H.opened host.new)) }
    // A file is fetched for each clip that is opened, and for each Import that reads a script.
    ensures fetched { IsTrue H.told → OnOk result (FetchesAll H.Host name.now text.now host.old host.new) }
    ensures later { H.faults host.old ≤ H.faults host.new }
    ensures more { H.fetched host.old ≤ H.fetched host.new }
    // Only a failed read counts a fault, so none is tried again.
    ensures faults { CountsFaults result (H.faults host.old) (H.faults host.new) }
{
    let Evaluated {
        answer,
        steps: _,
        units: _,
    } = eval_in_steps(alloc, host, name, text);
    answer
}
