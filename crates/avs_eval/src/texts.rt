// Texts that a run executes beside the script: those of `Eval`, `Import` and functions.
ghost use Rattle.std.specs.Prelude.{◌≡◌, ◌<◌, ◌≤◌, length, IfSome, Err, ◌+◌, map, IfOk};
ghost use Rattle.avs_tree.specs.Sizes.{AreShort};
ghost use Rattle.avs_tree.specs.View.{block_view};
ghost use Rattle.avs_values.specs.Values.{text_limit};
ghost use Rattle.avs_parse.specs.Load.{script_of};
ghost use Rattle.avs_meaning.specs.Expressions as e;
ghost use Rattle.avs_meaning.specs.Meaning as m;
ghost use Rattle.avs_meaning.specs.declared.fault.ScriptKind.TheVariants as k;
ghost use Rattle.avs_state.specs.Hosts.{Told};
ghost use Rattle.avs_state.specs.Stops.{in_text};
ghost use Rattle.avs_state.specs.declared.stop.Stop.TheVariants as s;
ghost use Rattle.avs_state.specs.Steps.{Works};
ghost use Rattle.avs_state.specs.Units.{steps_a_unit};
ghost use Rattle.avs_state.specs.Walks.{Keeps, Runs, stop_in};
ghost use Rattle.avs_eval.specs.Bodies as b;
ghost use Rattle.avs_eval.specs.Bodies.{body_by, body_view};
ghost use Rattle.avs_eval.specs.OutsideBy.{context_in, outside_by};
ghost use Rattle.avs_eval.specs.Deeper.{Deeper};

use crate::walker::Walker;
use avs_meaning::{EvalError, ScriptKind};
use avs_parse::{LoadFault, Loaded, load};
use avs_state::{Host, RunState, Stop, stop_of};
use avs_tree::{Script, Statement};
use avs_values::Value;
use fv_io::Text;
use std::alloc::{AllocError, Global};

// The longest text.
const TEXT_LIMIT: usize = 1_048_576;

/// The statements of a text, and the line of its end, counted from 1.
#[derive(Drop)]
pub(crate) struct Body {
    pub(crate) statements: Vec<Statement>,
    pub(crate) last_line: u32,
}

// Why a text has no tree.
fn load_stop(fault: LoadFault) -> Stop
    ensures { result ≡ b.load_stop fault }
{
    match fault {
        LoadFault::Lex { kind, line } => Stop::Fault(ScriptKind::Lex(kind), line),
        LoadFault::Syntax { line } => Stop::Fault(ScriptKind::Syntax, line),
        LoadFault::NestLimit { line } => Stop::Fault(ScriptKind::NestLimit, line),
        LoadFault::Memory => Stop::Whole(EvalError::Memory),
    }
}

// Reads the text of this name and adds its functions.
#[tactic(auto, unfolding(crate::specs::Bodies::body_by))]
fn read_body(
    alloc: Global,
    state: &mut RunState,
    script_name: &Text,
    text: &Text,
) -> Result<Body, Stop>
    requires { length text.now ≤ text_limit }
    ensures runs { Runs body_view (body_by (script_of text.now) script_name.now) state.old
        (in_text script_name.now result) state.new }
    ensures short { IfOk result (λ body. AreShort steps_a_unit (block_view body.statements.items)) }
{
    match load(alloc, text.as_str()) {
        Ok(Loaded { script, last_line }) => {
            let Script {
                functions,
                statements,
            } = script;
            state.define_all(alloc, functions, script_name)?;
            Ok(Body {
                statements,
                last_line,
            })
        }
        Err(fault) => Err(load_stop(fault)),
    }
}

/// Reads the text of this name and adds its functions. The name is copied first, so that no fault takes memory for it.
pub(crate) fn load_body(
    alloc: Global,
    state: &mut RunState,
    script_name: &Text,
    text: &Text,
) -> Result<Body, EvalError>
    requires { length text.now ≤ text_limit }
    ensures runs { Runs body_view (body_by (script_of text.now) script_name.now) state.old result state.new }
    ensures short { IfOk result (λ body. AreShort steps_a_unit (block_view body.statements.items)) }
{
    let name = Text::from_str(alloc, script_name.as_str())?;
    match read_body(alloc, state, script_name, text) {
        Ok(body) => Ok(body),
        Err(stop) => Err(stop.named(name)),
    }
}

impl<
    't,
    H: Host,
    F: Fn(Global, &mut RunState, &mut H, u32, &Text, &[Statement]) -> Result<Value, EvalError>,
> Walker<'t, H, F> {
    /// Executes statements of the text of this name one call deeper.
    pub(crate) fn deeper(
        &self,
        state: &mut RunState,
        host: &mut H,
        script_name: &Text,
        body: &[Statement],
    ) -> Result<Value, EvalError>
        requires deeper { Deeper H.Host self.now.depth F.Fn self.now.run }
        requires room { 0 < self.now.depth }
        requires short { AreShort steps_a_unit (block_view body.now) }
        ensures told { Told H.told (λ v. v) (m.below (outside_by H.clips H.scripts) self.now.depth script_name.now (block_view
            body.now)) state.old result state.new }
        ensures kept { Keeps H.Host state.old host.old (stop_in result) state.new host.new }
        ensures work { Works 0 state.old state.new }
    {
        (self.run)(self.alloc, state, host, self.depth - 1, script_name, body)
    }

    // Executes a text that a call at a line has.
    #[tactic(auto, using(crate::proofs::BodyLemmas::executed, crate::proofs::BodyLemmas::execute_fails))]
    fn execute(
        &self,
        state: &mut RunState,
        host: &mut H,
        from: &Text,
        text: &Text,
        line: u32,
    ) -> Result<Value, Stop>
        requires deeper { Deeper H.Host self.now.depth F.Fn self.now.run }
        requires room { 0 < self.now.depth }
        ensures told { Told H.told (λ v. v)
            (e.execute (context_in H.Host self.now.depth) from.now text.now self.now.script_name.now line)
            state.old (in_text self.now.script_name.now result) state.new }
        ensures kept { Keeps H.Host state.old host.old (stop_in (in_text self.now.script_name.now result))
            state.new host.new }
        ensures limit { text_limit < length text.now → result ≡ Err (s.Fault k.TextLimit line) }
        ensures work { Works 0 state.old state.new }
    {
        if text.as_str().len() > TEXT_LIMIT {
            return Err(Stop::Fault(ScriptKind::TextLimit, line));
        }
        let body = load_body(self.alloc, state, from, text)?;
        Ok(self.deeper(state, host, from, &body.statements)?)
    }

    // Executes a text that the script made.
    fn execute_made(
        &self,
        state: &mut RunState,
        host: &mut H,
        text: &Text,
        line: u32,
    ) -> Result<Value, Stop>
        requires deeper { Deeper H.Host self.now.depth F.Fn self.now.run }
        requires room { 0 < self.now.depth }
        ensures told { Told H.told (λ v. v)
            (e.execute (context_in H.Host self.now.depth) e.eval_name text.now self.now.script_name.now line)
            state.old (in_text self.now.script_name.now result) state.new }
        ensures kept { Keeps H.Host state.old host.old (stop_in (in_text self.now.script_name.now result))
            state.new host.new }
        ensures work { Works 0 state.old state.new }
    {
        let from = Text::from_str(self.alloc, "Eval")?;
        self.execute(state, host, &from, text, line)
    }

    // `Eval` of a text.
    #[tactic(auto, unfolding(crate::specs::Bodies::eval_text))]
    fn eval_text(
        &self,
        state: &mut RunState,
        host: &mut H,
        text: &Text,
        line: u32,
    ) -> Result<Value, Stop>
        requires deeper { Deeper H.Host self.now.depth F.Fn self.now.run }
        ensures told { Told H.told (λ v. v)
            (b.eval_text (context_in H.Host self.now.depth) self.now.script_name.now text.now line)
            state.old (in_text self.now.script_name.now result) state.new }
        ensures kept { Keeps H.Host state.old host.old (stop_in (in_text self.now.script_name.now result))
            state.new host.new }
        ensures deep { self.now.depth ≡ 0 → result ≡ Err (s.Fault k.CallDepth line) }
        ensures work { Works 0 state.old state.new }
    {
        if self.depth == 0 {
            return Err(Stop::Fault(ScriptKind::CallDepth, line));
        }
        self.execute_made(state, host, text, line)
    }

    /// `Eval`.
    pub(crate) fn eval(
        &self,
        state: &mut RunState,
        host: &mut H,
        values: &[Value],
        line: u32,
    ) -> Result<Value, Stop>
        requires deeper { Deeper H.Host self.now.depth F.Fn self.now.run }
        ensures told { Told H.told (λ v. v)
            (e.eval (context_in H.Host self.now.depth) self.now.script_name.now values.now line)
            state.old (in_text self.now.script_name.now result) state.new }
        ensures kept { Keeps H.Host state.old host.old (stop_in (in_text self.now.script_name.now result))
            state.new host.new }
        ensures refused { IfSome (b.refused self.now.depth values.now) (λ kind. result ≡ Err (s.Fault kind line)) }
        ensures work { Works 0 state.old state.new }
    {
        match values {
            [Value::Text(text)] => self.eval_text(state, host, text, line),
            _ => Err(Stop::Fault(ScriptKind::NoMatch, line)),
        }
    }

    // The text of a script's file, which is read once, and counts as an import.
    fn script(
        &self,
        state: &mut RunState,
        host: &mut H,
        name: &Text,
        line: u32,
    ) -> Result<Text, Stop>
        ensures told { Told H.told (λ text. text) (e.script_by self.now.script_name.now (H.scripts name.now) line)
            state.old (in_text self.now.script_name.now result) state.new }
        ensures kept { Keeps H.Host state.old host.old (stop_in (in_text self.now.script_name.now result))
            state.new host.new }
        ensures work { Works 0 state.old state.new }
    {
        if !state.can_import() {
            return Err(Stop::Whole(EvalError::Memory));
        }
        let file = Text::from_str(self.alloc, name.as_str())?;
        match host.script(name) {
            Ok(text) => {
                state.count_import();
                Ok(text)
            }
            Err(fault) => Err(stop_of(fault, file, line)),
        }
    }

    /// `Import`: executes the script of a file.
    pub(crate) fn import(
        &self,
        state: &mut RunState,
        host: &mut H,
        values: &[Value],
        line: u32,
    ) -> Result<Value, Stop>
        requires deeper { Deeper H.Host self.now.depth F.Fn self.now.run }
        ensures told { Told H.told (λ v. v)
            (e.import_ (context_in H.Host self.now.depth) self.now.script_name.now values.now line)
            state.old (in_text self.now.script_name.now result) state.new }
        ensures kept { Keeps H.Host state.old host.old (stop_in (in_text self.now.script_name.now result))
            state.new host.new }
        ensures refused { IfSome (b.refused self.now.depth values.now) (λ kind. result ≡ Err (s.Fault kind line)) }
        ensures work { Works 0 state.old state.new }
    {
        let [Value::Text(file)] = values else {
            return Err(Stop::Fault(ScriptKind::NoMatch, line));
        };
        if self.depth == 0 {
            return Err(Stop::Fault(ScriptKind::CallDepth, line));
        }
        let text = self.script(state, host, file, line)?;
        self.execute(state, host, file, &text, line)
    }
}
