// Calls of the script's functions, of built-in functions and of filters, by name and with bound arguments.
ghost use Rattle.std.specs.Prelude.{◌≡◌, ◌<◌, Err, IfErr, ◌+◌, ◌≤◌};
ghost use Rattle.avs_values.specs.Views.{bound_view};
ghost use Rattle.avs_meaning.specs.Expressions as e;
ghost use Rattle.avs_meaning.specs.Filters as f;
ghost use Rattle.avs_meaning.specs.declared.fault.ScriptKind.TheVariants as k;
ghost use Rattle.avs_state.specs.Hosts.{Told};
ghost use Rattle.avs_state.specs.Stops.{in_text};
ghost use Rattle.avs_state.specs.declared.stop.Stop.TheVariants as s;
ghost use Rattle.avs_state.specs.Steps.{Works};
ghost use Rattle.avs_state.specs.Walks.{Keeps, stop_in};
ghost use Rattle.avs_eval.specs.OutsideBy.{context_in, outside_by};
ghost use Rattle.avs_state.specs.States.{defined_view};
ghost use Rattle.avs_expressions.specs.Views.{callee_view};
ghost use Rattle.avs_eval.specs.Deeper.{Deeper};
ghost use Rattle.avs_eval.specs.Ranges as g;

use crate::ranges::{positional_args, range_in};
use crate::walker::Walker;
use avs_calls::{apply_filter, clip_property, plain, prefetch, ranged, set_mode, signatures};
use avs_expressions::{Callee, called, fit_or_last, parameters, signature_of};
use avs_meaning::{Builtin, EvalError, ScriptKind, Variable};
use avs_state::{ByName, Definition, Host, RunState, Stop, stop_of};
use avs_tree::Statement;
use avs_values::{Bound, Given, Value};
use clip_term::Filter;
use fv_io::Text;
use std::alloc::{AllocError, Global};

impl<
    't,
    H: Host,
    F: Fn(Global, &mut RunState, &mut H, u32, &Text, &[Statement]) -> Result<Value, EvalError>,
> Walker<'t, H, F> {
    // Opens the clip of a file.
    fn open(
        &self,
        state: &mut RunState,
        host: &mut H,
        name: &Text,
        line: u32,
    ) -> Result<Value, Stop>
        ensures told { Told H.told (λ v. v) (f.open_by self.now.script_name.now (H.clips name.now) name.now line)
            state.old (in_text self.now.script_name.now result) state.new }
        ensures kept { Keeps H.Host state.old host.old (stop_in (in_text self.now.script_name.now result))
            state.new host.new }
        ensures work { Works 0 state.old state.new }
    {
        let file = Text::from_str(self.alloc, name.as_str())?;
        match host.clip(name) {
            Ok(info) => state.add_source(self.alloc, file, info, line),
            Err(fault) => Err(stop_of(fault, file, line)),
        }
    }

    // `Y4MSource`.
    fn open_source(
        &self,
        state: &mut RunState,
        host: &mut H,
        values: &[Value],
        line: u32,
    ) -> Result<Value, Stop>
        ensures told { Told H.told (λ v. v)
            (f.open_source self.now.script_name.now (outside_by H.clips H.scripts) values.now line)
            state.old (in_text self.now.script_name.now result) state.new }
        ensures kept { Keeps H.Host state.old host.old (stop_in (in_text self.now.script_name.now result))
            state.new host.new }
        ensures work { Works 0 state.old state.new }
    {
        match values {
            [Value::Text(name)] => self.open(state, host, name, line),
            _ => Err(Stop::Fault(ScriptKind::NoMatch, line)),
        }
    }

    // Executes a function of the script with variables of its own.
    fn inside(
        &self,
        state: &mut RunState,
        host: &mut H,
        definition: &Definition,
        env: ByName<Variable>,
    ) -> Result<Value, Stop>
        requires deeper { Deeper H.Host self.now.depth F.Fn self.now.run }
        requires room { 0 < self.now.depth }
        ensures told { Told H.told (λ v. v) (e.inside (context_in H.Host self.now.depth) (defined_view definition.now)
            env)
            state.old (in_text self.now.script_name.now result) state.new }
        ensures kept { Keeps H.Host state.old host.old (stop_in (in_text self.now.script_name.now result))
            state.new host.new }
        ensures work { Works 0 state.old state.new }
    {
        let before = state.enter(env);
        let value = self.deeper(state, host, &definition.text, &definition.function.body)?;
        state.enter(before);
        Ok(value)
    }

    // A filter of bound arguments.
    fn apply_filter(
        &self,
        state: &mut RunState,
        host: &mut H,
        applied: Filter,
        signature: usize,
        given: &Bound,
        line: u32,
    ) -> Result<Value, Stop>
        ensures told { Told H.told (λ v. v) (f.filtered self.now.script_name.now (outside_by H.clips H.scripts) applied
            signature (bound_view given.now) line)
            state.old (in_text self.now.script_name.now result) state.new }
        ensures kept { Keeps H.Host state.old host.old (stop_in (in_text self.now.script_name.now result))
            state.new host.new }
        ensures work { Works 0 state.old state.new }
    {
        match applied {
            Filter::Y4MSource => self.open_source(state, host, &given.values, line),
            _ => apply_filter(self.alloc, state, applied, signature, given, line),
        }
    }

    // A built-in function but `ApplyRange`, of bound arguments.
    fn builtin(
        &self,
        state: &mut RunState,
        host: &mut H,
        builtin: Builtin,
        signature: usize,
        given: Bound,
        line: u32,
    ) -> Result<Value, Stop>
        requires deeper { Deeper H.Host self.now.depth F.Fn self.now.run }
        requires other { builtin ≡ Builtin.ApplyRange → ⊥ }
        ensures told { Told H.told (λ v. v) (e.performed (context_in H.Host self.now.depth) (e.builtin builtin) signature
            (bound_view given) self.now.script_name.now line)
            state.old (in_text self.now.script_name.now result) state.new }
        ensures kept { Keeps H.Host state.old host.old (stop_in (in_text self.now.script_name.now result))
            state.new host.new }
        ensures work { Works 0 state.old state.new }
    {
        match builtin {
            Builtin::Eval => self.eval(state, host, &given.values, line),
            Builtin::Import => self.import(state, host, &given.values, line),
            Builtin::SetFilterMTMode => { set_mode(state, &given.values, line) }
            Builtin::Prefetch => prefetch(state, &given.values, line),
            Builtin::ApplyRange => Err(Stop::Fault(ScriptKind::NoMatch, line)),
            Builtin::Plain(function) => plain(self.alloc, function, given, line),
            Builtin::Clip(function) => {
                clip_property(self.alloc, state, function, &given.values, line)
            }
            Builtin::Filter(filter) => {
                self.apply_filter(state, host, filter, signature, &given, line)
            }
        }
    }

    // A function of the script, whose arguments are bound.
    fn run_defined(
        &self,
        state: &mut RunState,
        host: &mut H,
        definition: &Definition,
        given: &Bound,
        line: u32,
    ) -> Result<Value, Stop>
        requires deeper { Deeper H.Host self.now.depth F.Fn self.now.run }
        ensures told { Told H.told (λ v. v) (e.performed (context_in H.Host self.now.depth)
            (e.user (defined_view definition.now)) 0 (bound_view given.now) self.now.script_name.now line)
            state.old (in_text self.now.script_name.now result) state.new }
        ensures kept { Keeps H.Host state.old host.old (stop_in (in_text self.now.script_name.now result))
            state.new host.new }
        ensures deep { self.now.depth ≡ 0 → result ≡ Err (s.Fault k.CallDepth line) }
        ensures work { Works 0 state.old state.new }
    {
        if self.depth == 0 {
            return Err(Stop::Fault(ScriptKind::CallDepth, line));
        }
        let env = parameters(self.alloc, &definition.function.params, &given.values)?;
        self.inside(state, host, definition, env)
    }

    // A call of a function of the script.
    fn call_defined(
        &self,
        state: &mut RunState,
        host: &mut H,
        definition: &Definition,
        args: Vec<Given>,
        last: Option<Value>,
        line: u32,
    ) -> Result<Value, Stop>
        requires deeper { Deeper H.Host self.now.depth F.Fn self.now.run }
        ensures told { Told H.told (λ v. v) (e.apply (context_in H.Host self.now.depth)
            (e.user (defined_view definition.now)) args.items last self.now.script_name.now line)
            state.old (in_text self.now.script_name.now result) state.new }
        ensures kept { Keeps H.Host state.old host.old (stop_in (in_text self.now.script_name.now result))
            state.new host.new }
        ensures work { Works 0 state.old state.new }
    {
        let taken = signature_of(self.alloc, &definition.function.params)?;
        let Some((_, given)) = fit_or_last(self.alloc, &[taken], args, last)? else {
            return Err(Stop::Fault(ScriptKind::NoMatch, line));
        };
        self.run_defined(state, host, definition, &given, line)
    }

    // `ApplyRange`: calls the function of a name with the clip and further values, and shows what that gives in a range of
    // frames.
    #[cycle(calls)]
    fn apply_range(
        &self,
        state: &mut RunState,
        host: &mut H,
        given: &Bound,
        line: u32,
    ) -> Result<Value, Stop>
        requires deeper { Deeper H.Host self.now.depth F.Fn self.now.run }
        ensures told { Told H.told (λ v. v) (e.ranged_by (e.direct (context_in H.Host self.now.depth)) given.now.values.items
            given.now.rest.items self.now.script_name.now line)
            state.old (in_text self.now.script_name.now result) state.new }
        ensures kept { Keeps H.Host state.old host.old (stop_in (in_text self.now.script_name.now result))
            state.new host.new }
        ensures refused { IfErr (g.given_in given.now.values.items) (λ kind. result ≡ Err (s.Fault kind line)) }
        ensures work { Works 0 state.old state.new }
    {
        let range = match range_in(&given.values) {
            Ok(range) => range,
            Err(kind) => return Err(Stop::Fault(kind, line)),
        };
        let callee = called(self.alloc, state, range.name, line)?;
        let args = positional_args(self.alloc, range.clip, &given.rest)?;
        let shown = match self.call(state, host, &callee, args, None, line) {
            Ok(shown) => shown,
            Err(stop) => return Err(stop),
        };
        ranged(state, range.clip, range.first, range.last, &shown, line)
    }

    // A call of a built-in function.
    #[cycle(calls)]
    fn call_builtin(
        &self,
        state: &mut RunState,
        host: &mut H,
        builtin: Builtin,
        args: Vec<Given>,
        last: Option<Value>,
        line: u32,
    ) -> Result<Value, Stop>
        requires deeper { Deeper H.Host self.now.depth F.Fn self.now.run }
        ensures told { Told H.told (λ v. v) (e.apply (context_in H.Host self.now.depth) (e.builtin builtin)
            args.items last self.now.script_name.now line)
            state.old (in_text self.now.script_name.now result) state.new }
        ensures kept { Keeps H.Host state.old host.old (stop_in (in_text self.now.script_name.now result))
            state.new host.new }
        ensures work { Works 0 state.old state.new }
    {
        let taken = signatures(self.alloc, builtin)?;
        let Some((signature, given)) = fit_or_last(self.alloc, &taken, args, last)? else {
            return Err(Stop::Fault(ScriptKind::NoMatch, line));
        };
        match builtin {
            Builtin::ApplyRange => self.apply_range(state, host, &given, line),
            _ => self.builtin(state, host, builtin, signature, given, line),
        }
    }

    /// A call with these arguments, tried again with `last` first, if it is given.
    #[cycle(calls)]
    pub(crate) fn call(
        &self,
        state: &mut RunState,
        host: &mut H,
        callee: &Callee,
        args: Vec<Given>,
        last: Option<Value>,
        line: u32,
    ) -> Result<Value, Stop>
        requires deeper { Deeper H.Host self.now.depth F.Fn self.now.run }
        ensures told { Told H.told (λ v. v) (e.apply (context_in H.Host self.now.depth) (callee_view callee.now)
            args.items last self.now.script_name.now line)
            state.old (in_text self.now.script_name.now result) state.new }
        ensures kept { Keeps H.Host state.old host.old (stop_in (in_text self.now.script_name.now result))
            state.new host.new }
        ensures work { Works 0 state.old state.new }
    {
        match callee {
            Callee::User(definition) => {
                self.call_defined(state, host, definition, args, last, line)
            }
            Callee::Builtin(builtin) => {
                self.call_builtin(state, host, *builtin, args, last, line)
            }
        }
    }
}
