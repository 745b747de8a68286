// `RunState`: the variables, functions, settings and graph of a run.
ghost use Rattle.std.specs.Prelude.{◌≡◌, ◌↔◌, IsTrue, false, ◌+◌, ◌^◌, Some, ◌∷◌, ◌++◌, ◌<◌, ◌≤◌, [], length, map, IfOk, Ok, Err, OnOk, OnErr, IsSome, is_some, option_map, ◌-◌, ◌*◌};
ghost use Rattle.std.specs.List.{All};
ghost use Rattle.fv_plane.specs.Info.{IsLawful};
ghost use Rattle.avs_tree.specs.Sizes.{AreShort, FunctionsAreShort};
ghost use Rattle.avs_tree.specs.View.{function_view};
ghost use Rattle.avs_values.specs.Values.{Text as Name};
ghost use Rattle.clip_term.specs.Terms.{act_of, IsSound, check};
ghost use Rattle.clip_term.specs.Filters.{IsMode};
ghost use Rattle.clip_check.specs.Summaries.{TellsAll};
ghost use Rattle.clip_graph.specs.Plan.{IsCounted, infos_among, sources_in};
ghost use Rattle.mt_modes.specs.Modes.{mode_in};
ghost use Rattle.avs_meaning.specs.Filters as f;
ghost use Rattle.avs_meaning.specs.Meaning as m;
ghost use Rattle.avs_meaning.specs.State as d;
ghost use Rattle.avs_state.specs.Answers.{Gives};
ghost use Rattle.avs_state.specs.Stops.{in_text, TakesNone, HidesNone};
ghost use Rattle.avs_state.specs.Sources.{source_of, sources_of, Lists};
ghost use Rattle.avs_state.specs.Walks.{Runs};
ghost use Rattle.avs_state.specs.States.{state_of, defined_view, AsksNothing};
ghost use Rattle.avs_state.specs.Steps.{Works, Pays, Counted, work};
ghost use Rattle.avs_state.specs.Units.{steps_a_unit};

use crate::variables::{set_in, value_in};
use crate::{ByName, Definition, Stop};
use avs_meaning::{Crew, EvalError, ScriptKind, SourceClip, Variable};
use avs_tree::Function;
use avs_values::Value;
use clip_check::{Summary, check_summary};
use clip_graph::{Graph, GraphFault};
use clip_term::{Filter, FilterFault, Op};
use fv_io::Text;
use fv_plane::Info;
use mt_modes::{ModeFault, ModeTable};
use std::alloc::{AllocError, Global};
use std::rc::Rc;

// How many units a run may pay.
const UNITS: u32 = 1_000_000;

/// The state of a run: variables, functions, the modes that were set, the workers that were asked for, the graph of the
/// clips, the sources that were opened, how many scripts were imported, the units that are left, and the steps that were
/// taken.
#[derive(Drop)]
pub struct RunState {
    env: ByName<Variable>,
    globals: ByName<Variable>,
    functions: ByName<Rc<Definition>>,
    modes: ModeTable,
    crew: Option<Crew>,
    plan: Graph,
    opened: Vec<SourceClip>,
    imports: u64,
    units: u32,
    steps: u64,
}

// Whether all these are places of the graph.
fn are_places(plan: &Graph, inputs: &[u32]) -> bool
    ensures { result ≡ f.are_places inputs.now plan.now }
{
    let count = plan.len();
    inputs.iter().all(|i| *i < count)
}

// What there is to tell of the infos of places.
fn summary_of(plan: &Graph, inputs: &[u32]) -> Summary
    requires { All (λ i. i < length plan.now) inputs.now }
    ensures { TellsAll result (infos_among plan.now inputs.now) }
{
    let mut summary = Summary::new(inputs.len());
    for i in inputs {
        summary = summary.with(plan.node(*i).info);
    }
    summary
}

// The info of a filter over places, or why it refuses them.
fn checked(plan: &Graph, op: &Op, inputs: &[u32]) -> Result<Info, FilterFault>
    requires { All (λ i. i < length plan.now) inputs.now }
    ensures { result ≡ check (act_of op.now) (infos_among plan.now inputs.now) }
{
    check_summary(op, &summary_of(plan, inputs))
}

impl RunState {
    /// The state at the start. It allocates nothing.
    #[tactic(auto, unfolding(crate::specs::States::state_of, crate::specs::Steps::work))]
    pub fn new(alloc: Global) -> RunState
        ensures start { state_of result ≡ m.start }
        ensures work { work result ≡ steps_a_unit * 1000000 }
    {
        RunState {
            env: ByName::new(alloc),
            globals: ByName::new(alloc),
            functions: ByName::new(alloc),
            modes: ModeTable::new(alloc),
            crew: None,
            plan: Graph::new(alloc),
            opened: Vec::new(alloc),
            imports: 0,
            units: UNITS,
            steps: 0,
        }
    }

    /// The workers that the last call of `Prefetch` asked for.
    #[tactic(auto, unfolding(crate::specs::States::state_of, crate::specs::Steps::work))]
    pub fn crew(&self) -> Option<Crew>
        ensures { result ≡ (state_of self.now).crew }
    {
        self.crew
    }

    /// The graph of the clips.
    #[tactic(auto, unfolding(crate::specs::States::state_of, crate::specs::Steps::work))]
    pub fn into_graph(self) -> Graph
        ensures plan { result ≡ (state_of self).plan }
    {
        self.plan
    }

    /// How many units are left.
    #[tactic(auto, unfolding(crate::specs::States::state_of, crate::specs::Steps::work))]
    pub fn units(&self) -> u32
        ensures { result ≡ (state_of self.now).units }
    {
        self.units
    }

    /// Pays a unit for a statement or a turn at a line.
    #[tactic(auto, unfolding(crate::specs::States::state_of, crate::specs::Steps::work))]
    pub fn spend(&mut self, line: u32) -> Result<(), Stop>
        ensures gives { (here : Name) → Gives (λ u. u) (d.spend here line (state_of self.old)) (in_text here result)
            (state_of self.new) }
        ensures asks { AsksNothing self.old self.new }
        ensures plan { (state_of self.new).plan ≡ (state_of self.old).plan }
        ensures memory { TakesNone result }
        ensures work { OnOk result (Pays self.old self.new) }
    {
        if self.units == 0 {
            return Err(Stop::Fault(ScriptKind::StepLimit, line));
        }
        self.units -= 1;
        Ok(())
    }

    /// How many units were paid.
    #[tactic(auto, unfolding(crate::specs::States::state_of, crate::specs::Steps::work))]
    pub fn paid(&self) -> u32
        ensures { result ≡ 1000000 - (state_of self.now).units }
    {
        UNITS.saturating_sub(self.units)
    }

    /// Counts a step.
    #[tactic(auto, unfolding(crate::specs::States::state_of, crate::specs::Steps::work, crate::specs::Steps::last_count))]
    pub fn step(&mut self)
        ensures kept { state_of self.new ≡ state_of self.old }
        ensures counted { Counted self.old self.new }
        ensures later { self.old.steps ≤ self.new.steps }
        ensures work { Works 1 self.old self.new }
    {
        self.steps = self.steps.saturating_add(1);
    }

    /// How many steps were counted.
    pub fn steps(&self) -> u64
        ensures { result ≡ self.now.steps }
    {
        self.steps
    }

    /// Whether the count of imports, of 64 bits, has room for one more.
    #[tactic(auto, unfolding(crate::specs::States::state_of, crate::specs::Steps::work))]
    pub fn can_import(&self) -> bool
        ensures { IsTrue result ↔ ((state_of self.now).imports + 1 < 2 ^ 64) }
    {
        self.imports < u64::MAX
    }

    /// Counts a script that was imported.
    #[tactic(auto, unfolding(crate::specs::States::state_of, crate::specs::Steps::work))]
    pub fn count_import(&mut self)
        requires { (state_of self.old).imports + 1 < 2 ^ 64 }
        ensures counted { state_of self.new ≡ d.imported (state_of self.old) }
        ensures steps { self.new.steps ≡ self.old.steps }
        ensures work { Works 0 self.old self.new }
    {
        self.imports += 1;
    }

    /// The value of a variable of the function that runs.
    #[tactic(auto, unfolding(crate::specs::States::state_of))]
    pub fn local(&self, alloc: Global, name: &str) -> Option<&Value>
        ensures { option_map (λ value. value.now) result ≡ d.lookup name.now (state_of self.now).env }
    {
        value_in(alloc, &self.env, name)
    }

    // The value of a global variable.
    #[tactic(auto, unfolding(crate::specs::States::state_of))]
    fn global(&self, alloc: Global, name: &str) -> Option<&Value>
        ensures { option_map (λ value. value.now) result ≡ d.lookup name.now (state_of self.now).globals }
    {
        value_in(alloc, &self.globals, name)
    }

    /// The value of a variable: one of the function that runs, or else a global one.
    pub fn variable(&self, alloc: Global, name: &str) -> Option<&Value>
        ensures { option_map (λ value. value.now) result ≡ d.variable name.now (state_of self.now) }
    {
        match self.local(alloc, name) {
            Some(value) => Some(value),
            None => self.global(alloc, name),
        }
    }

    /// Sets a variable of the function that runs.
    #[tactic(auto, unfolding(crate::specs::States::state_of, crate::specs::Steps::work))]
    pub fn set(&mut self, alloc: Global, name: &Text, value: Value) -> Result<(), EvalError>
        ensures { Runs (λ u. u) (d.set name.now value) self.old result self.new }
    {
        set_in(alloc, &mut self.env, name, value)?;
        Ok(())
    }

    /// Sets a global variable.
    #[tactic(auto, unfolding(crate::specs::States::state_of, crate::specs::Steps::work))]
    pub fn set_global(&mut self, alloc: Global, name: &Text, value: Value) -> Result<(), EvalError>
        ensures { Runs (λ u. u) (d.set_global name.now value) self.old result self.new }
    {
        set_in(alloc, &mut self.globals, name, value)?;
        Ok(())
    }

    /// Takes the variables of a function in the place of those that are there, which it answers.
    #[tactic(auto, unfolding(crate::specs::States::state_of, crate::specs::Steps::work))]
    pub fn enter(&mut self, env: ByName<Variable>) -> ByName<Variable>
        ensures new { state_of self.new ≡ record (state_of self.old) { env = env } }
        ensures before { result ≡ (state_of self.old).env }
        ensures steps { self.new.steps ≡ self.old.steps }
        ensures work { Works 0 self.old self.new }
    {
        std::mem::replace(&mut self.env, env)
    }

    /// The function of a name.
    #[tactic(auto, unfolding(crate::specs::States::state_of, crate::specs::Steps::work), using(crate::proofs::StateLemmas::find_found, crate::proofs::StateLemmas::find_missed))]
    pub fn find(&self, alloc: Global, name: &Text) -> Result<Option<Rc<Definition>>, AllocError>
        ensures found { IfOk result (λ found.
            option_map (λ shared. defined_view shared.value) found ≡ d.find name.now (state_of self.now).functions) }
        ensures memory { OnErr result (IsSome (d.find name.now (state_of self.now).functions)) }
    {
        match self.functions.find(alloc, name.as_str()) {
            Some(shared) => Ok(Some(shared.clone()?)),
            None => Ok(None),
        }
    }

    // Whether there is a function of this name.
    #[tactic(auto, unfolding(crate::specs::States::state_of), using(crate::proofs::StateLemmas::find_found, crate::proofs::StateLemmas::find_missed))]
    fn is_defined(&self, alloc: Global, name: &Text) -> bool
        ensures { result ≡ is_some (d.find name.now (state_of self.now).functions) }
    {
        self.functions.find(alloc, name.as_str()).is_some()
    }

    /// Adds a function of the text of this name.
    #[tactic(auto, unfolding(crate::specs::States::state_of, crate::specs::Steps::work), using(crate::proofs::StateLemmas::put_new))]
    pub fn define(
        &mut self,
        alloc: Global,
        function: Function,
        script_name: &Text,
    ) -> Result<(), Stop>
        requires short { AreShort steps_a_unit (function_view function).body }
        ensures runs { Runs (λ u. u) (d.define (function_view function) script_name.now) self.old
            (in_text script_name.now result) self.new }
        ensures memory { HidesNone (d.define (function_view function) script_name.now (state_of self.old)) result }
    {
        if self.is_defined(alloc, &function.name) {
            let kind = ScriptKind::DuplicateFunction;
            return Err(Stop::Fault(kind, function.line));
        }
        let text = Text::from_str(alloc, script_name.as_str())?;
        let shared = Rc::new(alloc, Definition { function, text })?;
        self.functions.put(alloc, shared)?;
        Ok(())
    }

    /// Adds functions of the text of this name, in their order.
    pub fn define_all(
        &mut self,
        alloc: Global,
        functions: Vec<Function>,
        script_name: &Text,
    ) -> Result<(), Stop>
        requires short { FunctionsAreShort steps_a_unit (map function_view functions.items) }
        ensures { Runs (λ u. u) (d.define_all (map function_view functions.items) script_name.now)
            self.old (in_text script_name.now result) self.new }
    {
        for function in functions {
            self.define(alloc, function, script_name)?;
        }
        Ok(())
    }

    /// The info of a clip, by its place.
    #[tactic(auto, unfolding(crate::specs::States::state_of, crate::specs::Steps::work))]
    pub fn info_of(&self, i: u32, line: u32) -> Result<Info, Stop>
        ensures gives { (here : Name) → Gives (λ info. info) (f.info_of here i line (state_of self.now))
            (in_text here result) (state_of self.now) }
        ensures memory { TakesNone result }
        ensures lawful { IfOk result IsLawful }
        ensures inside { OnOk result (i < length (state_of self.now).plan) }
    {
        if i >= self.plan.len() {
            return Err(Stop::Fault(ScriptKind::TypeFault, line));
        }
        Ok(self.plan.node(i).info)
    }

    // Adds what a filter does over clips, which has this info.
    #[tactic(auto, using(crate::proofs::SourceLemmas::sources_more), unfolding(crate::specs::States::state_of, crate::specs::Steps::work))]
    fn add(
        &mut self,
        op: Op,
        inputs: &[u32],
        info: Info,
        mode: u8,
        line: u32,
    ) -> Result<Value, Stop>
        requires places { All (λ i. i < length (state_of self.old).plan) inputs.now }
        requires sound { IsSound (act_of op) (length inputs.now) }
        requires told { check (act_of op) (infos_among (state_of self.old).plan inputs.now) ≡ Ok info }
        requires mode { IsMode mode }
        requires counted { IsCounted (act_of op) (sources_in (state_of self.old).plan) mode }
        ensures gives { (here : Name) → Gives (λ v. v) (f.add here (act_of op) inputs.now info mode line
            (state_of self.old)) (in_text here result) (state_of self.new) }
        ensures memory { (here : Name) → HidesNone (f.add here (act_of op) inputs.now info mode line (state_of self.old))
            result }
        ensures asks { AsksNothing self.old self.new }
        ensures sources { OnOk result (sources_of (state_of self.new).plan
            ≡ sources_of (state_of self.old).plan ++ source_of (act_of op)) }
    {
        match self.plan.add(op, inputs, info, mode) {
            Ok(place) => Ok(Value::Clip(place)),
            Err(GraphFault::NodeLimit) => Err(Stop::Fault(ScriptKind::NodeLimit, line)),
            Err(GraphFault::DepthLimit) => Err(Stop::Fault(ScriptKind::DepthLimit, line)),
            Err(GraphFault::Memory) => Err(Stop::Whole(EvalError::Memory)),
        }
    }

    /// Applies a filter to clips, at a line.
    #[tactic(auto, unfolding(crate::specs::States::state_of, crate::specs::Steps::work))]
    pub fn make(&mut self, filter: Filter, op: Op, inputs: &[u32], line: u32) -> Result<Value, Stop>
        requires sound { IsSound (act_of op) (length inputs.now) }
        requires counted { IsCounted (act_of op) (sources_in (state_of self.old).plan)
            (mode_in (state_of self.old).modes filter) }
        ensures gives { (here : Name) → Gives (λ v. v) (f.made here filter (act_of op) inputs.now line
            (state_of self.old)) (in_text here result) (state_of self.new) }
        ensures memory { (here : Name) → HidesNone (f.made here filter (act_of op) inputs.now line (state_of self.old))
            result }
        ensures asks { AsksNothing self.old self.new }
        ensures sources { OnOk result (sources_of (state_of self.new).plan
            ≡ sources_of (state_of self.old).plan ++ source_of (act_of op)) }
    {
        if !are_places(&self.plan, inputs) {
            return Err(Stop::Fault(ScriptKind::TypeFault, line));
        }
        match checked(&self.plan, &op, inputs) {
            Ok(info) => {
                let mode = self.modes.mode_for(filter);
                self.add(op, inputs, info, mode, line)
            }
            Err(fault) => Err(Stop::Fault(ScriptKind::Filter(fault), line)),
        }
    }

    /// `SetFilterMTMode` of a mode for the filter of a name, at a line.
    #[tactic(auto, unfolding(crate::specs::States::state_of, crate::specs::Steps::work))]
    pub fn set_mode(
        &mut self,
        name: &Text,
        mode: i32,
        force: bool,
        line: u32,
    ) -> Result<Value, Stop>
        ensures gives { (here : Name) → Gives (λ v. v) (f.set_mode_of here name.now mode force line (state_of self.old))
            (in_text here result) (state_of self.new) }
        ensures memory { (here : Name) → HidesNone (f.set_mode_of here name.now mode force line (state_of self.old))
            result }
        ensures asks { AsksNothing self.old self.new }
        ensures plan { (state_of self.new).plan ≡ (state_of self.old).plan }
    {
        match self.modes.set(name, mode, force) {
            Ok(()) => Ok(Value::Undefined),
            Err(ModeFault::ModeRefused) => { Err(Stop::Fault(ScriptKind::ModeRefused, line)) }
            Err(ModeFault::Memory) => Err(Stop::Whole(EvalError::Memory)),
        }
    }

    /// Keeps the workers that a call of `Prefetch` asks for.
    #[tactic(auto, unfolding(crate::specs::States::state_of, crate::specs::Steps::work))]
    pub fn set_crew(&mut self, crew: Crew)
        ensures crew { state_of self.new ≡ record (state_of self.old) { crew = Some crew } }
        ensures steps { self.new.steps ≡ self.old.steps }
        ensures work { Works 0 self.old self.new }
    {
        self.crew = Some(crew);
    }

    // Lists a clip that was opened.
    #[tactic(auto, unfolding(crate::specs::States::state_of, crate::specs::Steps::work))]
    fn list(&mut self, alloc: Global, name: &Text, info: Info) -> Result<(), AllocError>
        ensures listed { OnOk result (state_of self.new ≡ record (state_of self.old) {
          opened = (state_of self.old).opened ++ record { name = name.now; info = info } ∷ [];
        }) }
        ensures imports { (state_of self.new).imports ≡ (state_of self.old).imports }
        ensures steps { self.new.steps ≡ self.old.steps }
        ensures work { Works 0 self.old self.new }
    {
        let name = Text::from_str(alloc, name.as_str())?;
        self.opened.push(SourceClip { name, info })?;
        Ok(())
    }

    /// Adds the clip of a file, which was opened.
    pub fn add_source(
        &mut self,
        alloc: Global,
        name: Text,
        info: Info,
        line: u32,
    ) -> Result<Value, Stop>
        requires lawful { IsLawful info }
        ensures gives { (here : Name) → Gives (λ v. v) (f.open_by here (Ok info) name line (state_of self.old))
            (in_text here result) (state_of self.new) }
        ensures opened { OnOk result ((state_of self.new).opened
            ≡ (state_of self.old).opened ++ record { name = name; info = info } ∷ []) }
        ensures imports { (state_of self.new).imports ≡ (state_of self.old).imports }
        ensures listed { Lists self.old result self.new }
        ensures steps { self.new.steps ≡ self.old.steps }
        ensures work { Works 0 self.old self.new }
    {
        self.list(alloc, &name, info)?;
        let number = self.sources();
        let op = Op::Source { name, number, info };
        self.make(Filter::Y4MSource, op, &[], line)
    }

    // How many sources the graph has.
    #[tactic(auto, unfolding(crate::specs::States::state_of, crate::specs::Steps::work))]
    fn sources(&self) -> u32
        ensures { result ≡ sources_in (state_of self.now).plan }
    {
        self.plan.sources()
    }
}
