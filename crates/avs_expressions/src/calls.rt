// `Calls`: what makes the calls of a text.
use crate::callee::Callee;
use avs_state::{Host, RunState, Stop};
use avs_values::{Given, Value};

/// What makes the calls of a text, over a host.
pub trait Calls<H: Host> {
    ghost use Rattle.std.specs.Prelude.{◌≡◌};
    ghost use Rattle.avs_values.specs.Values.{Text as Name};
    ghost use Rattle.avs_meaning.specs.State.{Context};
    ghost use Rattle.avs_meaning.specs.Expressions as e;
    ghost use Rattle.avs_state.specs.Hosts.{Told};
    ghost use Rattle.avs_state.specs.Steps.{Works};
    ghost use Rattle.avs_state.specs.Stops.{in_text};
    ghost use Rattle.avs_state.specs.Walks.{Keeps, stop_in};
    ghost use Rattle.avs_expressions.specs.Views.{callee_view};

    /// Whether it may be asked.
    ghost may: { Self → Type 0 };

    /// The name of the text.
    ghost here: { Self → Name };

    /// What the calls are made in.
    ghost context: { Self → Context };

    /// A call with these arguments, tried again with `last` first, if it is given.
    fn apply(
        &self,
        state: &mut RunState,
        host: &mut H,
        callee: &Callee,
        args: Vec<Given>,
        last: Option<Value>,
        line: u32,
    ) -> Result<Value, Stop>
        requires may { may self.now }
        ensures told { Told H.told (λ v. v)
            (e.apply (context self.now) (callee_view callee.now) args.items last (here self.now) line)
            state.old (in_text (here self.now) result) state.new }
        ensures kept { Keeps H.Host state.old host.old (stop_in (in_text (here self.now) result))
            state.new host.new }
        ensures work { Works 0 state.old state.new };
}
