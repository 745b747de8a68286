// `Evaluator`: what gives the expressions of a text their values.
use avs_state::{Host, RunState, Stop};
use avs_tree::Expr;
use avs_values::Value;

/// What gives the expressions of a text their values, over a host.
pub trait Evaluator<H: Host> {
    ghost use Rattle.std.specs.Prelude.{◌≡◌};
    ghost use Rattle.avs_tree.specs.Sizes.{size};
    ghost use Rattle.avs_tree.specs.View.{expr_view};
    ghost use Rattle.avs_values.specs.Values.{Text as Name};
    ghost use Rattle.avs_meaning.specs.State.{Context};
    ghost use Rattle.avs_meaning.specs.Expressions as e;
    ghost use Rattle.avs_state.specs.Hosts.{Told};
    ghost use Rattle.avs_state.specs.Steps.{Works};
    ghost use Rattle.avs_state.specs.Stops.{in_text};
    ghost use Rattle.avs_state.specs.Walks.{Keeps, stop_in};

    /// Whether it may be asked.
    ghost may: { Self → Type 0 };

    /// The name of the text.
    ghost here: { Self → Name };

    /// What it evaluates expressions in.
    ghost context: { Self → Context };

    /// The value of an expression.
    fn value_of(&self, state: &mut RunState, host: &mut H, expr: &Expr) -> Result<Value, Stop>
        requires may { may self.now }
        ensures told { Told H.told (λ v. v) (e.value_of (context self.now) (here self.now) (expr_view expr.now))
            state.old (in_text (here self.now) result) state.new }
        ensures kept { Keeps H.Host state.old host.old (stop_in (in_text (here self.now) result))
            state.new host.new }
        ensures work { Works (size (expr_view expr.now)) state.old state.new };
}
