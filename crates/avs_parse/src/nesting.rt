// How many levels of nesting are open.
ghost use Rattle.std.specs.Prelude.{◌≡◌, ◌≤◌, nat_lt};
ghost use Rattle.avs_tree.specs.Machine.{use_level, statement_level, head_level, level_of};
ghost use Rattle.avs_frames.specs.ScriptViews.{statement_state_view, head_state_view, state_view, use_view};

use avs_frames::{HeadState, State, StatementState, Use, open_level};

// The parenthesis around an expression for this.
fn use_level(purpose: &Use) -> usize
    ensures level { result ≡ use_level (use_view purpose.now) }
    ensures few { result ≤ 1 }
{
    match purpose {
        Use::Value | Use::Global(_) | Use::Assign(_) | Use::Return => 0,
        _ => 1,
    }
}

// What is open in a statement, but for braces.
fn statement_level(here: &StatementState) -> usize
    ensures { result ≡ statement_level (statement_state_view here.now) }
{
    match here {
        StatementState::InExpression(purpose, state, opened) => {
            use_level(purpose) + (state.level() + open_level(opened))
        }
        StatementState::ForOpened | StatementState::AfterForName(_) => 1,
        _ => 0,
    }
}

// The parenthesis of parameters.
fn head_level(here: &HeadState) -> usize
    ensures { result ≡ head_level (head_state_view here.now) }
{
    match here {
        HeadState::AfterFunction | HeadState::AfterName(_) | HeadState::BracesNext(_) => 0,
        _ => 1,
    }
}

/// Whether more levels are open than this.
#[tactic(auto, using(std::proofs::lemmas::Bool::Decides::nat_tests))]
pub fn is_deeper(state: &State, limit: usize) -> bool
    ensures { result ≡ nat_lt limit (level_of (state_view state.now)) }
{
    match state {
        State::Statement(here, around) => {
            let braces = around.levels.depth();
            braces > limit || statement_level(here) > limit - braces
        }
        State::Head(here, _) => head_level(here) > limit,
    }
}
