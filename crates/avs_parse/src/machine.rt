// The machine over tokens.
ghost use Rattle.std.specs.Prelude.{◌≡◌, ◌<◌, ◌≤◌, ◌+◌, ◌^◌, All, length, IfOk, IfErr};
ghost use Rattle.avs_lex.specs.Tokens.{IsTokenOf};
ghost use Rattle.avs_tree.specs.Lexeme.{lexemes};
ghost use Rattle.avs_tree.specs.View.{script_view};
ghost use Rattle.avs_tree.specs.Machine as machine;
ghost use Rattle.avs_tree.specs.Place as place;
ghost use Rattle.avs_tree.specs.Place.{verdict, alone, go_on};
ghost use Rattle.avs_frames.specs.ScriptViews.{state_view, step_view};
ghost use Rattle.avs_parse.specs.Turns.{AreFew, IsFewer, Turns, open_in};
ghost use Rattle.avs_parse.specs.VerdictView.{verdict_view};
ghost use Rattle.avs_frames.specs.Seen.{seen};

use crate::head::advance_head;
use crate::nesting::is_deeper;
use crate::statement::advance_statement;
use crate::turn::{Turn, did};
use avs_frames::{Around, Levels, Outcome, ScriptStep, Seen, State, StatementState};
use avs_lex::Token;
use avs_tree::Script;
use std::alloc::Global;

/// How many levels of parentheses, braces and the like may be open at once.
pub const NESTING_LIMIT: usize = 32;

/// What the machine answers of tokens.
#[derive(Drop)]
pub enum Verdict {
    /// They are a script.
    Accepts(Script),
    /// One of them is refused. So many are left from it on.
    Stops(usize),
    /// One of them nests too deep. So many are left from it on.
    TooDeep(usize),
}

/// What the machine answers of tokens, and how many turns it took.
pub struct Counted {
    pub answer: Outcome<Verdict>,
    pub turns: u64,
}

// The end of a run.
fn ended(answer: Outcome<Verdict>, turns: u64) -> Counted
    ensures answer { result.answer ≡ answer }
    ensures turns { result.turns ≡ turns }
{
    Counted { answer, turns }
}

// Nothing was read.
fn start(alloc: Global) -> State
    ensures { state_view result ≡ machine.start }
{
    let levels = Levels::new(alloc, Vec::new(alloc));
    let around = Around {
        line: 0,
        before: Vec::new(alloc),
        levels,
    };
    State::Statement(StatementState::StatementNext, around)
}

// One turn.
fn advance(state: State, token: Seen<'_>) -> Outcome<Turn>
    ensures turn { Turns result (seen token.entry) (machine.advance (state_view state) (seen token.entry)) }
    ensures fewer { IfOk result (IsFewer (open_in state)) }
{
    match state {
        State::Statement(here, around) => advance_statement(here, around, token),
        State::Head(here, around) => did(advance_head(here, around, token)),
    }
}

// A whole script, with these tokens after its end.
fn alone(script: Script, text: &str, after: &[Token]) -> Verdict
    ensures { verdict_view result ≡ alone (script_view script) (lexemes text.now after.now) }
{
    if after.is_empty() {
        Verdict::Accepts(script)
    } else {
        Verdict::Stops(after.len())
    }
}

// One turn more.
fn one_more(turns: u64) -> u64
    ensures exact { turns + 1 < 2 ^ 64 → result ≡ turns + 1 }
    ensures most { result ≤ turns + 1 }
{
    turns.saturating_add(1)
}

// The state to go on in after a token that does this, or the verdict. No fault is called out of memory here: there is no
// such answer.
fn judged(step: ScriptStep, text: &str, after: &[Token]) -> Result<State, Verdict>
    ensures taken { IfOk result (λ next. step_view step ≡ machine.goes (state_view next)) }
    ensures goes { IfOk result (λ next. (go : machine.State → place.Verdict) → go (state_view next)
        ≡ go_on (step_view step) (lexemes text.now after.now) go) }
    ensures ends { IfErr result (λ ended. (go : machine.State → place.Verdict) → verdict_view ended
        ≡ go_on (step_view step) (lexemes text.now after.now) go) }
{
    match step {
        ScriptStep::Refused => Err(Verdict::Stops(1 + after.len())),
        ScriptStep::Whole(script) => Err(alone(script, text, after)),
        ScriptStep::Goes(next) => {
            if is_deeper(&next, NESTING_LIMIT) {
                // Dropped in place, each part of the state would be a step of this proof.
                drop(next);
                return Err(Verdict::TooDeep(1 + after.len()));
            }
            Ok(next)
        }
    }
}

/// The verdict on tokens, and how many turns it took, also where memory ran out.
pub fn run(alloc: Global, text: &str, tokens: &[Token]) -> Counted
    requires { All (IsTokenOf text.now) tokens.now }
    ensures verdict { IfOk result.answer (λ made. verdict_view made ≡ verdict (lexemes text.now tokens.now)) }
    ensures steps { AreFew result.turns (length tokens.now) }
{
    let mut state = start(alloc);
    let mut rest = tokens;
    let mut turns: u64 = 0;
    while let [token, after @ ..] = rest {
        let now = one_more(turns);
        let turn = match advance(state, Seen::new(alloc, text, token)) {
            Ok(turn) => turn,
            Err(error) => return ended(Err(error), now),
        };
        turns = now;
        let step = match turn {
            Turn::Again(same) => {
                state = same;
                continue;
            }
            Turn::Does(step) => step,
        };
        match judged(step, text, after) {
            Ok(next) => {
                state = next;
                rest = after;
                continue;
            }
            Err(verdict) => return ended(Ok(verdict), turns),
        }
    }
    drop(state);
    ended(Ok(Verdict::Stops(0)), turns)
}
