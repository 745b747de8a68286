// A turn of the parser.
ghost use Rattle.std.specs.Prelude.{◌≡◌, Ok, Err, MatchResult};
ghost use Rattle.avs_parse.specs.declared.turn.Turn.TheVariants.{Does};

use avs_frames::{Outcome, ScriptStep, State};

/// What a turn does to a script.
pub enum Turn {
    /// What the token does.
    Does(ScriptStep),
    /// Something that was open in an expression ends before the token, which is read again.
    Again(State),
}

/// What the token does is the whole turn.
pub fn did(step: Outcome<ScriptStep>) -> Outcome<Turn>
    ensures { MatchResult step (λ made. result ≡ Ok (Does made)) (λ error. result ≡ Err error) }
{
    match step {
        Ok(step) => Ok(Turn::Does(step)),
        Err(error) => Err(error),
    }
}
