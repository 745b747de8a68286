//! What a script means, by relations alone: the tokens of its text or their first fault, the tree of its tokens or the exact
//! place where none goes on, the streams of its files, and the rules of execution.
//!
//! Each law is the contract of a function with an empty body. Both hold both ways, so a reader of what a script means needs no
//! function that computes it.
#![tactic(auto)]

ghost use Rattle.std.specs.Prelude.{◌≡◌, ◌↔◌};
ghost use Rattle.fv_io.specs.World.{World};
ghost use Rattle.avs_values.specs.Values.{Text};
ghost use Rattle.avs_meaning.specs.Meaning.{Meaning, meaning};
ghost use Rattle.meaning_laws.specs.Files.{TellsWorld, outside_in};
ghost use Rattle.meaning_laws.specs.Means.{Means};

/// What a world of files tells a script: of each text its tree or where it has none, of each file the clip or the script that
/// its bytes are, or why they are none.
pub fn outside_is_by_relations()
    ensures { (world : World) → TellsWorld world (outside_in world) }
{}

/// A script means exactly what its file, its tree and the rules say.
pub fn meaning_is_by_relations()
    ensures { (world : World) (name : Text) (m : Meaning) →
        (meaning (outside_in world) name ≡ m) ↔ Means world (outside_in world) name m }
{}
