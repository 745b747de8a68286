// A law of the definitions, as the contract of a function with an empty body.
ghost use Rattle.mt_modes.specs.Modes.{KeepsRule};

/// A table after some settings gives each filter the mode that the rule gives.
#[tactic(auto, using(crate::proofs::RuleLemmas::keeps_rule))]
pub fn keeps_rule()
    ensures { KeepsRule }
{}
