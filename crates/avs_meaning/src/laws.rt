// Laws of the definitions, each the contract of a function with an empty body.
ghost use Rattle.avs_meaning.specs.ClipExamples.{ClipsOfScripts};
ghost use Rattle.avs_meaning.specs.FaultExamples.{FaultsOfScripts};
ghost use Rattle.avs_meaning.specs.WorldExamples.{ScriptsInWorlds};
ghost use Rattle.avs_meaning.specs.Laws.{ClipsAreStreams, FiltersAreKnown, NamesDiffer};
ghost use Rattle.avs_meaning.specs.RuleLaws.{RulesAreEvaluation, RulesAreExecution};

/// What a file of a world is as a clip is what its bytes are as a stream.
#[tactic(auto, using(crate::proofs::StreamLemmas::clips_are_streams))]
pub fn clips_are_streams()
    ensures { ClipsAreStreams }
{}

/// No two built-in functions have the same name in any case.
#[tactic(auto, using(crate::proofs::TableLemmas::names_differ))]
pub fn names_differ()
    ensures { NamesDiffer }
{}

/// Each filter is called by its name.
#[tactic(auto, using(crate::proofs::FilterLemmas::filters_are_known))]
pub fn filters_are_known()
    ensures { FiltersAreKnown }
{}

/// By the rules each start of a text or a function has exactly one outcome, which is that of its execution.
#[tactic(auto, using(crate::proofs::RuleLemmas::rules_are_execution))]
pub fn rules_are_execution()
    ensures { RulesAreExecution }
{}

/// By the rules each start of an expression has exactly one outcome, which is that of its evaluation.
#[tactic(auto, using(crate::proofs::RuleLemmas::rules_are_evaluation))]
pub fn rules_are_evaluation()
    ensures { RulesAreEvaluation }
{}

/// Scripts whose meaning is computed, and files of a world as scripts and as clips.
pub fn examples()
    ensures clips { ClipsOfScripts }
    ensures faults { FaultsOfScripts }
    ensures files { ScriptsInWorlds }
{}
