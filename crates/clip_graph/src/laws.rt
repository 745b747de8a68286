// Laws of the definitions, each the contract of a function with an empty body.
ghost use Rattle.clip_graph.specs.Plan.{InputsAreKeys, PlacesAreTerms, TermsStay, Unfolds};

/// A node stands for a sound clip term, and its info is that of the term.
pub fn places_are_terms()
    ensures { PlacesAreTerms }
{}

/// A node that is added changes the term of no other.
#[tactic(auto, using(crate::proofs::GrowingLemmas::terms_stay))]
pub fn terms_stay()
    ensures { TermsStay }
{}

/// A frame is made of frames of earlier nodes.
pub fn inputs_are_keys()
    ensures { InputsAreKeys }
{}

/// What a node makes of its inputs' frames is the frame of its clip.
#[tactic(auto, using(crate::proofs::UnfoldingLemmas::unfolds))]
pub fn unfolds()
    ensures { Unfolds }
{}
