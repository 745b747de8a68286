//! Why what is printed is lawful: what is known of a window that is a run suffices for a lawful one, since each worker's work
//! is whole and its outputs delivered. So the whole windows of every render are those of a journal.
#![tactic(auto)]

ghost use Rattle.run_agree.specs.Agrees.{WorkFinishes, PlacesServe, WholeCloses, FinishedIsLawful};
ghost use Rattle.run_agree.specs.Crews.{CrewsFinish, CrewsAreLawful};

/// A window that is a run, in which each worker's own events are whole work and each output is delivered, is finished.
pub fn work_finishes()
    ensures { WorkFinishes }
{}

/// A run of a window with some instances is one with all that the modes ask for.
pub fn places_serve()
    ensures { PlacesServe }
{}

/// A window of whole work, with whichever instances, is a finished one that leaves the same cache.
pub fn whole_closes()
    ensures { WholeCloses }
{}

/// The text of finished windows is a journal.
pub fn finished_is_lawful()
    ensures { FinishedIsLawful }
{}

/// Whole windows of a crew are finished windows, one after the other.
pub fn crews_finish()
    ensures { CrewsFinish }
{}

/// The text of a crew's whole windows is a journal of the plan.
pub fn crews_are_lawful()
    ensures { CrewsAreLawful }
{}
