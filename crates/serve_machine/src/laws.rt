// Laws of the events and of the machine, each the contract of a function with an empty body.
ghost use Rattle.std.specs.Prelude.{◌≡◌, [], true, is_some, None};
ghost use Rattle.serve_machine.specs.declared.event.WindowStop.TheVariants.{Read};
ghost use Rattle.serve_machine.specs.SerialExamples.{trimmed, in_a_large_cache, in_a_cache_of_one, two_workers};
ghost use Rattle.serve_machine.specs.Events.{IsOwn, own_events};
ghost use Rattle.serve_machine.specs.SerialRun.{serial_window};
ghost use Rattle.serve_machine.specs.Work.{SerialIsWhole, FailedWork, StoppedWork, AloneFails, WorkCloses};
ghost use Rattle.serve_machine.specs.Journals.{CrewsMakeOnce, CutCrewsMakeOnce, MakesOnce, WorkReaches, CutWorkReaches};
ghost use Rattle.serve_machine.specs.Examples.{ran, hit_after_eviction, publish_after_eviction};
ghost use Rattle.serve_machine.specs.Examples.{claimed_twice, entered_twice, wrong_instance};
ghost use Rattle.serve_machine.specs.Holdings.{OwnEventsTell};
ghost use Rattle.serve_machine.specs.Law.{RunsRefine, ToldRunsRefine, RunsLift};

/// The events that one worker alone makes are whole work.
#[tactic(auto, using(crate::proofs::SerialLemmas::serial_is_whole))]
pub fn serial_is_whole()
    ensures { SerialIsWhole }
{}

/// What a worker has shows in its own events, whatever others do between them.
#[tactic(auto, using(crate::proofs::OwnLemmas::is_own))]
pub fn own_events_show()
    ensures { IsOwn }
{}

/// The window of output 0 of `Trim(2, 0)` over a source, in a cache of 64 frames and in a cache of one.
pub fn serial_examples()
    ensures large { (serial_window trimmed 1 64 [] 0 1).events ≡ in_a_large_cache }
    ensures one { (serial_window trimmed 1 1 [] 0 1).events ≡ in_a_cache_of_one }
{}

/// Where a worker's events are the whole journal, work that a stop cut short ends with the worker's own failure.
#[tactic(auto, using(crate::proofs::WorkLemmas::alone_fails))]
pub fn alone_fails()
    ensures { AloneFails }
{}

/// Two workers of a window in which the first failed.
#[tactic(auto, using(crate::proofs::WorkLemmas::first_failed, crate::proofs::WorkLemmas::second_stopped))]
pub fn two_ends()
    ensures fails { FailedWork trimmed 0 0 (Read 0) (own_events 0 two_workers) }
    ensures stops { StoppedWork trimmed 0 1 (Read 0) two_workers (own_events 1 two_workers) }
{}

/// Whatever the workers do and in whichever order: each frame that is cached, got or delivered is the one that its key
/// stands for, no key is cached twice or claimed twice, and each instance has one holder at a time.
pub fn runs_refine<F>()
    ensures { RunsRefine F }
{}

/// Over a told book the frames of every run are the clip's.
pub fn told_runs_refine()
    ensures { ToldRunsRefine }
{}

/// A run of keys alone is a run over frames too.
pub fn runs_lift<F>()
    ensures { RunsLift F }
{}

/// In every run what a worker has claimed, leased, taken, got and entered is told by its own events, and no other
/// worker's event changes it.
pub fn own_events_tell<F>()
    ensures { OwnEventsTell F }
{}

/// Over windows one after the other no frame is made twice where nothing is evicted, and nothing is evicted where the
/// outputs reach no more keys than may be cached.
pub fn makes_once<F>()
    ensures { MakesOnce F }
{}

/// A worker that delivers outputs claims only keys that these reach.
pub fn work_reaches()
    ensures { WorkReaches }
{}

/// A worker whose work a stop cut short claims only keys that its outputs reach.
pub fn cut_work_reaches()
    ensures { CutWorkReaches }
{}

/// Over whole windows by any workers no frame is made twice where nothing is evicted, and nothing is evicted where the
/// outputs reach no more keys than may be cached.
pub fn crews_make_once()
    ensures { CrewsMakeOnce }
{}

/// The same over the windows of a render that a stop cut short.
pub fn cut_crews_make_once()
    ensures { CutCrewsMakeOnce }
{}

/// Work closes what it opens, by a worker's own events.
pub fn work_closes()
    ensures { WorkCloses }
{}

/// Two lists of events that are runs, and three that are none.
pub fn examples()
    ensures hit_after_eviction { is_some (ran hit_after_eviction) ≡ true }
    ensures publish_after_eviction { is_some (ran publish_after_eviction) ≡ true }
    ensures claimed_twice { ran claimed_twice ≡ None }
    ensures entered_twice { ran entered_twice ≡ None }
    ensures wrong_instance { ran wrong_instance ≡ None }
{}
