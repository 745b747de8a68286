// A session: the requests of a source, answered from a core.
ghost use Rattle.std.specs.Prelude.{◌≡◌, ◌+◌, ◌++◌, ◌<◌, ◌≤◌, length, false, OnOk, IfOk, IfErr, IsErrOf};
ghost use Rattle.fv_io.specs.Sink.{IsLater};
ghost use Rattle.fv_io.specs.Source.{KeepsSource};
ghost use Rattle.serve_worker.specs.Sources.{AreSources};
ghost use Rattle.serve_core.specs.Tables.{AllFree};
ghost use Rattle.serve_worker.specs.Furnishing.{sources_in, fault_counts};
ghost use Rattle.serve_worker.specs.Instances.{faults_of};
ghost use Rattle.prefetch.specs.Answered.{IsAnswered};
ghost use Rattle.prefetch.specs.StreamClips.{book_told};
ghost use Rattle.prefetch.specs.Sessions.{StopNamed, IsToldSession};

use crate::player::Played;
use crate::pool_size::Pool;
use crate::stops::RenderStop;
use crate::stream::told_stop;
use crate::table::open_core;
use clip_graph::Graph;
use fv_io::{Sink, Source};
use fv_session::{SessionFault, SessionReader};
use inst_table::InstTable;
use seq_source::SeqSource;
use serve_core::Core;
use serve_machine::{Record, WindowStop};
use serve_session::{PlayStop, ServeStop, serve};
use serve_text::Stop;
use serve_worker::Instance;
use std::alloc::Global;

/// Why a session ends early.
#[derive(Drop)]
pub enum SessionStop {
    /// As a render does: a read of the list counts as one of a source.
    Stopped(Stop),
    /// The list ends with this fault, which is not `Read`.
    ListFault(SessionFault),
}

// Why a session ended, told with the name of the file.
fn told_session<S: Source>(
    alloc: Global,
    core: &Core<Instance<S>>,
    done: Result<(), ServeStop>,
    stop: Option<WindowStop>,
) -> Result<(), SessionStop>
    requires named { StopNamed core.now.fixed.plan done stop }
    ensures { IsToldSession core.now.fixed.plan done stop result }
{
    match done {
        Ok(()) => Ok(()),
        Err(ServeStop::Session(SessionFault::Read)) => Err(SessionStop::Stopped(Stop::Read)),
        Err(ServeStop::Session(fault)) => Err(SessionStop::ListFault(fault)),
        Err(ServeStop::Play(PlayStop::Write)) => Err(SessionStop::Stopped(Stop::Write)),
        Err(ServeStop::Play(PlayStop::Memory)) => Err(SessionStop::Stopped(Stop::Memory)),
        Err(ServeStop::Play(PlayStop::Stopped)) => match stop {
            Some(why) => {
                let stop = told_stop(alloc, core, RenderStop::Stopped(why));
                Err(SessionStop::Stopped(stop))
            }
            None => unreachable!(),
        },
    }
}

/// Answers the requests of a source about the clip at the root of a graph, by one worker, from a core over these sources
/// with a cache of so many frames, until `quit` or the end. It answers the instances after it; the sources that no
/// instance keeps are left. The journal has a window for each frame that was made.
pub fn answer_graph<S: Source, L: Source, K: Sink>(
    alloc: Global,
    graph: Graph,
    root: u32,
    sources: &mut Vec<SeqSource<S>>,
    cache: u32,
    list: &mut L,
    out: &mut K,
    journal: &mut Option<Record>,
) -> (InstTable<Instance<S>>, Result<(), SessionStop>)
    requires root { root < length graph }
    requires sources { AreSources graph sources.old.items }
    requires cache { 0 < cache }
    ensures answered { IsAnswered graph root cache (faults_of S.Source) (book_told S.Source sources.old.items) L.Source
        list.old list.new K.Sink out.old out.new journal.new result.0 result.1 }
    ensures free { AllFree result.0 }
    ensures all { length sources.old.items ≡ length sources.new.items + length (sources_in result.0) }
    ensures steady { OnOk result.1 (fault_counts S.Source (sources.new.items ++ sources_in result.0) ≡
        fault_counts S.Source sources.old.items) }
    ensures unfailed { (IsErrOf result.1 (SessionStop.Stopped Stop.Write) → ⊥) → K.faults out.new ≡ K.faults out.old }
    ensures keeps { KeepsSource L.Source list.old list.new }
    ensures later { IsLater K.Sink out.old out.new }
{
    *journal = Some(Record::new(alloc));
    let pool = Pool {
        workers: 1,
        window: 1,
    };
    let core = match open_core(alloc, pool, graph, root, sources, cache) {
        Ok((core, _)) => core,
        Err(table) => return (table, Err(SessionStop::Stopped(Stop::Memory))),
    };
    let mut played = Played::new(alloc, core);
    let mut reader = SessionReader::new();
    let done = serve(&mut played, &mut reader, list, out);
    let (core, record, stop) = played.into_parts();
    *journal = Some(record);
    let told = told_session(alloc, &core, done, stop);
    (core.into_table(), told)
}
