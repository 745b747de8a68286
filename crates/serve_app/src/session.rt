// A session over files: the requests of a list, answered over the clip of a script.
ghost use Rattle.std.specs.Prelude.{◌≡◌, ◌<◌, ◌≤◌, None, OnOk, IfErr, IsErrOf};
ghost use Rattle.fv_io.specs.Faults.{HasRisen};
ghost use Rattle.fv_io.specs.Files.{KeepsFiles, FilesFailed};
ghost use Rattle.fv_io.specs.Sink.{IsLater};
ghost use Rattle.serve_app.specs.Sessions.{fetch_stop, ended_with, IsScriptSession, FetchesList};
ghost use Rattle.serve_app.specs.Stop.{IsByScript};

use crate::closing::close_table;
use crate::opening::{OpenScript, open_script, take_back};
use avs_eval::Opened;
use avs_files::{HeldFiles, Lent, close_all};
use fv_io::{FetchFault, Files, Sink, Text};
use fv_session::SessionFault;
use prefetch::{SessionStop, answer_graph};
use serve_machine::Record;
use serve_text::{FileFault, Stop};
use std::alloc::Global;

/// Why the file of this name was not opened.
pub(crate) fn unopened(fault: FetchFault, name: Text) -> Stop
    ensures { result ≡ fetch_stop name fault }
{
    match fault {
        FetchFault::NotThere => Stop::File {
            name,
            fault: FileFault::NotThere,
        },
        FetchFault::Failed => Stop::Read,
        FetchFault::Memory => Stop::Memory,
    }
}

// How a session ended, told with the name of its list.
fn ended(done: Result<(), SessionStop>, list: Text) -> Result<(), Stop>
    ensures { result ≡ ended_with list done }
{
    match done {
        Ok(()) => Ok(()),
        Err(SessionStop::Stopped(stop)) => Err(stop),
        Err(SessionStop::ListFault(SessionFault::Read)) => Err(Stop::Read),
        Err(SessionStop::ListFault(SessionFault::LineTooLong)) => Err(Stop::File {
            name: list,
            fault: FileFault::LineTooLong,
        }),
        Err(SessionStop::ListFault(SessionFault::TooManyLines)) => Err(Stop::File {
            name: list,
            fault: FileFault::TooManyLines,
        }),
    }
}

// Answers over files that are held, closes what was opened, and gives the files back.
fn answer_held<H: HeldFiles, K: Sink>(
    alloc: Global,
    files: H,
    out: &mut K,
    script: &Text,
    list: Text,
    cache: u32,
    journal: &mut Option<Record>,
) -> (H, Result<(), Stop>)
    requires cache { 0 < cache }
    requires none { journal.old ≡ None }
    ensures session { IsScriptSession (H.world files) script.now list K.Sink out.old out.new
        (HasRisen (H.faults files) (H.faults result.0)) cache journal.new result.1 }
    ensures steady { OnOk result.1 (H.faults result.0 ≡ H.faults files) }
    ensures fetched { FetchesList (H.world files) script.now journal.new
        (H.fetched files) (H.fetched result.0) }
    ensures before { IfErr result.1 (λ stop. IsByScript stop → H.faults result.0 ≡ H.faults files) }
    ensures unfailed { (IsErrOf result.1 Stop.Write → ⊥) → K.faults out.new ≡ K.faults out.old }
    ensures world { H.world result.0 ≡ H.world files }
    ensures borrow { H.borrow result.0 ≡ H.borrow files }
    ensures given { H.given result.0 ≡ H.given files }
    ensures later { H.faults files ≤ H.faults result.0 }
    ensures more { H.fetched files ≤ H.fetched result.0 }
    ensures later_sink { IsLater K.Sink out.old out.new }
{
    let (mut held, found) = open_script(alloc, files, script);
    let OpenScript {
        opened,
        mut sources,
    } = match found {
        Ok(found) => found,
        Err(stop) => return (held, Err(stop)),
    };
    let mut requests = match held.fetch(&list) {
        Ok(source) => source,
        Err(fault) => {
            close_all(&mut held, sources);
            return (held, Err(unopened(fault, list)));
        }
    };
    let Opened {
        graph,
        root,
        prefetch: _,
    } = opened;
    let (table, done) = answer_graph(
        alloc,
        graph,
        root,
        &mut sources,
        cache,
        &mut requests,
        out,
        journal,
    );
    held.close(requests);
    close_table(&mut held, table);
    close_all(&mut held, sources);
    (held, ended(done, list))
}

/// Answers the requests of a list over the clip of a script, by one worker, with a cache of so many frames: it evaluates the
/// script, opens the list, and answers each request before it reads the next. It leaves a journal where the list was
/// opened, and closes every file that it opened.
pub(crate) fn answer_list<F: Files, K: Sink>(
    alloc: Global,
    files: &mut F,
    out: &mut K,
    script: &Text,
    list: Text,
    cache: u32,
    journal: &mut Option<Record>,
) -> Result<(), Stop>
    requires cache { 0 < cache }
    requires none { journal.old ≡ None }
    ensures session { IsScriptSession (F.world files.old) script.now list K.Sink out.old out.new
        (FilesFailed F.Files files.old files.new) cache journal.new result }
    ensures steady { OnOk result (F.faults files.new ≡ F.faults files.old) }
    ensures fetched { FetchesList (F.world files.old) script.now journal.new
        (F.fetched files.old) (F.fetched files.new) }
    ensures before { IfErr result (λ stop. IsByScript stop → F.faults files.new ≡ F.faults files.old) }
    ensures unfailed { (IsErrOf result Stop.Write → ⊥) → K.faults out.new ≡ K.faults out.old }
    ensures keeps { KeepsFiles F.Files files.old files.new }
    ensures later { IsLater K.Sink out.old out.new }
{
    let (lent, done) = answer_held(alloc, Lent { files }, out, script, list, cache, journal);
    let Lent { files: back } = lent;
    take_back(back);
    done
}
