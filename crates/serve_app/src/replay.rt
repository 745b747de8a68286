// A replay over files: whether a file is a journal of the clip of a script.
ghost use Rattle.std.specs.Prelude.{◌≡◌, ◌+◌, ◌<◌, IfOk, IfErr, IsErrOf, OnOk};
ghost use Rattle.fv_io.specs.Files.{KeepsFiles, FilesFailed};
ghost use Rattle.fv_io.specs.Sink.{IsLater};
ghost use Rattle.fv_io.specs.World.{InWorld};
ghost use Rattle.serve_app.specs.Meaning.{files_in};
ghost use Rattle.serve_app.specs.Replays.{charge_with, ReadingShows, IsCharge, IsScriptReplay};
ghost use Rattle.serve_app.specs.Stop.{IsByScript, ScriptHasClip};

use crate::opening::open_plan;
use crate::session::unopened;
use avs_eval::Opened;
use clip_graph::Graph;
use fv_io::{Files, Sink, Text};
use serve_replay::{JournalStop, put_judged, read_journal};
use serve_text::{FileFault, Stop};
use std::alloc::Global;

/// The plan of a script, and a text that may be a journal of its clip.
#[derive(Drop)]
pub(crate) struct Charge {
    graph: Graph,
    root: u32,
    text: Vec<u8>,
}

// What was opened, with the text that was read, or why it was not, told with the name of its file.
fn charge_of(opened: Opened, done: Result<Vec<u8>, JournalStop>, name: Text) -> Result<Charge, Stop>
    ensures { result ≡ charge_with opened name done }
{
    let Opened {
        graph,
        root,
        prefetch: _,
    } = opened;
    match done {
        Ok(text) => Ok(Charge { graph, root, text }),
        Err(JournalStop::TooLong) => Err(Stop::File {
            name,
            fault: FileFault::JournalTooLong,
        }),
        Err(JournalStop::Read) => Err(Stop::Read),
        Err(JournalStop::Memory) => Err(Stop::Memory),
    }
}

// Evaluates the script and reads the file of this name whole. What was opened is closed again.
fn read_charge<F: Files>(
    alloc: Global,
    files: &mut F,
    script: &Text,
    name: Text,
) -> Result<Charge, Stop>
    ensures charge { IfOk result (IsCharge (F.world files.old) script.now name) }
    ensures clip { OnOk result (ScriptHasClip (F.world files.old) script.now) }
    ensures stop { IfErr result (ReadingShows (F.world files.old) script.now name
        (FilesFailed F.Files files.old files.new)) }
    ensures steady { OnOk result (F.faults files.new ≡ F.faults files.old) }
    ensures fetched { OnOk result (InWorld (F.world files.old) (λ world.
        F.fetched files.new ≡ F.fetched files.old + 1 + files_in world script.now)) }
    ensures before { IfErr result (λ stop. IsByScript stop → F.faults files.new ≡ F.faults files.old) }
    ensures unwritten { IsErrOf result Stop.Write → ⊥ }
    ensures keeps { KeepsFiles F.Files files.old files.new }
{
    let opened = open_plan(alloc, files, script)?;
    let mut source = match files.fetch(&name) {
        Ok(source) => source,
        Err(fault) => return Err(unopened(fault, name)),
    };
    let done = read_journal(alloc, &mut source);
    files.close(source);
    charge_of(opened, done, name)
}

/// Says whether the file of this name is a journal of the clip of a script, with a cache of so many frames: it evaluates the
/// script, reads the file whole, closes every file that it opened, and puts the line of the answer.
pub(crate) fn put_replay<F: Files, K: Sink>(
    alloc: Global,
    files: &mut F,
    out: &mut K,
    script: &Text,
    name: Text,
    cache: u32,
) -> Result<(), Stop>
    requires cache { 0 < cache }
    ensures replay { IsScriptReplay (F.world files.old) script.now name cache K.Sink out.old out.new
        (FilesFailed F.Files files.old files.new) result }
    ensures steady { OnOk result (F.faults files.new ≡ F.faults files.old) }
    ensures fetched { OnOk result (InWorld (F.world files.old) (λ world.
        F.fetched files.new ≡ F.fetched files.old + 1 + files_in world script.now)) }
    ensures before { IfErr result (λ stop. IsByScript stop → F.faults files.new ≡ F.faults files.old) }
    ensures unfailed { (IsErrOf result Stop.Write → ⊥) → K.faults out.new ≡ K.faults out.old }
    ensures keeps { KeepsFiles F.Files files.old files.new }
    ensures later { IsLater K.Sink out.old out.new }
{
    let Charge { graph, root, text } = read_charge(alloc, files, script, name)?;
    put_judged(alloc, out, &graph, root, cache, &text)
}
