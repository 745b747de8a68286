// What is known of the clip of a script, put over files.
ghost use Rattle.std.specs.Prelude.{◌≡◌, ◌<◌, length, IfOk, IfErr, IsErrOf, OnOk};
ghost use Rattle.fv_io.specs.Files.{KeepsFiles, FilesFailed};
ghost use Rattle.fv_io.specs.Sink.{IsLater};
ghost use Rattle.fv_io.specs.World.{InWorld};
ghost use Rattle.avs_meaning.specs.State.{window, workers};
ghost use Rattle.serve_text.specs.InfoText as t;
ghost use Rattle.serve_app.specs.Info.{InfoShows, PutsInfo};
ghost use Rattle.serve_app.specs.Meaning.{ReadsOnce};
ghost use Rattle.serve_app.specs.Stop.{IsByScript, ScriptHasClip};

use crate::opening::open_plan;
use avs_eval::Opened;
use avs_meaning::Crew;
use fv_io::{Failed, Files, Sink, Text};
use serve_text::{Stop, info_text};
use std::alloc::{AllocError, Global};

// The workers that a script asks for, and the frames of a window.
fn crew_of(prefetch: Option<Crew>) -> (u32, u32)
    ensures workers { result.0 ≡ workers prefetch }
    ensures window { result.1 ≡ window prefetch }
{
    match prefetch {
        Some(crew) => (crew.threads(), crew.window()),
        None => (1, 1),
    }
}

// What is known of the clip of a script.
fn text_of(alloc: Global, opened: &Opened) -> Result<Vec<u8>, AllocError>
    requires { opened.now.root < length opened.now.graph }
    ensures { IfOk result (λ text. text.items ≡ t.info_text opened.now.graph opened.now.root (workers opened.now.prefetch)
        (window opened.now.prefetch)) }
{
    let (workers, window) = crew_of(opened.prefetch);
    info_text(alloc, &opened.graph, opened.root, workers, window)
}

/// Puts what is known of the clip of a script: it evaluates the script, as a render does, and puts its text. It closes every
/// file that it opened.
pub(crate) fn put_info<F: Files, K: Sink>(
    alloc: Global,
    files: &mut F,
    out: &mut K,
    script: &Text,
) -> Result<(), Stop>
    ensures whole { OnOk result (InWorld (F.world files.old) (λ world.
        PutsInfo K.Sink world script.now out.old out.new)) }
    ensures clip { OnOk result (ScriptHasClip (F.world files.old) script.now) }
    ensures reads { OnOk result (ReadsOnce (F.world files.old) script.now
        (F.faults files.old) (F.faults files.new) (F.fetched files.old) (F.fetched files.new)) }
    ensures stop { IfErr result (InfoShows (FilesFailed F.Files files.old files.new) K.Sink (F.world files.old)
        script.now out.old out.new) }
    ensures before { IfErr result (λ stop. IsByScript stop → F.faults files.new ≡ F.faults files.old) }
    ensures unfailed { (IsErrOf result Stop.Write → ⊥) → K.faults out.new ≡ K.faults out.old }
    ensures keeps { KeepsFiles F.Files files.old files.new }
    ensures later { IsLater K.Sink out.old out.new }
{
    let opened = open_plan(alloc, files, script)?;
    let text = text_of(alloc, &opened)?;
    match out.put(&text) {
        Ok(()) => Ok(()),
        Err(Failed) => Err(Stop::Write),
    }
}
