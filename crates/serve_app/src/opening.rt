// A script, evaluated over files: its clip, with the sources that were opened for it.
ghost use Rattle.std.specs.Prelude.{◌≡◌, ◌+◌, ◌<◌, ◌≤◌, [], length, IsTrue, IfOk, IfErr, IsErrOf, OnOk, OnErr};
ghost use Rattle.fv_io.specs.Faults.{HasRisen};
ghost use Rattle.fv_io.specs.Files.{KeepsFiles, FilesFailed};
ghost use Rattle.avs_meaning.specs.Meaning.{meaning, files_of};
ghost use Rattle.avs_eval.specs.OutsideBy.{outside_by};
ghost use Rattle.avs_eval.specs.Evaluates.{Opens};
ghost use Rattle.avs_files.specs.Opened.{told_of};
ghost use Rattle.serve_worker.specs.Sources.{AreSources};
ghost use Rattle.serve_app.specs.Opening.{Tells, EndsBefore, IsOpenScript, MeansPlan, OpeningShows};
ghost use Rattle.serve_app.specs.Meaning.{ReadsOnce};
ghost use Rattle.serve_app.specs.Stop.{ScriptHasClip};

use avs_eval::{Opened, eval};
use avs_files::{FileHost, HeldFiles, Known, Lent, close_all};
use avs_state::{Host, stop_of};
use fv_io::{Files, Source, Text};
use seq_source::SeqSource;
use serve_text::Stop;
use std::alloc::Global;
use std::marker::{Brand, PhantomData};

/// The clip of a script, and the sources that were opened for it.
pub(crate) struct OpenScript<S: Source> {
    pub opened: Opened,
    pub sources: Vec<SeqSource<S>>,
}

// The script of this name, evaluated over a host that has opened nothing.
fn evaluate<H: Host>(alloc: Global, host: &mut H, script: &Text) -> Result<Opened, Stop>
    requires none { H.opened host.old ≡ [] }
    ensures told { IsTrue H.told → Tells (meaning (outside_by H.clips H.scripts) script.now) result }
    ensures opened { IfOk result (λ opened. Opens opened (H.opened host.new)) }
    ensures later { H.faults host.old ≤ H.faults host.new }
    ensures before { EndsBefore (H.faults host.old) (H.faults host.new) result }
    ensures more { H.fetched host.old ≤ H.fetched host.new }
    ensures fetched { IsTrue H.told → OnOk result (H.fetched host.new ≡
        H.fetched host.old + files_of (outside_by H.clips H.scripts) script.now) }
{
    let name = Text::from_str(alloc, script.as_str())?;
    let file = Text::from_str(alloc, script.as_str())?;
    let text = match host.script(script) {
        Ok(text) => text,
        Err(fault) => return Err(Stop::from(stop_of(fault, file, 0).named(name))),
    };
    let opened = eval(alloc, host, script, &text)?;
    Ok(opened)
}

// The same over files of which this is known.
fn open_in<H: HeldFiles, W: Known>(
    alloc: Global,
    files: H,
    of: PhantomData<W>,
    script: &Text,
) -> (H, Result<OpenScript<H::Src>, Stop>)
    requires world { H.world files ≡ told_of W.told W.world }
    requires borrow { H.borrow files ≡ W.borrow }
    requires given { H.given files ≡ W.given }
    ensures opened { IfOk result.1 (λ r.
        IsOpenScript H.Src.Source (told_of W.told W.world) script.now r.opened r.sources.items) }
    ensures root { IfOk result.1 (λ r. r.opened.root < length r.opened.graph) }
    ensures sources { IfOk result.1 (λ r. AreSources r.opened.graph r.sources.items) }
    ensures stop { IfErr result.1 (OpeningShows (told_of W.told W.world) script.now
        (HasRisen (H.faults files) (H.faults result.0))) }
    ensures steady { (IsErrOf result.1 Stop.Read → ⊥) → H.faults result.0 ≡ H.faults files }
    ensures reads { OnOk result.1 (ReadsOnce (told_of W.told W.world) script.now
        (H.faults files) (H.faults result.0) (H.fetched files) (H.fetched result.0)) }
    ensures given { IfOk result.1 (λ r. H.given result.0 ≡ H.given files + length r.sources.items) }
    ensures given_back { OnErr result.1 (H.given result.0 ≡ H.given files) }
    ensures world { H.world result.0 ≡ told_of W.told W.world }
    ensures borrow { H.borrow result.0 ≡ W.borrow }
    ensures later { H.faults files ≤ H.faults result.0 }
    ensures more { H.fetched files ≤ H.fetched result.0 }
{
    let mut host = FileHost::new(alloc, files, of);
    let answer = evaluate(alloc, &mut host, script);
    let FileHost {
        alloc: _,
        mut files,
        listed: _,
        sources,
        of: _,
    } = host;
    match answer {
        Ok(opened) => (files, Ok(OpenScript { opened, sources })),
        Err(stop) => {
            close_all(&mut files, sources);
            (files, Err(stop))
        }
    }
}

/// Evaluates the script of this name over files, and gives the files back. Where it has no clip, each source that was opened
/// is closed again.
#[tactic(auto, using(crate::proofs::PickLemmas::picked))]
pub(crate) fn open_script<H: HeldFiles>(
    alloc: Global,
    files: H,
    script: &Text,
) -> (H, Result<OpenScript<H::Src>, Stop>)
    ensures opened { IfOk result.1 (λ r.
        IsOpenScript H.Src.Source (H.world files) script.now r.opened r.sources.items) }
    ensures root { IfOk result.1 (λ r. r.opened.root < length r.opened.graph) }
    ensures sources { IfOk result.1 (λ r. AreSources r.opened.graph r.sources.items) }
    ensures stop { IfErr result.1 (OpeningShows (H.world files) script.now
        (HasRisen (H.faults files) (H.faults result.0))) }
    ensures steady { (IsErrOf result.1 Stop.Read → ⊥) → H.faults result.0 ≡ H.faults files }
    ensures reads { OnOk result.1 (ReadsOnce (H.world files) script.now
        (H.faults files) (H.faults result.0) (H.fetched files) (H.fetched result.0)) }
    ensures given { IfOk result.1 (λ r. H.given result.0 ≡ H.given files + length r.sources.items) }
    ensures given_back { OnErr result.1 (H.given result.0 ≡ H.given files) }
    ensures world { H.world result.0 ≡ H.world files }
    ensures borrow { H.borrow result.0 ≡ H.borrow files }
    ensures later { H.faults files ≤ H.faults result.0 }
    ensures more { H.fetched files ≤ H.fetched result.0 }
{
    open_in::<H, Brand>(alloc, files, PhantomData, script)
}

// The plan of a script over files that are held, which are given back. Each source that was opened is closed again.
fn plan_held<H: HeldFiles>(alloc: Global, files: H, script: &Text) -> (H, Result<Opened, Stop>)
    ensures root { IfOk result.1 (λ opened. opened.root < length opened.graph) }
    ensures means { IfOk result.1 (λ opened. MeansPlan (H.world files) script.now opened) }
    ensures clip { OnOk result.1 (ScriptHasClip (H.world files) script.now) }
    ensures stop { IfErr result.1 (OpeningShows (H.world files) script.now
        (HasRisen (H.faults files) (H.faults result.0))) }
    ensures steady { (IsErrOf result.1 Stop.Read → ⊥) → H.faults result.0 ≡ H.faults files }
    ensures reads { OnOk result.1 (ReadsOnce (H.world files) script.now
        (H.faults files) (H.faults result.0) (H.fetched files) (H.fetched result.0)) }
    ensures given { H.given result.0 ≡ H.given files }
    ensures world { H.world result.0 ≡ H.world files }
    ensures borrow { H.borrow result.0 ≡ H.borrow files }
    ensures later { H.faults files ≤ H.faults result.0 }
    ensures more { H.fetched files ≤ H.fetched result.0 }
{
    let (mut held, found) = open_script(alloc, files, script);
    let OpenScript { opened, sources } = match found {
        Ok(found) => found,
        Err(stop) => return (held, Err(stop)),
    };
    close_all(&mut held, sources);
    (held, Ok(opened))
}

/// The plan of the script of this name. It closes every file that it opened.
pub(crate) fn open_plan<F: Files>(
    alloc: Global,
    files: &mut F,
    script: &Text,
) -> Result<Opened, Stop>
    ensures root { IfOk result (λ opened. opened.root < length opened.graph) }
    ensures means { IfOk result (λ opened. MeansPlan (F.world files.old) script.now opened) }
    ensures clip { OnOk result (ScriptHasClip (F.world files.old) script.now) }
    ensures stop { IfErr result (OpeningShows (F.world files.old) script.now
        (FilesFailed F.Files files.old files.new)) }
    ensures steady { (IsErrOf result Stop.Read → ⊥) → F.faults files.new ≡ F.faults files.old }
    ensures reads { OnOk result (ReadsOnce (F.world files.old) script.now
        (F.faults files.old) (F.faults files.new) (F.fetched files.old) (F.fetched files.new)) }
    ensures keeps { KeepsFiles F.Files files.old files.new }
{
    let (lent, plan) = plan_held(alloc, Lent { files }, script);
    let Lent { files: back } = lent;
    take_back(back);
    plan
}

/// Does nothing, but its use of a reference that was given back ties it to the one that was lent.
pub(crate) fn take_back<T>(x: &mut T)
    ensures { x.new ≡ x.old }
{}
