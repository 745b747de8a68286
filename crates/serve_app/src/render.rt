// The clip of a script, rendered over files. What may wait for threads is a function of its own, beside the one for a
// render by one worker.
ghost use Rattle.std.specs.Prelude.{◌≡◌, ◌<◌, ◌≤◌, None, OnOk, IfErr, IsErrOf};
ghost use Rattle.fv_io.specs.Faults.{HasRisen};
ghost use Rattle.fv_io.specs.Files.{KeepsFiles, FilesFailed};
ghost use Rattle.fv_io.specs.Sink.{IsLater};
ghost use Rattle.prefetch.specs.declared.pool_size.PoolSize.TheVariants.{One};
ghost use Rattle.prefetch.specs.Windows.{IsPoolSize};
ghost use Rattle.serve_app.specs.Meaning.{ReadsOnce};
ghost use Rattle.serve_app.specs.Renders.{IsScriptRender};
ghost use Rattle.serve_app.specs.Stop.{IsByScript};

use crate::closing::close_table;
use crate::opening::{OpenScript, open_script, take_back};
use avs_eval::Opened;
use avs_files::{HeldFiles, Lent, close_all};
use fv_io::{Files, Sink, Text};
use prefetch::{Gate, PoolSize, RenderedClip, put_graph_alone, put_graph_together};
use serve_machine::Record;
use serve_text::Stop;
use std::alloc::Global;
use std::sync::Wait;
use std::thread::Threads;

// Renders over files that are held, by one worker, closes what was opened, and gives the files back.
fn render_held_alone<H: HeldFiles, K: Sink>(
    alloc: Global,
    files: H,
    out: &mut K,
    script: &Text,
    cache: u32,
    journal: &mut Option<Record>,
) -> (H, Result<RenderedClip, Stop>)
    requires cache { 0 < cache }
    requires none { journal.old ≡ None }
    ensures render { IsScriptRender (H.world files) script.now cache One
        (HasRisen (H.faults files) (H.faults result.0)) K.Sink out.old out.new journal.new result.1 }
    ensures reads { OnOk result.1 (ReadsOnce (H.world files) script.now
        (H.faults files) (H.faults result.0) (H.fetched files) (H.fetched result.0)) }
    ensures before { IfErr result.1 (λ stop. IsByScript stop → H.faults result.0 ≡ H.faults files) }
    ensures unfailed { (IsErrOf result.1 Stop.Write → ⊥) → K.faults out.new ≡ K.faults out.old }
    ensures world { H.world result.0 ≡ H.world files }
    ensures borrow { H.borrow result.0 ≡ H.borrow files }
    ensures given { H.given result.0 ≡ H.given files }
    ensures later { H.faults files ≤ H.faults result.0 }
    ensures more { H.fetched files ≤ H.fetched result.0 }
    ensures later_sink { IsLater K.Sink out.old out.new }
{
    let (mut held, found) = open_script(alloc, files, script);
    let OpenScript {
        opened,
        mut sources,
    } = match found {
        Ok(found) => found,
        Err(stop) => return (held, Err(stop)),
    };
    let Opened {
        graph,
        root,
        prefetch,
    } = opened;
    let pool = PoolSize::One.pool(prefetch);
    let (table, put) = put_graph_alone(alloc, pool, graph, root, &mut sources, cache, out, journal);
    close_table(&mut held, table);
    close_all(&mut held, sources);
    (held, put)
}

/// Renders the clip of a script by one worker: it evaluates the script, and puts the head and the frames of its clip, with
/// a cache of so many frames. It answers the number of frames and the graph, leaves the journal, and closes every file that
/// it opened.
pub(crate) fn render_alone<F: Files, K: Sink>(
    alloc: Global,
    files: &mut F,
    out: &mut K,
    script: &Text,
    cache: u32,
    journal: &mut Option<Record>,
) -> Result<RenderedClip, Stop>
    requires cache { 0 < cache }
    requires none { journal.old ≡ None }
    ensures render { IsScriptRender (F.world files.old) script.now cache One
        (FilesFailed F.Files files.old files.new) K.Sink out.old out.new journal.new result }
    ensures reads { OnOk result (ReadsOnce (F.world files.old) script.now
        (F.faults files.old) (F.faults files.new) (F.fetched files.old) (F.fetched files.new)) }
    ensures before { IfErr result (λ stop. IsByScript stop → F.faults files.new ≡ F.faults files.old) }
    ensures unfailed { (IsErrOf result Stop.Write → ⊥) → K.faults out.new ≡ K.faults out.old }
    ensures keeps { KeepsFiles F.Files files.old files.new }
    ensures later { IsLater K.Sink out.old out.new }
{
    let (lent, put) = render_held_alone(alloc, Lent { files }, out, script, cache, journal);
    let Lent { files: back } = lent;
    take_back(back);
    put
}

// The same by as many workers as are asked for.
fn render_held_together<R: Threads + Wait + Sync, G: Gate, H: HeldFiles, K: Sink>(
    rt: &R,
    gate: &G,
    alloc: Global,
    files: H,
    out: &mut K,
    script: &Text,
    cache: u32,
    pool_size: PoolSize,
    journal: &mut Option<Record>,
) -> (H, Result<RenderedClip, Stop>)
where
    H::Src: Send,
    requires cache { 0 < cache }
    requires pool_size { IsPoolSize pool_size }
    requires none { journal.old ≡ None }
    ensures render { IsScriptRender (H.world files) script.now cache pool_size
        (HasRisen (H.faults files) (H.faults result.0)) K.Sink out.old out.new journal.new result.1 }
    ensures reads { OnOk result.1 (ReadsOnce (H.world files) script.now
        (H.faults files) (H.faults result.0) (H.fetched files) (H.fetched result.0)) }
    ensures before { IfErr result.1 (λ stop. IsByScript stop → H.faults result.0 ≡ H.faults files) }
    ensures unfailed { (IsErrOf result.1 Stop.Write → ⊥) → K.faults out.new ≡ K.faults out.old }
    ensures world { H.world result.0 ≡ H.world files }
    ensures borrow { H.borrow result.0 ≡ H.borrow files }
    ensures given { H.given result.0 ≡ H.given files }
    ensures later { H.faults files ≤ H.faults result.0 }
    ensures more { H.fetched files ≤ H.fetched result.0 }
    ensures later_sink { IsLater K.Sink out.old out.new }
{
    let (mut held, found) = open_script(alloc, files, script);
    let OpenScript {
        opened,
        mut sources,
    } = match found {
        Ok(found) => found,
        Err(stop) => return (held, Err(stop)),
    };
    let Opened {
        graph,
        root,
        prefetch,
    } = opened;
    let pool = pool_size.pool(prefetch);
    let (table, put) = put_graph_together(
        rt,
        gate,
        alloc,
        pool,
        graph,
        root,
        &mut sources,
        cache,
        out,
        journal,
    );
    close_table(&mut held, table);
    close_all(&mut held, sources);
    (held, put)
}

/// The same by as many workers as are asked for, each in a thread of its own.
pub(crate) fn render_together<R: Threads + Wait + Sync, G: Gate, F: Files, K: Sink>(
    rt: &R,
    gate: &G,
    alloc: Global,
    files: &mut F,
    out: &mut K,
    script: &Text,
    cache: u32,
    pool_size: PoolSize,
    journal: &mut Option<Record>,
) -> Result<RenderedClip, Stop>
    requires cache { 0 < cache }
    requires pool_size { IsPoolSize pool_size }
    requires none { journal.old ≡ None }
    ensures render { IsScriptRender (F.world files.old) script.now cache pool_size
        (FilesFailed F.Files files.old files.new) K.Sink out.old out.new journal.new result }
    ensures reads { OnOk result (ReadsOnce (F.world files.old) script.now
        (F.faults files.old) (F.faults files.new) (F.fetched files.old) (F.fetched files.new)) }
    ensures before { IfErr result (λ stop. IsByScript stop → F.faults files.new ≡ F.faults files.old) }
    ensures unfailed { (IsErrOf result Stop.Write → ⊥) → K.faults out.new ≡ K.faults out.old }
    ensures keeps { KeepsFiles F.Files files.old files.new }
    ensures later { IsLater K.Sink out.old out.new }
{
    let (lent, put) = render_held_together(
        rt,
        gate,
        alloc,
        Lent { files },
        out,
        script,
        cache,
        pool_size,
        journal,
    );
    let Lent { files: back } = lent;
    take_back(back);
    put
}
