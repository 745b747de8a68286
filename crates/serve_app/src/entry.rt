// `run` and `run_plain`: the program as a call over words, files and streams.
ghost use Rattle.std.specs.Prelude.{◌≡◌, None, IfErr, IsErrOf};
ghost use Rattle.command_line.specs.declared.command.RenderOptions.{RenderOptions};
ghost use Rattle.prefetch.specs.declared.pool_size.PoolSize.{PoolSize};
ghost use Rattle.fv_io.specs.Files.{KeepsFiles};
ghost use Rattle.fv_io.specs.Sink.{IsLater};
ghost use Rattle.serve_app.specs.Headline.{Ends, LeavesJournal};
ghost use Rattle.serve_app.specs.Stop.{IsByScript};
ghost use Rattle.serve_app.specs.Run.{plain_size, size_by, told_in, IsFit, IsOther, HasLog, Does, LeavesNone, Finishes};

use crate::info::put_info;
use crate::render::{render_alone, render_together};
use crate::replay::put_replay;
use crate::session::answer_list;
use crate::test_run::put_self_test;
use command_line::{Command, RenderOptions, Tells, command_of};
use fv_io::{Files, Sink, Text};
use prefetch::{Gate, PoolSize, RenderedClip, SharedGraph};
use serve_machine::Record;
use serve_text::{Stop, put_journal_of, put_report_of, say_stop, say_usage};
use std::alloc::{AllocError, Global};
use std::sync::Wait;
use std::thread::Threads;

// How many frames the cache holds where the words don't say it.
const CACHE: u32 = 64;

/// How a run ended.
#[derive(Drop)]
pub struct Ending {
    /// The program's exit status, 0 to 6.
    pub status: u8,
    /// The events of a render or of a session, window by window. There is none where the head of the render was not put
    /// whole, where the list of the session was not opened, and where the words ask for something else.
    pub journal: Option<Record>,
}

// The workers that the words of a render ask for.
fn pool_size_of(options: RenderOptions) -> PoolSize
    ensures { result ≡ size_by options }
{
    if options.plain {
        PoolSize::One
    } else {
        PoolSize::Asked {
            threads: options.threads,
        }
    }
}

// What is told on standard error after a command.
#[derive(Drop)]
pub(crate) enum Telling {
    Nothing,
    // The report of the journal, by this graph.
    Report(SharedGraph),
    // The journal, by so many workers.
    Journal(u32),
}

// What is told of a render, by what is asked for.
fn telling_of(done: Result<RenderedClip, Stop>, tells: Tells) -> Result<Telling, Stop>
    ensures { result ≡ told_in tells done }
{
    let RenderedClip {
        frames: _,
        graph,
        workers,
    } = done?;
    match tells {
        Tells::Nothing => Ok(Telling::Nothing),
        Tells::Report => Ok(Telling::Report(graph)),
        Tells::Journal => Ok(Telling::Journal(workers)),
    }
}

// Does what a command but a render asks for.
fn run_other<F: Files, K: Sink>(
    alloc: Global,
    command: Command,
    files: &mut F,
    out: &mut K,
    journal: &mut Option<Record>,
) -> Result<Telling, Stop>
    requires other { IsOther command }
    requires fits { IsFit command }
    requires none { journal.old ≡ None }
    ensures does { (by : RenderOptions → PoolSize) →
        Does F.Files K.Sink files.old files.new out.old out.new journal.new by command result }
    ensures leaves { LeavesNone command journal.new }
    ensures before { IfErr result (λ stop. IsByScript stop → F.faults files.new ≡ F.faults files.old) }
    ensures unfailed { (IsErrOf result Stop.Write → ⊥) → K.faults out.new ≡ K.faults out.old }
    ensures keeps { KeepsFiles F.Files files.old files.new }
    ensures later { IsLater K.Sink out.old out.new }
{
    match command {
        Command::Render { .. } => unreachable!(),
        Command::Info { script } => match put_info(alloc, files, out, &script) {
            Ok(()) => Ok(Telling::Nothing),
            Err(stop) => Err(stop),
        },
        Command::SelfTest { number } => match put_self_test(alloc, out, number) {
            Ok(()) => Ok(Telling::Nothing),
            Err(stop) => Err(stop),
        },
        Command::Session {
            script,
            list,
            cache,
        } => {
            let cache = cache.unwrap_or(CACHE);
            match answer_list(alloc, files, out, &script, list, cache, journal) {
                Ok(()) => Ok(Telling::Nothing),
                Err(stop) => Err(stop),
            }
        }
        Command::Replay {
            script,
            journal: name,
            cache,
        } => {
            let cache = cache.unwrap_or(CACHE);
            match put_replay(alloc, files, out, &script, name, cache) {
                Ok(()) => Ok(Telling::Nothing),
                Err(stop) => Err(stop),
            }
        }
    }
}

// Does what a command asks for, by one worker. It answers what is to be told after it.
fn run_command_alone<F: Files, K: Sink>(
    alloc: Global,
    command: Command,
    files: &mut F,
    out: &mut K,
    journal: &mut Option<Record>,
) -> Result<Telling, Stop>
    requires fits { IsFit command }
    requires none { journal.old ≡ None }
    ensures does { Does F.Files K.Sink files.old files.new out.old out.new journal.new plain_size command result }
    ensures leaves { LeavesNone command journal.new }
    ensures before { IfErr result (λ stop. IsByScript stop → F.faults files.new ≡ F.faults files.old) }
    ensures unfailed { (IsErrOf result Stop.Write → ⊥) → K.faults out.new ≡ K.faults out.old }
    ensures keeps { KeepsFiles F.Files files.old files.new }
    ensures later { IsLater K.Sink out.old out.new }
{
    match command {
        Command::Render { script, options } => {
            let cache = options.cache.unwrap_or(CACHE);
            let done = render_alone(alloc, files, out, &script, cache, journal);
            telling_of(done, options.tells)
        }
        other => run_other(alloc, other, files, out, journal),
    }
}

// The same by as many workers as are asked for.
fn run_command_together<R: Threads + Wait + Sync, G: Gate, F: Files, K: Sink>(
    rt: &R,
    gate: &G,
    alloc: Global,
    command: Command,
    files: &mut F,
    out: &mut K,
    journal: &mut Option<Record>,
) -> Result<Telling, Stop>
    requires fits { IsFit command }
    requires none { journal.old ≡ None }
    ensures does { Does F.Files K.Sink files.old files.new out.old out.new journal.new size_by command result }
    ensures leaves { LeavesNone command journal.new }
    ensures before { IfErr result (λ stop. IsByScript stop → F.faults files.new ≡ F.faults files.old) }
    ensures unfailed { (IsErrOf result Stop.Write → ⊥) → K.faults out.new ≡ K.faults out.old }
    ensures keeps { KeepsFiles F.Files files.old files.new }
    ensures later { IsLater K.Sink out.old out.new }
{
    match command {
        Command::Render { script, options } => {
            let cache = options.cache.unwrap_or(CACHE);
            let pool_size = pool_size_of(options);
            let done = render_together(
                rt, gate, alloc, files, out, &script, cache, pool_size, journal,
            );
            telling_of(done, options.tells)
        }
        other => run_other(alloc, other, files, out, journal),
    }
}

// Puts the report or the journal that is asked for, or says why a command stopped, where it did, and answers the status.
fn finish<E: Sink>(err: &mut E, done: Result<Telling, Stop>, journal: &Option<Record>) -> u8
    requires { HasLog done journal.now }
    ensures { Finishes E.Sink err.old err.new done journal.now result }
{
    match done {
        Ok(Telling::Nothing) => 0,
        Ok(Telling::Report(shared)) => match journal {
            Some(journal) => put_report_of(err, shared.graph(), journal),
            None => unreachable!(),
        },
        Ok(Telling::Journal(workers)) => match journal {
            Some(journal) => put_journal_of(err, workers, journal),
            None => unreachable!(),
        },
        Err(stop) => {
            say_stop(err, &stop);
            stop.status()
        }
    }
}

/// Does what the words after the program's name ask for: the render of a script's clip, what is known of that clip, the
/// self test, a session over the clip, or a replay of its journal. Where they break the rules on words the status is 1.
///
/// A render has as many workers as the words or the script ask for, each in a thread of its own; one worker is the
/// caller's thread. The workers pass the gate, which may hold them for a test. A session has one worker. A render may
/// print its journal, and a replay says whether a text is the journal of such a render.
///
/// The status is 0 where the whole text was written; 1 where the words break the rules; 2 for a fault of the script; 3 for
/// a fault of an input, of a session's list or of a replay's journal; 4 where a read failed; 5 where a write failed; 6
/// where it is out of memory. Each status but 0 puts one line on `err`. A fault of `err` changes no status, but for that of
/// a render whose report or journal can't be put: that is 5.
/// What failed isn't tried again: where the status is 0 or 2 no fault of the files was counted, and none of the output where it
/// isn't 5.
pub fn run<R: Threads + Wait + Sync, F: Files, K: Sink, E: Sink, G: Gate>(
    rt: &R,
    alloc: Global,
    words: &[Text],
    files: &mut F,
    out: &mut K,
    err: &mut E,
    gate: &G,
) -> Ending
    ensures ends { Ends F.Files K.Sink E.Sink files.old files.new out.old out.new err.old err.new
        size_by words.now result.status result.journal }
    ensures journal { LeavesJournal F.Files K.Sink E.Sink files.old files.new out.old out.new err.old err.new
        size_by words.now result.status result.journal }
{
    let mut journal = None;
    match command_of(alloc, words) {
        Ok(Some(command)) => {
            let done = run_command_together(rt, gate, alloc, command, files, out, &mut journal);
            let status = finish(err, done, &journal);
            Ending { status, journal }
        }
        Ok(None) => {
            say_usage(err);
            Ending { status: 1, journal }
        }
        Err(AllocError) => {
            let status = finish(err, Err(Stop::Memory), &journal);
            Ending { status, journal }
        }
    }
}

/// The same by one worker alone, whatever the words and the script ask for, in windows of one frame. It waits for nobody.
pub fn run_plain<F: Files, K: Sink, E: Sink>(
    alloc: Global,
    words: &[Text],
    files: &mut F,
    out: &mut K,
    err: &mut E,
) -> Ending
    ensures ends { Ends F.Files K.Sink E.Sink files.old files.new out.old out.new err.old err.new
        plain_size words.now result.status result.journal }
    ensures journal { LeavesJournal F.Files K.Sink E.Sink files.old files.new out.old out.new err.old err.new
        plain_size words.now result.status result.journal }
{
    let mut journal = None;
    match command_of(alloc, words) {
        Ok(Some(command)) => {
            let done = run_command_alone(alloc, command, files, out, &mut journal);
            let status = finish(err, done, &journal);
            Ending { status, journal }
        }
        Ok(None) => {
            say_usage(err);
            Ending { status: 1, journal }
        }
        Err(AllocError) => {
            let status = finish(err, Err(Stop::Memory), &journal);
            Ending { status, journal }
        }
    }
}
