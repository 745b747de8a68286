// The report of a render, or its journal, on standard error.
ghost use Rattle.std.specs.Prelude.{◌≡◌, if◌then◌else◌};
ghost use Rattle.std.specs.List.{AllByRecursion};
ghost use Rattle.std.specs.Result.{is_ok};
ghost use Rattle.serve_text.specs.Report.{Reports, report};
ghost use Rattle.serve_machine.specs.Events.{windows_of};
ghost use Rattle.run_text.specs.Lines.{LineFits, journal_lines, journal_text};

use crate::lines::put_report;
use crate::stop::Stop;
use clip_graph::Graph;
use fv_io::{Failed, Sink};
use run_text::print_journal;
use serve_machine::Record;

// The status of a text that was put, or cut short.
fn status_of(done: Result<(), Failed>) -> u8
    ensures { result ≡ (if is_ok done then 0 else 5) }
{
    match done {
        Ok(()) => 0,
        Err(Failed) => Stop::Write.status(),
    }
}

/// Puts the report of a journal and answers the status. Where it can't be put whole, nothing is put after that.
pub fn put_report_of<E: Sink>(err: &mut E, graph: &Graph, journal: &Record) -> u8
    ensures { Reports E.Sink err.old err.new (report graph.now (windows_of journal.now)) result }
{
    status_of(put_report(err, graph, journal))
}

/// Puts the text of a journal by so many workers and answers the status. Where it can't be put whole, nothing is put after
/// that. Where it was, each number fits its line.
pub fn put_journal_of<E: Sink>(err: &mut E, workers: u32, journal: &Record) -> u8
    ensures put { Reports E.Sink err.old err.new (journal_text workers (windows_of journal.now)) result }
    ensures fits { result ≡ 0 → AllByRecursion LineFits (journal_lines workers (windows_of journal.now)) }
{
    status_of(print_journal(err, workers, journal))
}
